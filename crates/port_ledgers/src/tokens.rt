//! For each port, the tokens that its client holds.

ghost use Rattle.std.specs.Prelude.{◌≡◌, ◌↔◌, ℕ, List, [], ◌∷◌, true, false, nat_eq, IfOk, OnOk, OnErr, Ok};
ghost use Rattle.port_ledgers.specs.Told.{Told};
ghost use Rattle.port_ledgers.specs.Told.Told.{Opened, Closed, Provided, Accepted, Returned, Received};
ghost use Rattle.std.specs.Map.{lookup};
ghost use Rattle.port_ledgers.specs.Held.{AreHeld, AreTokensRight, IsToldTo, IsPortPut, port_for, is_port, may_be_said};
ghost use Rattle.port_ledgers.specs.Held.{AreAllPlaced, are_all_placed, port_told};

use crate::port::OpenPort;
use crate::{Lane, PortName, SentMessage, ToldPlace};
use std::alloc::{AllocError, Global};
use std::collections::HashMap;
use std::marker::Model;

/// The open ports, each with the tokens that its client holds.
#[derive(Drop)]
pub struct TokenLedger {
    alloc: Global,
    ports: HashMap<PortName, OpenPort>,
}

impl Model for TokenLedger {
    ghost use Rattle.std.specs.Prelude.{List};
    ghost use Rattle.port_ledgers.specs.declared.lane.PortName.{PortName};
    ghost use Rattle.port_ledgers.specs.Held.{OpenPort};

    ghost Value = { List (PortName × OpenPort) };

    ghost view = { λ l. l.ports.entries };
}

impl TokenLedger {
    /// Before any line.
    #[tactic(auto, using(crate::proofs::Holding::none_held))]
    pub fn new(alloc: Global) -> TokenLedger
        ensures { AreHeld [] result }
    {
        TokenLedger {
            alloc,
            ports: HashMap::new(alloc),
        }
    }

    /// A line tells that a port was opened: its client holds all its tokens, whatever was told of the port before. On
    /// an error nothing is told.
    #[tactic(auto, using(crate::proofs::Holding::told_held))]
    pub fn open(&mut self, port: PortName, sends: u16, recvs: u16) -> Result<(), AllocError>
        ensures told { OnOk result ((past : List Told) → AreHeld past self.old
            → AreHeld (Opened port sends recvs ∷ past) self.new) }
        ensures err { OnErr result (self.new ≡ self.old) }
    {
        self.begin(port, sends, recvs)
    }

    /// A line tells that a port was closed, and so many receive tokens came back. True exactly where the port is open
    /// and so many are with it; else nothing is told.
    #[tactic(auto, using(crate::proofs::Holding::said_right, crate::proofs::Holding::told_held, crate::proofs::Holding::refused_held))]
    pub fn close(&mut self, port: PortName, count: u64) -> bool
        ensures right { (past : List Told) → AreHeld past self.old
            → (result ≡ true) ↔ AreTokensRight past (Closed port count) }
        ensures told { result ≡ true → (past : List Told) → AreHeld past self.old
            → AreHeld (Closed port count ∷ past) self.new }
        ensures refused { result ≡ false → (past : List Told) → AreHeld past self.old → AreHeld past self.new }
    {
        self.end(port, count)
    }

    /// A line tells that a receive token was provided. True exactly where the client holds it; else nothing is told.
    #[tactic(auto, using(crate::proofs::Holding::said_right, crate::proofs::Holding::told_held, crate::proofs::Holding::refused_held))]
    pub fn provide(&mut self, port: PortName, token: u64) -> bool
        ensures right { (past : List Told) → AreHeld past self.old
            → (result ≡ true) ↔ AreTokensRight past (Provided port token) }
        ensures told { result ≡ true → (past : List Told) → AreHeld past self.old
            → AreHeld (Provided port token ∷ past) self.new }
        ensures refused { result ≡ false → (past : List Told) → AreHeld past self.old → AreHeld past self.new }
    {
        self.take_recv(port, token)
    }

    /// A line tells that a message was accepted with a send token. True exactly where the client of the sending port
    /// holds it; else nothing is told.
    #[tactic(auto, using(crate::proofs::Holding::said_right, crate::proofs::Holding::told_held, crate::proofs::Holding::refused_held))]
    pub fn send(&mut self, lane: Lane, m: SentMessage, token: u64) -> bool
        ensures right { (past : List Told) → AreHeld past self.old
            → (result ≡ true) ↔ AreTokensRight past (Accepted lane m token) }
        ensures told { result ≡ true → (past : List Told) → AreHeld past self.old
            → AreHeld (Accepted lane m token ∷ past) self.new }
        ensures refused { result ≡ false → (past : List Told) → AreHeld past self.old → AreHeld past self.new }
    {
        self.take_send(lane, m, token)
    }

    /// A line tells that a send token came back. True exactly where the port is open, has it, and its client doesn't
    /// hold it; else, and on an error, nothing is told. Memory may run out only where it is true.
    #[tactic(auto, using(crate::proofs::Holding::said_right, crate::proofs::Holding::told_held, crate::proofs::Holding::refused_held, crate::proofs::Holding::kept_held, crate::proofs::Holding::may_right))]
    pub fn give_back(&mut self, port: PortName, token: u64) -> Result<bool, AllocError>
        ensures right { IfOk result (λ is. (past : List Told) → AreHeld past self.old
            → (is ≡ true) ↔ AreTokensRight past (Returned port token)) }
        ensures told { result ≡ Ok true → (past : List Told) → AreHeld past self.old
            → AreHeld (Returned port token ∷ past) self.new }
        ensures memory { OnErr result ((past : List Told) → AreHeld past self.old
            → AreTokensRight past (Returned port token)) }
        ensures refused { result ≡ Ok false → (past : List Told) → AreHeld past self.old → AreHeld past self.new }
        ensures err { OnErr result ((past : List Told) → AreHeld past self.old → AreHeld past self.new) }
    {
        self.send_back(port, token)
    }

    /// A line tells that a message was received with a receive token. True exactly where the receiving port is open,
    /// has it, and its client doesn't hold it; else, and on an error, nothing is told. Memory may run out only where it
    /// is true.
    pub fn receive(&mut self, lane: Lane, token: u64) -> Result<bool, AllocError>
        ensures right { IfOk result (λ is. (past : List Told) (sport : ℕ) (body : List ℕ) → AreHeld past self.old
            → (is ≡ true) ↔ AreTokensRight past (Received lane sport body token)) }
        ensures told { result ≡ Ok true → (past : List Told) (sport : ℕ) (body : List ℕ) → AreHeld past self.old
            → AreHeld (Received lane sport body token ∷ past) self.new }
        ensures memory { OnErr result ((past : List Told) (sport : ℕ) (body : List ℕ) → AreHeld past self.old
            → AreTokensRight past (Received lane sport body token)) }
        ensures refused { result ≡ Ok false → (past : List Told) → AreHeld past self.old → AreHeld past self.new }
        ensures err { OnErr result ((past : List Told) → AreHeld past self.old → AreHeld past self.new) }
    {
        self.recv_back(lane, token)
    }

    /// Whether a line tells right where each token of a port is: the port is open, each token is told once, by number,
    /// and with the client exactly those that it holds.
    #[tactic(auto, using(crate::proofs::Placing::placed_right))]
    pub fn are_placed(&self, port: PortName, sends: &[ToldPlace], recvs: &[ToldPlace]) -> bool
        ensures { (past : List Told) → AreHeld past self.now
            → (result ≡ true) ↔ AreAllPlaced (port_told port past) sends.now recvs.now }
    {
        self.are_placed_at(port, sends, recvs)
    }

    // The same of the port as it is kept.
    fn are_placed_at(&self, port: PortName, sends: &[ToldPlace], recvs: &[ToldPlace]) -> bool
        ensures { result ≡ are_all_placed (lookup (is_port port) self.now) sends.now recvs.now }
    {
        match self.ports.get(&port) {
            Some(open) => open.are_placed(sends, recvs),
            None => false,
        }
    }

    // A port begins anew.
    fn begin(&mut self, port: PortName, sends: u16, recvs: u16) -> Result<(), AllocError>
        ensures told { OnOk result (IsToldTo self.old self.new (Opened port sends recvs) true) }
        ensures err { OnErr result (self.new ≡ self.old) }
    {
        let open = OpenPort::open(self.alloc, sends, recvs)?;
        match self.ports.insert(port, open) {
            Ok(_) => Ok(()),
            Err(_) => Err(AllocError),
        }
    }

    // A port that is open ends, where so many receive tokens are with it.
    fn end(&mut self, port: PortName, count: u64) -> bool
        ensures { IsToldTo self.old self.new (Closed port count) result }
    {
        let is = self.has_provided(port, count);
        if is {
            let _closed = self.ports.remove(&port);
        }
        is
    }

    // Whether a port is open, and so many receive tokens are with it.
    fn has_provided(&self, port: PortName, count: u64) -> bool
        ensures { result ≡ may_be_said (Closed port count) (port_for self.now (Closed port count)) }
    {
        match self.ports.get(&port) {
            Some(open) => open.has_provided(count),
            None => false,
        }
    }

    // A receive token of a port is used.
    fn take_recv(&mut self, port: PortName, token: u64) -> bool
        ensures { IsToldTo self.old self.new (Provided port token) result }
    {
        match self.ports.get_mut(&port) {
            Some(open) => open.take_recv(token),
            None => false,
        }
    }

    // A send token of a port is used.
    fn take_send(&mut self, lane: Lane, m: SentMessage, token: u64) -> bool
        ensures { IsToldTo self.old self.new (Accepted lane m token) result }
    {
        let port = PortName {
            host: lane.from,
            port: m.sport,
        };
        match self.ports.get_mut(&port) {
            Some(open) => open.take_send(token),
            None => false,
        }
    }

    // A send token of a port comes back.
    fn send_back(&mut self, port: PortName, token: u64) -> Result<bool, AllocError>
        ensures told { IfOk result (λ is. IsToldTo self.old self.new (Returned port token) is) }
        ensures memory { OnErr result (may_be_said (Returned port token)
            (port_for self.old (Returned port token)) ≡ true) }
        ensures err { OnErr result (IsPortPut self.old self.new port (port_for self.old (Returned port token))) }
    {
        match self.ports.get_mut(&port) {
            Some(open) => open.give_back_send(token),
            None => Ok(false),
        }
    }

    // A receive token of a port comes back.
    fn recv_back(&mut self, lane: Lane, token: u64) -> Result<bool, AllocError>
        ensures told { IfOk result (λ is. (sport : ℕ) (body : List ℕ)
            → IsToldTo self.old self.new (Received lane sport body token) is) }
        ensures memory { OnErr result ((sport : ℕ) (body : List ℕ) → may_be_said (Received lane sport body token)
            (port_for self.old (Received lane sport body token)) ≡ true) }
        ensures err { OnErr result ((sport : ℕ) (body : List ℕ) → IsPortPut self.old self.new
            record { host = lane.to; port = lane.port } (port_for self.old (Received lane sport body token))) }
    {
        let port = PortName {
            host: lane.to,
            port: lane.port,
        };
        match self.ports.get_mut(&port) {
            Some(open) => open.give_back_recv(token),
            None => Ok(false),
        }
    }
}

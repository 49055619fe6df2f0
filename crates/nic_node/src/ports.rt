//! The calls of a host's clients, each on one of its ports.

ghost use Rattle.std.specs.Prelude.{◌≡◌, ◌⊎◌, ◌<◌, map, true, is_some, None, Some, IfOk, IfErr, IfSome, OnOk, OnErr};
ghost use Rattle.std.specs.Prelude.{MatchResult, option_map};
ghost use Rattle.std.specs.Option.{ForSome};
ghost use Rattle.net_defs.specs.Refusal.{Refuses};
ghost use Rattle.gm_defs.specs.Token.{opened, place_of_send, place_of_recv};
ghost use Rattle.gm_defs.specs.Port.{provided_with, next_event, polled};
ghost use Rattle.gm_tokens.specs.Token.{token_at};
ghost use Rattle.gm_port.specs.Held.{receive_at, event_at};
ghost use Rattle.world_defs.specs.Node.{port_at, with_port};
ghost use Rattle.host_ports.specs.Held.{place_at};
ghost use Rattle.host_ports.specs.Refusal.{begin_bar, provide_bar, close_bar};
ghost use Rattle.nic_node.specs.Held.{in_state};
ghost use Rattle.nic_node.specs.Accepting.{ask_bar, send_bar, accepted};

use crate::accepting::{refuse_ask, send};
use crate::node::NicNode;
use crate::refusal::NodeSend;
use gm_defs::TokenPlace;
use gm_tokens::{RecvToken, SendToken};
use host_ports::{NodeBegin, NodeClose, NodeProvide, NotOpen, PortEvent, SendAsk};
use reg_mem::Reg;
use std::alloc::Global;

impl NicNode {
    /// Opens a port with room for all of its tokens. A refusal changes nothing: Already exactly where the port is open.
    pub fn begin(
        &mut self,
        alloc: Global,
        port: u8,
        sends: u16,
        recvs: u16,
    ) -> Result<(), NodeBegin>
        requires { port < 8 }
        ensures refused { Refuses (begin_bar (port_at self.old.state port)) NodeBegin.NoMemory result }
        ensures begun { OnOk result (self.new ≡ in_state self.old
            (with_port self.old.state port (Some (opened sends recvs)))) }
        ensures unchanged { OnErr result (self.new ≡ self.old) }
    {
        self.ports.begin(alloc, port, sends, recvs)
    }

    /// Closes a port, and hands each provided token back with its buffer, first provided first. A refusal changes
    /// nothing: NotOpen, Busy where sends aren't finished, Unread where events wait, Filling where
    /// provided tokens hold the beginning of a message.
    pub fn close(&mut self, port: u8) -> Result<Vec<(RecvToken, Reg)>, NodeClose>
        requires { port < 8 }
        ensures refused { MatchResult result (λ _. close_bar (port_at self.old.state port) ≡ None) (λ e.
            close_bar (port_at self.old.state port) ≡ Some e) }
        ensures unchanged { OnErr result (self.new ≡ self.old) }
        ensures closed { OnOk result (self.new ≡ in_state self.old (with_port self.old.state port None)) }
        ensures provided { IfOk result (λ v. IfSome (port_at self.old.state port) (λ p.
            v.items ≡ map (receive_at self.old.host port) p.provided)) }
    {
        self.ports.close(port)
    }

    /// Takes a buffer to receive into. A refusal hands token and buffer back and changes nothing: NotOpen, BadSize
    /// where the size is not from 4 to 16 or the priority is above 1, BufferShort where the buffer has fewer bytes
    /// than its size has room for.
    pub fn provide(
        &mut self,
        port: u8,
        t: RecvToken,
        b: Reg,
        size: u8,
        prio: u8,
    ) -> Result<(), (RecvToken, Reg, NodeProvide)>
        requires port { port < 8 }
        requires own { t ≡ token_at self.old.host port t.number }
        requires minted { ForSome (port_at self.old.state port) (λ p. t.number < p.recvs) }
        requires free { ForSome (port_at self.old.state port) (λ p. place_of_recv p t.number ≡ None) }
        ensures refused { MatchResult result (λ _. provide_bar (port_at self.old.state port) b size prio ≡ None) (λ e.
            provide_bar (port_at self.old.state port) b size prio ≡ Some e.2) }
        ensures handed_back { IfErr result (λ e. (e.0 ≡ t) × (e.1 ≡ b)) }
        ensures unchanged { OnErr result (self.new ≡ self.old) }
        ensures provided { OnOk result (self.new ≡ in_state self.old
            (with_port self.old.state port (option_map (λ s.
            provided_with s (record { token = t.number; size = size; prio = prio; filling = None; buffer = b }))
            (port_at self.old.state port)))) }
    {
        self.ports.provide(port, t, b, size, prio)
    }

    /// Why a message isn't accepted whatever its port, its token and its buffer are: TooLong, NoRoute, Spent, in this
    /// order. So a client can ask before it makes the buffer.
    pub fn refuse_ask(&self, a: SendAsk) -> Option<NodeSend>
        requires { a.dest < self.now.hosts }
        ensures { result ≡ ask_bar self.now a }
    {
        refuse_ask(&self.lanes, self.has_route(a.dest), a)
    }

    /// Accepts a message of a port for a peer. The port has token and buffer until the message is acknowledged. A
    /// refusal hands both back and changes nothing: NotOpen, TooLong, BufferShort, NoRoute, Spent, in this order; only
    /// then may memory run out.
    pub fn send(
        &mut self,
        alloc: Global,
        port: u8,
        t: SendToken,
        b: Reg,
        a: SendAsk,
    ) -> Result<(), (SendToken, Reg, NodeSend)>
        requires port { port < 8 }
        requires dest { a.dest < self.old.hosts }
        requires own { t ≡ token_at self.old.host port t.number }
        requires minted { ForSome (port_at self.old.state port) (λ p. t.number < p.sends) }
        requires free { ForSome (port_at self.old.state port) (λ p. place_of_send p t.number ≡ None) }
        requires dport { a.dport < 8 }
        requires prio { a.prio < 2 }
        ensures refused { MatchResult result (λ _. send_bar self.old port a b ≡ None) (λ e.
            (send_bar self.old port a b ≡ Some e.2) ⊎ ((send_bar self.old port a b ≡ None)
            × (e.2 ≡ NodeSend.NoMemory))) }
        ensures handed_back { IfErr result (λ e. (e.0 ≡ t) × (e.1 ≡ b)) }
        ensures unchanged { OnErr result (self.new ≡ self.old) }
        ensures sent { OnOk result (self.new ≡ in_state self.old (accepted self.old.state port t.number a b)) }
    {
        let route = self.has_route(a.dest);
        self.lanes.in_order();
        send(
            alloc,
            &mut self.lanes,
            &mut self.ports,
            route,
            port,
            t,
            b,
            a,
        )
    }

    /// Hands out the event that was put in first. None exactly where no event waits, NotOpen exactly where the port
    /// isn't open.
    pub fn poll(&mut self, port: u8) -> Result<Option<PortEvent>, NotOpen>
        requires { port < 8 }
        ensures open { MatchResult result (λ _. is_some (port_at self.old.state port) ≡ true) (λ _.
            port_at self.old.state port ≡ None) }
        ensures first { IfOk result (λ e. IfSome (port_at self.old.state port) (λ p.
            e ≡ option_map (event_at self.old.host port) (next_event p))) }
        ensures rest { self.new ≡ in_state self.old (with_port self.old.state port
            (option_map (λ s. polled s) (port_at self.old.state port))) }
    {
        self.ports.poll(port)
    }

    /// The place of a send token or of a receive token of a port, by its number. None where the client has it, or the
    /// port isn't open.
    pub fn token_place(&self, port: u8, send: bool, number: u16) -> Option<TokenPlace>
        requires { port < 8 }
        ensures { result ≡ place_at (port_at self.now.state port) send number }
    {
        self.ports.place(port, send, number)
    }
}

//! For each lane, the accepted messages that weren't received.

ghost use Rattle.std.specs.Prelude.{◌≡◌, ◌↔◌, ℕ, List, [], ◌∷◌, ◌++◌, true, false, OnOk, OnErr};
ghost use Rattle.port_ledgers.specs.Told.{Told, AreInOrder};
ghost use Rattle.port_ledgers.specs.Told.Told.{Accepted, Received};
ghost use Rattle.port_ledgers.specs.Waiting.{AreWaiting, IsPut, waiting, is_next, after_message};

use crate::queue::Queue;
use crate::{Lane, SentMessage};
use std::alloc::{AllocError, Global};
use std::collections::HashMap;
use std::marker::Model;

/// The accepted messages that weren't received, for each lane.
#[derive(Drop)]
pub struct MessageLedger {
    alloc: Global,
    queues: HashMap<Lane, Queue>,
}

impl Model for MessageLedger {
    ghost use Rattle.std.specs.Prelude.{List};
    ghost use Rattle.port_ledgers.specs.declared.lane.Lane.{Lane};
    ghost use Rattle.port_ledgers.specs.declared.lane.SentMessage.{SentMessage};

    ghost Value = { List (Lane × List SentMessage) };

    ghost view = { λ l. l.queues.entries };
}

impl MessageLedger {
    /// Before any line.
    #[tactic(auto, using(crate::proofs::Order::none_waiting))]
    pub fn new(alloc: Global) -> MessageLedger
        ensures { AreWaiting [] result }
    {
        MessageLedger {
            alloc,
            queues: HashMap::new(alloc),
        }
    }

    /// A line tells that a send was accepted: its message waits to be received on its lane. On an error nothing is
    /// told.
    #[tactic(auto, using(crate::proofs::Order::sent_waits, crate::proofs::Order::still_waiting))]
    pub fn send(&mut self, lane: Lane, m: SentMessage) -> Result<(), AllocError>
        ensures told { OnOk result ((past : List Told) (token : ℕ) → AreWaiting past self.old
            → AreWaiting (Accepted lane m token ∷ past) self.new) }
        ensures err { OnErr result ((past : List Told) → AreWaiting past self.old → AreWaiting past self.new) }
    {
        self.join(lane, m)
    }

    /// A line tells that a message was received, from this port and with these bytes. True exactly where the messages
    /// received on each lane, this one too, are a prefix of those sent; else nothing is told.
    #[tactic(auto, using(crate::proofs::Order::received_waits, crate::proofs::Order::not_received, crate::proofs::Order::next_is_right))]
    pub fn receive(&mut self, lane: Lane, sport: u8, body: &[u8]) -> bool
        ensures right { (past : List Told) (token : ℕ) → AreWaiting past self.old
            → (result ≡ true) ↔ AreInOrder (Received lane sport body.now token ∷ past) }
        ensures told { result ≡ true → (past : List Told) (token : ℕ) → AreWaiting past self.old
            → AreWaiting (Received lane sport body.now token ∷ past) self.new }
        ensures refused { result ≡ false → (past : List Told) → AreWaiting past self.old → AreWaiting past self.new }
    {
        self.take(lane, sport, body)
    }

    // A message joins those that wait on its lane.
    fn join(&mut self, lane: Lane, m: SentMessage) -> Result<(), AllocError>
        ensures ok { OnOk result (IsPut self.old self.new lane (waiting self.old lane ++ m ∷ [])) }
        ensures err { OnErr result (IsPut self.old self.new lane (waiting self.old lane)) }
    {
        match self.queues.get_mut(&lane) {
            Some(queue) => queue.push(m),
            None => self.begin(lane, m),
        }
    }

    // A message is the first of its lane.
    fn begin(&mut self, lane: Lane, m: SentMessage) -> Result<(), AllocError>
        ensures ok { OnOk result (IsPut self.old self.new lane (m ∷ [])) }
        ensures err { OnErr result (self.new ≡ self.old) }
    {
        let mut queue = Queue::new(self.alloc);
        queue.push(m)?;
        match self.queues.insert(lane, queue) {
            Ok(_) => Ok(()),
            Err(_) => Err(AllocError),
        }
    }

    // The first that waits on a lane is taken out, where it is this message.
    fn take(&mut self, lane: Lane, sport: u8, body: &[u8]) -> bool
        ensures next { result ≡ is_next sport body.now (waiting self.old lane) }
        ensures rest { IsPut self.old self.new lane (after_message sport body.now (waiting self.old lane)) }
    {
        match self.queues.get_mut(&lane) {
            Some(queue) => queue.receive(sport, body),
            None => false,
        }
    }
}

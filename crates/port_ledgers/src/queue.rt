//! The messages that wait on one lane.

ghost use Rattle.std.specs.Prelude.{◌≡◌, [], ◌∷◌, ◌++◌, drop, OnOk, OnErr};
ghost use Rattle.port_ledgers.specs.Waiting.{is_next, after_message};

use crate::SentMessage;
use crate::bytes::counts_up;
use std::alloc::{AllocError, Global};
use std::collections::VecDeque;
use std::marker::Model;

/// Messages, sent first first.
#[derive(Drop)]
pub(crate) struct Queue {
    waiting: VecDeque<SentMessage>,
}

impl Model for Queue {
    ghost use Rattle.std.specs.Prelude.{List};
    ghost use Rattle.port_ledgers.specs.declared.lane.SentMessage.{SentMessage};

    ghost Value = { List SentMessage };

    ghost view = { λ q. q.waiting.items };
}

impl Queue {
    pub(crate) fn new(alloc: Global) -> Queue
        ensures { result ≡ [] }
    {
        Queue {
            waiting: VecDeque::new(alloc),
        }
    }

    /// A message joins those that wait.
    pub(crate) fn push(&mut self, m: SentMessage) -> Result<(), AllocError>
        ensures ok { OnOk result (self.new ≡ self.old ++ m ∷ []) }
        ensures err { OnErr result (self.new ≡ self.old) }
    {
        match self.waiting.push_back(m) {
            Ok(()) => Ok(()),
            Err(_) => Err(AllocError),
        }
    }

    /// Receives the first that waits, where it is from this port and has these bytes. Else false, and all wait still.
    pub(crate) fn receive(&mut self, sport: u8, body: &[u8]) -> bool
        ensures next { result ≡ is_next sport body.now self.old }
        ensures rest { self.new ≡ after_message sport body.now self.old }
    {
        if self.is_next(sport, body) {
            self.take();
            true
        } else {
            false
        }
    }

    // Whether the first that waits is from this port and has these bytes.
    fn is_next(&self, sport: u8, body: &[u8]) -> bool
        ensures { result ≡ is_next sport body.now self.now }
    {
        match self.waiting.front() {
            Some(m) => m.sport == sport && m.len as usize == body.len() && counts_up(m.seed, body),
            None => false,
        }
    }

    // The first that waits doesn't any more.
    fn take(&mut self)
        ensures { self.new ≡ drop 1 self.old }
    {
        let _received = self.waiting.pop_front();
    }
}

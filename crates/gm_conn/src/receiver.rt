//! The receiving half.

ghost use Rattle.std.specs.Prelude.{◌≡◌, true};
ghost use Rattle.gm_defs.specs.Body.{is_head, is_last};
ghost use Rattle.gm_defs.specs.Connection.{connection, took, taken_after};
ghost use Rattle.gm_conn.specs.Halves.{ack_of};

use gm_defs::{Ack, ConnectionKey, FrameHead, Took};
use std::marker::Model;

/// The receiving half of a connection: it takes fragments in the order of their numbers.
#[derive(Debug, Drop)]
pub struct Receiver {
    key: ConnectionKey,
    taken: u32,
}

impl Model for Receiver {
    ghost use Rattle.gm_conn.specs.Halves.{Incoming};

    ghost Value = { Incoming };

    ghost view = { λ r. record { key = r.key; taken = r.taken } };
}

impl Receiver {
    /// The half at `dst` for what `src` sends of a priority. It has taken nothing.
    pub fn new(src: u16, dst: u16, prio: u8) -> Receiver
        ensures { result ≡ record { key = connection src dst prio; taken = 0 } }
    {
        Receiver {
            key: ConnectionKey { src, dst, prio },
            taken: 0,
        }
    }

    /// What a frame of this connection comes to; `fits` says whether a token takes its fragment. NotNext where its
    /// number isn't the next, else NoToken where none takes it, else Whole or Part, as the fragment is the last of its
    /// message or not. Nothing is taken yet.
    pub fn would_take(&self, h: &FrameHead, fits: bool) -> Took
        ensures { result ≡ took self.now.taken h.now.seq fits (is_last h.now.total h.now.offset) }
    {
        if h.seq != self.taken {
            Took::NotNext
        } else if !fits {
            Took::NoToken
        } else if h.is_last() {
            Took::Whole
        } else {
            Took::Part
        }
    }

    /// A frame of this connection arrives, and is taken where it would be.
    pub fn on_frame(&mut self, h: &FrameHead, fits: bool) -> Took
        requires { is_head h.now ≡ true }
        ensures took { result ≡ took self.old.taken h.now.seq fits (is_last h.now.total h.now.offset) }
        ensures taken { self.new ≡ record self.old { taken = taken_after self.old.taken result } }
    {
        let took = self.would_take(h, fits);
        match took {
            Took::Whole | Took::Part => self.taken += 1,
            Took::NoToken | Took::NotNext => {}
        }
        took
    }

    /// The acknowledgement of what was taken.
    pub fn ack(&self) -> Ack
        ensures { result ≡ ack_of self.now }
    {
        Ack {
            src: self.key.dst,
            dst: self.key.src,
            prio: self.key.prio,
            next: self.taken,
        }
    }
}

//! The sending half.

ghost use Rattle.std.specs.Prelude.{◌≡◌, ◌<◌, ◌≤◌, ◌+◌, [], true, false, nat_lt};
ghost use Rattle.std.specs.Prelude.{slice_get, IsSome, IfSome, IsOk, None, OnOk, OnErr};
ghost use Rattle.std.specs.Option.{option_copied};
ghost use Rattle.net_defs.specs.Refusal.{Refuses};
ghost use Rattle.gm_defs.specs.declared.frame.GmBody.TheVariants.{Frame};
ghost use Rattle.gm_defs.specs.Body.{is_head, is_offset, message_limit};
ghost use Rattle.gm_defs.specs.Fragment.{piece_count};
ghost use Rattle.gm_defs.specs.Connection.{connection, key_of, starting, due, sent_one, is_taken, expired};
ghost use Rattle.gm_defs.specs.Connection.{unacknowledged, is_spent};
ghost use Rattle.gm_conn.specs.Halves.{IsOutgoing, outgoing, is_desc, due_frame, finished, heard_ack, oldest_finished};
ghost use Rattle.gm_conn.specs.Halves.{without_finished, offer_refusal, with_offer, head_for, first, place_below};
ghost use Rattle.gm_conn.specs.Halves.{first_below, whole_at};

use crate::ring::DescRing;
use crate::{Desc, Due, OfferRefusal};
use gm_defs::{ConnectionKey, FrameHead, PIECE, piece_count};
use std::alloc::Global;
use std::marker::Model;

// The most fragments that are sent and not acknowledged.
const WINDOW: u32 = 8;

/// The sending half of a connection. The descriptors of its messages wait in a ring.
///
/// `reserve` makes the room for a message and `offer` takes none.
#[derive(Drop)]
pub struct Sender {
    key: ConnectionKey,
    base: u32,
    cursor: u32,
    top: u32,
    next: u32,
    // The number of the first fragment of the oldest message that waits.
    first: u32,
    waiting: DescRing,
}

impl Model for Sender {
    ghost use Rattle.gm_conn.specs.Halves.{Outgoing, IsOutgoingFrom, outgoing};

    ghost Value = { Outgoing };

    ghost view = { λ s. outgoing s.key (record {
      base = s.base;
      cursor = s.cursor;
      top = s.top;
      next = s.next;
    }) s.waiting.items s.waiting.spare };

    ghost invariant = { λ s.
        IsOutgoingFrom s.first (outgoing s.key (record {
          base = s.base;
          cursor = s.cursor;
          top = s.top;
          next = s.next;
        }) s.waiting.items s.waiting.spare) };
}

impl Sender {
    /// The half at `src` for what goes to `dst` of a priority. Its first number is 0. It takes no memory.
    pub fn new(alloc: Global, src: u16, dst: u16, prio: u8) -> Sender
        ensures { result ≡ outgoing (connection src dst prio) (starting 0) [] result.spare }
    {
        Sender::starting(alloc, src, dst, prio, 0)
    }

    /// The same with another first number.
    pub fn starting(alloc: Global, src: u16, dst: u16, prio: u8, first: u32) -> Sender
        ensures { result ≡ outgoing (connection src dst prio) (starting first) [] result.spare }
    {
        Sender {
            key: ConnectionKey { src, dst, prio },
            base: first,
            cursor: first,
            top: first,
            next: first,
            first,
            waiting: DescRing::new(alloc),
        }
    }

    /// Whether a message of so many bytes needs a number above 4,294,967,294.
    pub fn is_spent(&self, total: u32) -> bool
        requires { total ≤ message_limit }
        ensures { result ≡ is_spent self.now.numbers (piece_count total) }
    {
        u32::MAX - self.next < piece_count(total)
    }

    /// Makes room for a message of so many bytes. `Spent` exactly where it needs a number above 4,294,967,294; where
    /// there is room for one more it takes no memory.
    pub fn reserve(&mut self, total: u32) -> Result<(), OfferRefusal>
        requires { total ≤ message_limit }
        ensures refused { Refuses (offer_refusal self.old total) OfferRefusal.NoMemory result }
        ensures ok { OnOk result (0 < self.new.spare) }
        ensures in_room { 0 < self.old.spare → offer_refusal self.old total ≡ None → IsOk result }
        ensures stays { self.new ≡ record self.old { spare = self.new.spare } }
        ensures err { OnErr result (self.new ≡ self.old) }
    {
        if self.is_spent(total) {
            return Err(OfferRefusal::Spent);
        }
        if self.waiting.make_room() {
            Ok(())
        } else {
            Err(OfferRefusal::NoMemory)
        }
    }

    /// Puts a message of the connection's priority behind those that were offered, and gives the number of its first
    /// fragment.
    pub fn offer(&mut self, d: Desc) -> u32
        requires room { 0 < self.old.spare }
        requires numbers { is_spent self.old.numbers (piece_count d.total) ≡ false }
        requires by_rules { is_desc self.old.key d ≡ true }
        ensures first { result ≡ self.old.numbers.next }
        ensures new { self.new ≡ with_offer self.old d }
    {
        let first = self.next;
        self.waiting.push_back_reserved(d);
        self.next += piece_count(d.total);
        first
    }

    /// The fragment that is to be sent next, if one is.
    pub fn due(&self) -> Option<Due>
        ensures exact { result ≡ due_frame self.now }
        ensures by_rules { IfSome result (λ d. is_head d.head ≡ true) }
        ensures connection { IfSome result (λ d. key_of (Frame d.head) ≡ self.now.key) }
    {
        if self.cursor < self.next && self.cursor - self.base < WINDOW {
            let (place, first) = self.below(self.cursor);
            match self.waiting.get(place) {
                Some(d) => Some(Due {
                    head: head_for(self.key, self.cursor, d, (self.cursor - first) * PIECE),
                    ticket: d.ticket,
                }),
                None => unreachable!(),
            }
        } else {
            None
        }
    }

    /// The due fragment was sent.
    pub fn mark_sent(&mut self)
        requires { IsSome (due self.old.numbers) }
        ensures { self.new ≡ record self.old { numbers = sent_one self.old.numbers } }
    {
        self.cursor += 1;
        self.top = self.top.max(self.cursor);
    }

    /// An acknowledgement arrives. Gives the number of messages that it finished.
    pub fn on_ack(&mut self, next: u32) -> u32
        ensures new { self.new ≡ heard_ack self.old next }
        ensures messages { result + finished self.old ≡ finished self.new }
    {
        let messages = self.finished_by(next);
        if self.takes(next) {
            self.base = next;
            self.cursor = self.cursor.max(next);
        }
        messages
    }

    /// How many messages an acknowledgement of this number finishes: those whose last fragment it is the first to
    /// acknowledge.
    pub fn finished_by(&self, next: u32) -> u32
        ensures { result + finished self.now ≡ finished (heard_ack self.now next) }
    {
        if self.takes(next) {
            (self.below(next).0 - self.below(self.base).0) as u32
        } else {
            0
        }
    }

    /// Whether an acknowledgement of this number is taken: it says more than is known, and no more than was sent.
    pub fn takes(&self, next: u32) -> bool
        ensures { result ≡ is_taken self.now.numbers next }
    {
        self.base < next && next <= self.top
    }

    /// The descriptor of a place among those that wait, the oldest at 0.
    pub fn descriptor(&self, place: usize) -> Option<&Desc>
        ensures { option_copied result ≡ slice_get self.now.waiting place }
    {
        self.waiting.get(place)
    }

    /// The descriptor of the oldest message that is finished and not taken out yet.
    pub fn take_finished(&mut self) -> Option<Desc>
        ensures oldest { result ≡ oldest_finished self.old }
        ensures new { self.new ≡ without_finished self.old }
    {
        match self.whole_at(0, self.base - self.first) {
            Some(pieces) => {
                self.first += pieces;
                self.waiting.pop_front()
            }
            None => None,
        }
    }

    /// What isn't acknowledged is sent again. False exactly where nothing is unacknowledged.
    pub fn expire(&mut self) -> bool
        ensures answer { result ≡ nat_lt 0 (unacknowledged self.old.numbers) }
        ensures new { self.new ≡ record self.old { numbers = expired self.old.numbers } }
    {
        self.cursor = self.base;
        self.base < self.next
    }

    /// Its connection.
    pub fn key(&self) -> ConnectionKey
        ensures { result ≡ self.now.key }
    {
        self.key
    }

    /// How many fragments aren't acknowledged, sent or not.
    pub fn unacked(&self) -> u32
        ensures { result ≡ unacknowledged self.now.numbers }
    {
        self.next - self.base
    }

    /// It keeps its numbers in order, and each message that isn't acknowledged waits.
    pub fn in_order(&self)
        ensures { IsOutgoing self.now }
    {
        let _ = &self.base;
    }

    // How many of the messages that wait lie wholly below a number, and the number of the first fragment after them.
    fn below(&self, n: u32) -> (usize, u32)
        requires { first self.now ≤ n }
        ensures place { result.0 ≡ place_below self.now n }
        ensures first { result.1 ≡ first_below self.now n }
        ensures within { result.1 ≤ n }
    {
        let mut place = 0;
        let mut first = self.first;
        while let Some(pieces) = self.whole_at(place, n - first) {
            first += pieces;
            place += 1;
        }
        (place, first)
    }

    // How many pieces the message of a place has, where it has no more than so many.
    fn whole_at(&self, place: usize, most: u32) -> Option<u32>
        ensures { result ≡ whole_at self.now place most }
    {
        match self.waiting.get(place) {
            Some(d) => {
                let pieces = piece_count(d.total);
                if pieces <= most { Some(pieces) } else { None }
            }
            None => None,
        }
    }
}

// The head of a message's fragment at an offset.
fn head_for(key: ConnectionKey, seq: u32, d: &Desc, offset: u32) -> FrameHead
    requires desc { is_desc key d.now ≡ true }
    requires offset { is_offset d.now.total offset ≡ true }
    ensures { result ≡ head_for key seq d.now offset }
{
    FrameHead {
        src: key.src,
        dst: key.dst,
        sport: d.sport,
        dport: d.dport,
        prio: d.prio,
        seq,
        total: d.total,
        offset,
        len: PIECE.min(d.total - offset) as u16,
    }
}

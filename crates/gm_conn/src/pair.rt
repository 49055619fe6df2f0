//! Both halves of one connection over a medium that loses, repeats and delays.

ghost use Rattle.std.specs.Prelude.{◌≡◌, true, slice_get, Some, IfOk, OnErr};
ghost use Rattle.gm_defs.specs.Body.{is_prio};
ghost use Rattle.gm_defs.specs.Connection.{connection, due};
ghost use Rattle.gm_conn.specs.declared.event.PairEvent.TheVariants.{Offer};
ghost use Rattle.gm_conn.specs.Pair.{desc_of, new_pair, offer, emit, emit_ack, deliver, expire, step, IsFair};
ghost use Rattle.gm_conn.specs.Pair.{IsInOrder};

use crate::{Desc, OfferRefusal, PairEvent, PairMsg, Receiver, Sender};
use gm_defs::{GmBody, Took};
use std::alloc::{AllocError, Global};
use std::marker::Model;

/// A sender, its receiver, and all that was ever emitted. A packet that is never delivered is lost, and one may be
/// delivered again.
#[derive(Drop)]
pub struct Pair {
    sender: Sender,
    receiver: Receiver,
    packets: Vec<GmBody>,
    offered: Vec<PairMsg>,
    taken: Vec<PairMsg>,
}

impl Model for Pair {
    ghost use Rattle.gm_conn.specs.Pair.{PairState, pair_of, IsPair};

    ghost Value = { PairState };

    ghost view = { λ p. pair_of p.sender p.receiver p.packets.items p.offered.items p.taken.items };

    ghost invariant = { λ p. IsPair p.sender p.receiver p.packets.items p.offered.items p.taken.items };
}

impl Pair {
    /// The pair for what goes from `src` to `dst` of a priority. It takes no memory.
    pub fn new(alloc: Global, src: u16, dst: u16, prio: u8) -> Pair
        requires { is_prio prio ≡ true }
        ensures { result ≡ new_pair (connection src dst prio) }
    {
        Pair {
            sender: Sender::new(alloc, src, dst, prio),
            receiver: Receiver::new(src, dst, prio),
            packets: Vec::new(alloc),
            offered: Vec::new(alloc),
            taken: Vec::new(alloc),
        }
    }

    /// One event. False exactly where the number is spent, nothing is due, there is no such packet, or nothing is
    /// unacknowledged.
    pub fn step(&mut self, e: PairEvent) -> Result<bool, AllocError>
        requires { IsFair e }
        ensures ok { IfOk result (λ answer. step self.old e ≡ (answer, self.new)) }
        ensures err { OnErr result (self.new ≡ self.old) }
    {
        match e {
            PairEvent::Offer { total } => self.offer(PairMsg { total }),
            PairEvent::Emit => self.emit(),
            PairEvent::EmitAck => self.emit_ack(),
            PairEvent::Deliver { packet, fits } => self.deliver(packet as usize, fits),
            PairEvent::Expire => Ok(self.expire()),
        }
    }

    /// The messages that were offered, in order.
    pub fn offered(&self) -> &[PairMsg]
        ensures list { result.now ≡ self.now.offered }
        ensures in_order { IsInOrder self.now }
    {
        &self.offered
    }

    /// The messages that were taken whole, in order: a prefix of those offered.
    pub fn taken(&self) -> &[PairMsg]
        ensures list { result.now ≡ self.now.taken }
        ensures in_order { IsInOrder self.now }
    {
        &self.taken
    }

    // A message is offered.
    fn offer(&mut self, m: PairMsg) -> Result<bool, AllocError>
        requires { IsFair (Offer m.total) }
        ensures ok { IfOk result (λ answer. offer self.old m ≡ (answer, self.new)) }
        ensures err { OnErr result (self.new ≡ self.old) }
    {
        let desc = self.desc_of(m);
        self.offered.reserve(1)?;
        match self.sender.reserve(m.total) {
            Ok(()) => {
                let _first = self.sender.offer(desc);
                self.offered.push_reserved(m);
                Ok(true)
            }
            Err(OfferRefusal::Spent) => Ok(false),
            Err(OfferRefusal::NoMemory) => Err(AllocError),
        }
    }

    // A message between ports 0, with ticket 0.
    fn desc_of(&self, m: PairMsg) -> Desc
        ensures { result ≡ desc_of self.now.key m }
    {
        Desc {
            ticket: 0,
            sport: 0,
            dport: 0,
            prio: self.sender.key().prio,
            total: m.total,
        }
    }

    // The due frame is emitted.
    fn emit(&mut self) -> Result<bool, AllocError>
        ensures ok { IfOk result (λ answer. emit self.old (due self.old.numbers) ≡ (answer, self.new)) }
        ensures err { OnErr result (self.new ≡ self.old) }
    {
        self.packets.reserve(1)?;
        match self.sender.due() {
            Some(due) => {
                self.sender.mark_sent();
                self.packets.push_reserved(GmBody::Frame(due.head));
                Ok(true)
            }
            None => Ok(false),
        }
    }

    // The acknowledgement of what was taken is emitted.
    fn emit_ack(&mut self) -> Result<bool, AllocError>
        ensures ok { IfOk result (λ answer. (answer ≡ true) × (self.new ≡ emit_ack self.old)) }
        ensures err { OnErr result (self.new ≡ self.old) }
    {
        self.packets.reserve(1)?;
        self.packets.push_reserved(GmBody::Ack(self.receiver.ack()));
        Ok(true)
    }

    // A packet arrives.
    fn deliver(&mut self, packet: usize, fits: bool) -> Result<bool, AllocError>
        ensures ok { IfOk result (λ answer. deliver self.old fits (slice_get self.old.packets packet)
            ≡ (answer, self.new)) }
        ensures err { OnErr result (self.new ≡ self.old) }
    {
        match packet_at(&self.packets, packet) {
            Some(GmBody::Frame(h)) => {
                self.taken.reserve(1)?;
                match self.receiver.on_frame(&h, fits) {
                    Took::Whole => self.taken.push_reserved(PairMsg { total: h.total }),
                    Took::Part => {}
                    Took::NoToken => {}
                    Took::NotNext => {}
                }
                Ok(true)
            }
            Some(GmBody::Ack(a)) => {
                let _messages = self.sender.on_ack(a.next);
                Ok(true)
            }
            None => Ok(false),
        }
    }

    // The sender's time runs out.
    fn expire(&mut self) -> bool
        ensures { expire self.old ≡ (result, self.new) }
    {
        self.sender.expire()
    }
}

// The packet of a place.
fn packet_at(packets: &[GmBody], place: usize) -> Option<GmBody>
    ensures { result ≡ slice_get packets.now place }
{
    packets.get(place).copied()
}

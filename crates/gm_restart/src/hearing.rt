//! What an end makes of a packet that reaches it.

ghost use Rattle.std.specs.Prelude.{◌≡◌, ◌&&◌, nat_eq, length, true, false, IfOk, OnOk, OnErr};
ghost use Rattle.gm_defs.specs.Body.{is_head, is_last, decode};
ghost use Rattle.gm_defs.specs.Connection.{took};
ghost use Rattle.gm_defs.specs.Token.{can_take};
ghost use Rattle.duo_defs.specs.Hearing.{learnt, heard_hello, took_effect, port_after, heard_frame, heard_ack};
ghost use Rattle.duo_defs.specs.Hearing.{heard_body, heard_data};
ghost use Rattle.duo_defs.specs.Theorem.{IsWaiting};
ghost use Rattle.gm_restart.specs.End.{in_state};
ghost use Rattle.gm_restart.specs.Calls.{is_quiet, is_taken};

use crate::end::End;
use crate::giving_back::{Manner, give_back};
use duo_defs::DuoEffect;
use gm_defs::{FrameHead, GmBody, Took};
use gm_frame::{decode, part_of};
use gm_tokens::NoMemory;
use std::alloc::Global;

impl End {
    /// Hears its peer's incarnation, and which one of its own the peer knows. A peer that restarted begins a new
    /// period: each send that isn't finished comes back, unsure.
    pub(crate) fn hear_hello(&mut self, inc: u32, knows: u32) -> Result<DuoEffect, NoMemory>
        requires { IsWaiting self.old.state.port self.old.state.present.lane }
        ensures ok { IfOk result (λ effect. heard_hello inc knows self.old.state ≡ (effect, self.new.state)) }
        ensures host { self.new.host ≡ self.old.host }
        ensures wanting { OnErr result (is_quiet (heard_hello inc knows self.old.state).0 ≡ false) }
        ensures err { OnErr result (self.new ≡ self.old) }
    {
        if inc < self.known {
            return Ok(DuoEffect::Stale);
        }
        self.learn(inc)?;
        self.owes_hello = self.owes_hello || knows != self.inc;
        Ok(DuoEffect::Hello)
    }

    // Knows an incarnation of its peer from now on, where that is greater than the one that it knew.
    fn learn(&mut self, inc: u32) -> Result<(), NoMemory>
        requires { IsWaiting self.old.state.port self.old.state.present.lane }
        ensures ok { OnOk result (self.new ≡ in_state self.old (learnt inc self.old.state)) }
        ensures err { OnErr result (self.new ≡ self.old) }
    {
        if inc <= self.known {
            return Ok(());
        }
        if self.known == 0 {
            self.known = inc;
            return Ok(());
        }
        self.renew(inc)
    }

    /// Hears a frame or an acknowledgement, from one incarnation to another.
    pub(crate) fn hear_data(
        &mut self,
        alloc: Global,
        src_inc: u32,
        dst_inc: u32,
        body: &[u8],
    ) -> Result<DuoEffect, NoMemory>
        requires { IsWaiting self.old.state.port self.old.state.present.lane }
        ensures ok { IfOk result (λ effect.
            heard_data src_inc dst_inc body.now self.old.state ≡ (effect, self.new.state)) }
        ensures host { self.new.host ≡ self.old.host }
        ensures wanting { OnErr result (is_quiet (heard_data src_inc dst_inc body.now self.old.state).0 ≡ false) }
        ensures err { OnErr result (self.new ≡ self.old) }
    {
        if self.is_for(src_inc, dst_inc) {
            self.hear_body(alloc, body)
        } else {
            Ok(DuoEffect::Stale)
        }
    }

    // Whether data is for it: from the incarnation that it knows, to its own.
    fn is_for(&self, src_inc: u32, dst_inc: u32) -> bool
        ensures { result ≡ (nat_eq src_inc self.now.state.present.known
            && nat_eq dst_inc self.now.state.present.inc) }
    {
        src_inc == self.known && dst_inc == self.inc
    }

    // Hears a body that is for it, from the incarnation that it knows.
    fn hear_body(&mut self, alloc: Global, body: &[u8]) -> Result<DuoEffect, NoMemory>
        requires { IsWaiting self.old.state.port self.old.state.present.lane }
        ensures ok { IfOk result (λ effect.
            heard_body body.now self.old.state (decode body.now) ≡ (effect, self.new.state)) }
        ensures host { self.new.host ≡ self.old.host }
        ensures wanting { OnErr result (is_quiet (heard_body body.now self.old.state (decode body.now)).0 ≡ false) }
        ensures err { OnErr result (self.new ≡ self.old) }
    {
        match decode(body) {
            Ok(GmBody::Frame(h)) => self.hear_frame(alloc, &h, part_of(body)),
            Ok(GmBody::Ack(a)) => {
                self.hear_ack(a.next)?;
                Ok(DuoEffect::Ack)
            }
            Err(_) => Ok(DuoEffect::Stale),
        }
    }

    // Hears a frame: its message is taken where its number is the next, and a provided token takes it.
    fn hear_frame(
        &mut self,
        alloc: Global,
        h: &FrameHead,
        part: &[u8],
    ) -> Result<DuoEffect, NoMemory>
        requires head { is_head h.now ≡ true }
        requires part { length part.now ≡ h.now.len }
        ensures ok { IfOk result (λ effect. heard_frame h.now part.now self.old.state
            (took self.old.state.present.lane.taken h.now.seq (can_take self.old.state.port h.now)
            (is_last h.now.total h.now.offset)) ≡ (effect, self.new.state)) }
        ensures host { self.new.host ≡ self.old.host }
        ensures err { OnErr result (self.new ≡ self.old) }
    {
        let fits = self.held.can_take(h);
        let took = self.lane.on_frame(alloc, h, part, fits)?;
        self.deliver(took, h, part);
        Ok(effect_of(took))
    }

    // A frame goes to the port where it was taken.
    fn deliver(&mut self, took: Took, h: &FrameHead, part: &[u8])
        requires fits { is_taken took ≡ true → can_take self.old.state.port h.now ≡ true }
        requires head { is_head h.now ≡ true }
        requires part { length part.now ≡ h.now.len }
        ensures { self.new ≡ in_state self.old
            (record self.old.state { port = port_after self.old.state.port h.now part.now took }) }
    {
        match took {
            Took::Whole | Took::Part => self.held.deliver(h, part),
            Took::NotNext | Took::NoToken => {}
        }
    }

    // Hears an acknowledgement: the sends that it finishes come back, acknowledged.
    fn hear_ack(&mut self, next: u32) -> Result<(), NoMemory>
        requires { IsWaiting self.old.state.port self.old.state.present.lane }
        ensures ok { OnOk result (self.new ≡ in_state self.old (heard_ack next self.old.state)) }
        ensures err { OnErr result (self.new ≡ self.old) }
    {
        let count = self.lane.finished_by(next);
        self.returned.reserve(count)?;
        let manner = Manner {
            known: self.known,
            first: self.lane.sent().len() - self.lane.unacked() as usize,
            unsure: false,
        };
        give_back(
            &mut self.held,
            &mut self.returned,
            &self.lane,
            count,
            manner,
        );
        self.lane.on_ack(next);
        Ok(())
    }
}

// What is heard of a frame.
fn effect_of(took: Took) -> DuoEffect
    ensures { result ≡ took_effect took }
{
    match took {
        Took::Whole | Took::Part => DuoEffect::Message,
        Took::NotNext => DuoEffect::NotNext,
        Took::NoToken => DuoEffect::NoToken,
    }
}

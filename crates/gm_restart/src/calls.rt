//! What the client of an end calls, and its timer.

ghost use Rattle.std.specs.Prelude.{◌≡◌, ◌≤◌, drop, slice_get, false, Some, None, IfOk, OnOk, OnErr};
ghost use Rattle.gm_defs.specs.Body.{piece};
ghost use Rattle.gm_defs.specs.Fragment.{piece_count};
ghost use Rattle.gm_defs.specs.Connection.{is_spent};
ghost use Rattle.gm_defs.specs.Port.{next_event};
ghost use Rattle.world_defs.specs.Client.{client_bytes};
ghost use Rattle.duo_defs.specs.Step.{accepted, sending, providing, expiring, told, polling};
ghost use Rattle.gm_restart.specs.End.{in_state};
ghost use Rattle.gm_restart.specs.Calls.{send_refusal, is_quiet, IsOfEvent, told_of};

use crate::end::{End, other};
use duo_defs::{DuoCause, DuoEffect};
use gm_conn::{Envelope, OfferRefusal};
use gm_defs::PIECE;
use gm_tokens::NoMemory;
use port_client::{SendAsk, client_buffer, zero_buffer};
use reg_mem::release;
use std::alloc::{AllocError, Global};
use world_defs::Said;

impl End {
    /// The client sends a message of so many bytes, the first of which is the seed, with the send token that it has
    /// held longest: refused where it holds none, then for its length, and then where no number is left.
    pub(crate) fn send(&mut self, alloc: Global, len: u32, seed: u8) -> Result<DuoEffect, NoMemory>
        ensures ok { IfOk result (λ effect.
            sending self.old.state len seed self.old.state.client.sends ≡ (effect, self.new.state)) }
        ensures host { self.new.host ≡ self.old.host }
        ensures wanting { OnErr result
            (is_quiet (sending self.old.state len seed self.old.state.client.sends).0 ≡ false) }
        ensures err { OnErr result (self.new ≡ self.old) }
    {
        match self.held.first_send() {
            Some(token) => self.send_with(alloc, token, len, seed),
            None => Ok(DuoEffect::Refused(DuoCause::NoToken)),
        }
    }

    // The client sends with this token.
    fn send_with(
        &mut self,
        alloc: Global,
        token: u16,
        len: u32,
        seed: u8,
    ) -> Result<DuoEffect, NoMemory>
        requires first { slice_get self.old.state.client.sends 0 ≡ Some token }
        ensures ok { IfOk result (λ effect.
            sending self.old.state len seed self.old.state.client.sends ≡ (effect, self.new.state)) }
        ensures host { self.new.host ≡ self.old.host }
        ensures wanting { OnErr result
            (is_quiet (sending self.old.state len seed self.old.state.client.sends).0 ≡ false) }
        ensures err { OnErr result (self.new ≡ self.old) }
    {
        match self.refuse_send(len) {
            Some(cause) => Ok(DuoEffect::Refused(cause)),
            None => {
                self.accept(alloc, token, len, seed)?;
                Ok(DuoEffect::Token(token))
            }
        }
    }

    // Why a message of so many bytes is refused, where the client holds a token for it.
    fn refuse_send(&self, len: u32) -> Option<DuoCause>
        ensures { result ≡ send_refusal self.now.state len }
    {
        if len > PIECE {
            Some(DuoCause::TooLong)
        } else if self.lane.is_spent(len) {
            Some(DuoCause::Spent)
        } else {
            None
        }
    }

    // A message that isn't refused is accepted, with the send token that the client has held longest.
    fn accept(&mut self, alloc: Global, token: u16, len: u32, seed: u8) -> Result<(), NoMemory>
        requires first { slice_get self.old.state.client.sends 0 ≡ Some token }
        requires right { send_refusal self.old.state len ≡ None }
        ensures ok { OnOk result (self.new ≡ in_state self.old
            (accepted self.old.state token (drop 1 self.old.state.client.sends) (client_bytes len seed))) }
        ensures err { OnErr result (self.new ≡ self.old) }
    {
        let mut buffer = client_buffer(alloc, len, seed)?;
        let envelope = Envelope {
            sport: 0,
            dport: 0,
            prio: 0,
        };
        match self.lane.accept(alloc, envelope, &mut buffer, len, token) {
            Ok(()) => {
                let ask = SendAsk {
                    dest: other(self.host),
                    dport: 0,
                    prio: 0,
                    len,
                };
                let _token = self.held.send(buffer, ask);
                Ok(())
            }
            Err(_) => {
                release(buffer);
                Err(AllocError)
            }
        }
    }

    /// The client provides a buffer of a size with the receive token that it has held longest: refused where it holds
    /// none, and then for the size.
    pub(crate) fn provide(&mut self, alloc: Global, size: u8) -> Result<DuoEffect, NoMemory>
        ensures ok { IfOk result (λ effect.
            providing self.old.state size self.old.state.client.recvs ≡ (effect, self.new.state)) }
        ensures host { self.new.host ≡ self.old.host }
        ensures wanting { OnErr result
            (is_quiet (providing self.old.state size self.old.state.client.recvs).0 ≡ false) }
        ensures err { OnErr result (self.new ≡ self.old) }
    {
        if !self.held.has_recv() {
            return Ok(DuoEffect::Refused(DuoCause::NoToken));
        }
        if size < 4 || size > 16 {
            return Ok(DuoEffect::Refused(DuoCause::BadSize));
        }
        let buffer = zero_buffer(alloc, size)?;
        Ok(DuoEffect::Token(self.held.provide(buffer, size, 0)))
    }

    /// The client takes the first event of its port's queue. Takes no memory.
    pub(crate) fn poll(&mut self) -> DuoEffect
        ensures effect { polling self.old.state (next_event self.old.state.port) ≡ (result, self.new.state) }
        ensures host { self.new.host ≡ self.old.host }
    {
        match self.held.poll() {
            Some(said) => self.told_of(said),
            None => DuoEffect::Nothing,
        }
    }

    // What the client is told of an event, once its port handed it out.
    fn told_of(&mut self, said: Said) -> DuoEffect
        requires { IsOfEvent said }
        ensures effect { told_of self.old.state said ≡ (result, self.new.state) }
        ensures host { self.new.host ≡ self.old.host }
    {
        match said {
            Said::Sent(token) => self.told_of_send(token),
            Said::Received { token, body, .. } => DuoEffect::Received { token, body },
            _ => unreachable!(),
        }
    }

    // What the client is told of a send that came back.
    fn told_of_send(&mut self, token: u16) -> DuoEffect
        ensures effect { result ≡ told token (slice_get self.old.state.returned 0) }
        ensures after { self.new ≡ in_state self.old
            (record self.old.state { returned = drop 1 self.old.state.returned }) }
    {
        match self.returned.pop_front() {
            Some(back) => {
                if back.unsure {
                    DuoEffect::Unsure(token)
                } else {
                    DuoEffect::Sent(token)
                }
            }
            None => DuoEffect::Sent(token),
        }
    }

    /// Its timer runs out: what isn't acknowledged is due again. Takes no memory.
    pub(crate) fn expire(&mut self) -> DuoEffect
        ensures effect { expiring self.old.state ≡ (result, self.new.state) }
        ensures host { self.new.host ≡ self.old.host }
    {
        if self.lane.unacked() == 0 {
            return DuoEffect::Idle;
        }
        self.lane.expire();
        DuoEffect::Expired
    }
}

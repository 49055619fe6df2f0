//! Both ends and the medium, one event at a time.

ghost use Rattle.std.specs.Prelude.{◌≡◌, ◌<◌, List, is_some, option_map, slice_get, true, false, Some, IfOk, OnErr};
ghost use Rattle.duo_defs.specs.declared.packet.Packet.{Packet as PacketOf};
ghost use Rattle.duo_defs.specs.declared.event.DuoEvent.TheVariants.{Send, Provide, Emit, Deliver, Expire, Poll};
ghost use Rattle.duo_defs.specs.declared.event.DuoEvent.TheVariants.{Restart};
ghost use Rattle.duo_defs.specs.Duo.{new_duo};
ghost use Rattle.duo_defs.specs.Emitting.{emission};
ghost use Rattle.duo_defs.specs.Step.{IsFair, step, arrive};
ghost use Rattle.gm_restart.specs.Calls.{is_quiet, takes_memory};
ghost use Rattle.duo_defs.specs.Theorem.{IsWaiting};
ghost use Rattle.gm_restart.specs.Whole.{BothAreWaiting, duo_of, emitted};

use crate::end::End;
use duo_defs::{DuoEffect, DuoEvent, Packet};
use gm_tokens::NoMemory;
use std::alloc::Global;
use std::marker::Model;

/// Two ends, and all that they ever emitted. It must be spent, by [`Ends::end`].
pub(crate) struct Ends {
    pub(crate) first: End,
    pub(crate) second: End,
    medium: Vec<Packet>,
}

impl Model for Ends {
    ghost use Rattle.duo_defs.specs.Duo.{DuoState};
    ghost use Rattle.gm_restart.specs.Whole.{duo_of, AreBoth};

    ghost Value = { DuoState };

    ghost view = { λ d. duo_of d.first d.second d.medium.items };

    ghost invariant = { λ d. AreBoth d.first d.second };
}

impl Ends {
    /// Both ends at an incarnation, and nothing emitted.
    pub(crate) fn new(alloc: Global, inc: u32) -> Result<Ends, NoMemory>
        ensures { IfOk result (λ d. d ≡ new_duo inc) }
    {
        let first = End::new(alloc, 0, inc)?;
        match End::new(alloc, 1, inc) {
            Ok(second) => Ok(Ends {
                first,
                second,
                medium: Vec::new(alloc),
            }),
            Err(error) => {
                first.end(alloc);
                Err(error)
            }
        }
    }

    /// Spends it: each token is retired once. Takes no memory.
    pub(crate) fn end(self, alloc: Global) {
        let Ends {
            first,
            second,
            medium: _,
        } = self;
        first.end(alloc);
        second.end(alloc);
    }

    /// One event.
    pub(crate) fn step(&mut self, alloc: Global, e: DuoEvent) -> Result<DuoEffect, NoMemory>
        requires fair { IsFair e }
        requires waiting { BothAreWaiting self.old }
        ensures ok { IfOk result (λ effect. step self.old e ≡ (effect, self.new)) }
        ensures wanting { OnErr result (is_quiet (step self.old e).0 ≡ false) }
        ensures memory { OnErr result (takes_memory e ≡ true) }
        ensures err { OnErr result (self.new ≡ self.old) }
    {
        match e {
            DuoEvent::Send { x, len, seed } => self.send(alloc, x, len, seed),
            DuoEvent::Provide { x, size } => self.provide(alloc, x, size),
            DuoEvent::Emit(x) => self.emit(alloc, x),
            DuoEvent::Deliver(k) => self.deliver(alloc, k),
            DuoEvent::Expire(x) => Ok(self.expire(x)),
            DuoEvent::Poll(x) => Ok(self.poll(x)),
            DuoEvent::Restart(x) => self.restart(alloc, x),
        }
    }

    // The client of an end sends.
    fn send(&mut self, alloc: Global, x: u8, len: u32, seed: u8) -> Result<DuoEffect, NoMemory>
        requires { x < 2 }
        ensures ok { IfOk result (λ effect. step self.old (Send x len seed) ≡ (effect, self.new)) }
        ensures wanting { OnErr result (is_quiet (step self.old (Send x len seed)).0 ≡ false) }
        ensures err { OnErr result (self.new ≡ self.old) }
    {
        if x == 0 {
            self.first.send(alloc, len, seed)
        } else {
            self.second.send(alloc, len, seed)
        }
    }

    // The client of an end provides a buffer.
    fn provide(&mut self, alloc: Global, x: u8, size: u8) -> Result<DuoEffect, NoMemory>
        requires { x < 2 }
        ensures ok { IfOk result (λ effect. step self.old (Provide x size) ≡ (effect, self.new)) }
        ensures wanting { OnErr result (is_quiet (step self.old (Provide x size)).0 ≡ false) }
        ensures err { OnErr result (self.new ≡ self.old) }
    {
        if x == 0 {
            self.first.provide(alloc, size)
        } else {
            self.second.provide(alloc, size)
        }
    }

    // An end emits, where it has something to emit.
    fn emit(&mut self, alloc: Global, x: u8) -> Result<DuoEffect, NoMemory>
        requires side { x < 2 }
        requires waiting { BothAreWaiting self.old }
        ensures ok { IfOk result (λ effect. step self.old (Emit x) ≡ (effect, self.new)) }
        ensures wanting { OnErr result (is_quiet (step self.old (Emit x)).0 ≡ false) }
        ensures err { OnErr result (self.new ≡ self.old) }
    {
        if x == 0 {
            emit(alloc, &mut self.first, &mut self.medium)
        } else {
            emit(alloc, &mut self.second, &mut self.medium)
        }
    }

    // The packet of a place reaches the other end, where there is one.
    fn deliver(&mut self, alloc: Global, k: u64) -> Result<DuoEffect, NoMemory>
        requires { BothAreWaiting self.old }
        ensures ok { IfOk result (λ effect. step self.old (Deliver k) ≡ (effect, self.new)) }
        ensures wanting { OnErr result (is_quiet (step self.old (Deliver k)).0 ≡ false) }
        ensures err { OnErr result (self.new ≡ self.old) }
    {
        match packet_at(&self.medium, k) {
            Some(packet) => arrive(alloc, &mut self.first, &mut self.second, packet),
            None => Ok(DuoEffect::Idle),
        }
    }

    // The timer of an end runs out.
    fn expire(&mut self, x: u8) -> DuoEffect
        requires { x < 2 }
        ensures { step self.old (Expire x) ≡ (result, self.new) }
    {
        if x == 0 {
            self.first.expire()
        } else {
            self.second.expire()
        }
    }

    // The client of an end takes an event.
    fn poll(&mut self, x: u8) -> DuoEffect
        requires { x < 2 }
        ensures { step self.old (Poll x) ≡ (result, self.new) }
    {
        if x == 0 {
            self.first.poll()
        } else {
            self.second.poll()
        }
    }

    // An end restarts.
    fn restart(&mut self, alloc: Global, x: u8) -> Result<DuoEffect, NoMemory>
        requires { x < 2 }
        ensures ok { IfOk result (λ effect. step self.old (Restart x) ≡ (effect, self.new)) }
        ensures wanting { OnErr result (is_quiet (step self.old (Restart x)).0 ≡ false) }
        ensures err { OnErr result (self.new ≡ self.old) }
    {
        if x == 0 {
            self.first.restart(alloc)
        } else {
            self.second.restart(alloc)
        }
    }
}

// An end emits into the medium, where it has something to emit.
fn emit(alloc: Global, end: &mut End, medium: &mut Vec<Packet>) -> Result<DuoEffect, NoMemory>
    requires { IsWaiting end.old.state.port end.old.state.present.lane }
    ensures ok { IfOk result (λ effect.
        emitted medium.old.items end.old.state (emission end.old.host end.old.state)
        ≡ (effect, (medium.new.items, end.new.state))) }
    ensures host { end.new.host ≡ end.old.host }
    ensures wanting { OnErr result (is_some (emission end.old.host end.old.state) ≡ true) }
    ensures end { OnErr result (end.new ≡ end.old) }
    ensures medium { OnErr result (medium.new.items ≡ medium.old.items) }
{
    if !end.emits() {
        return Ok(DuoEffect::Idle);
    }
    medium.reserve(1)?;
    let place = medium.len() as u64;
    medium.push_reserved(end.emit(alloc)?);
    Ok(DuoEffect::Emitted(place))
}

// The packet of a place in the medium.
fn packet_at(medium: &[Packet], k: u64) -> Option<&Packet>
    ensures { option_map (λ p. p.now) result ≡ slice_get medium.now k }
{
    if k < medium.len() as u64 {
        Some(&medium[k as usize])
    } else {
        None
    }
}

// A packet reaches the other end.
fn arrive(
    alloc: Global,
    first: &mut End,
    second: &mut End,
    packet: &Packet,
) -> Result<DuoEffect, NoMemory>
    requires first { IsWaiting first.old.state.port first.old.state.present.lane }
    requires second { IsWaiting second.old.state.port second.old.state.present.lane }
    ensures ok { IfOk result (λ effect. (ps : List PacketOf) → arrive (duo_of first.old second.old ps) (Some packet.now)
        ≡ (effect, duo_of first.new second.new ps)) }
    ensures hosts { (first.new.host ≡ first.old.host) × (second.new.host ≡ second.old.host) }
    ensures wanting { OnErr result ((ps : List PacketOf)
        → is_quiet (arrive (duo_of first.old second.old ps) (Some packet.now)).0 ≡ false) }
    ensures first_stays { OnErr result (first.new ≡ first.old) }
    ensures second_stays { OnErr result (second.new ≡ second.old) }
{
    match packet {
        Packet::Hello { src, inc, knows } => {
            if *src == 0 {
                second.hear_hello(*inc, *knows)
            } else {
                first.hear_hello(*inc, *knows)
            }
        }
        Packet::Data {
            src,
            src_inc,
            dst_inc,
            body,
        } => {
            if *src == 0 {
                second.hear_data(alloc, *src_inc, *dst_inc, body.bytes())
            } else {
                first.hear_data(alloc, *src_inc, *dst_inc, body.bytes())
            }
        }
    }
}

//! The calls of clients: the event of each, and what it is answered.

ghost use Rattle.std.specs.Prelude.{◌≡◌, true, false, IfOk, OnErr};
ghost use Rattle.world_defs.specs.Later.{IsLater};
ghost use Rattle.world_defs.specs.World.{host_count};
ghost use Rattle.world_defs.specs.Step.{step};
ghost use Rattle.world_defs.specs.declared.event.Event.TheVariants.{Begin, Close, Provide, Send, Poll};
ghost use Rattle.world_defs.specs.declared.effect.Effect.TheVariants.{Said as SaidSo};
ghost use Rattle.message_laws.specs.Untouched.{HandsBackBy};
ghost use Rattle.client_host.specs.Calls.{IsClientCall};
ghost use Rattle.client_host.specs.Held.{IsFromHosts};
ghost use Rattle.fab_world.specs.Events.{IsGiven, takes_memory};
ghost use Rattle.fab_world.specs.Held.{is_refusal};

use crate::world::World;
use client_host::Said;
use std::alloc::{AllocError, Global};
use world_defs::{Effect, Event};

/// A port of a host. Each of its calls is an event, of which nothing comes before [`World::call`] or [`World::step`]
/// gets it.
#[derive(Clone, Copy)]
pub struct PortAt {
    /// The host's address.
    pub host: u16,
    /// The port's number.
    pub port: u8,
}

impl PortAt {
    /// The port of that number of the host at that address.
    pub const fn new(host: u16, port: u8) -> PortAt
        ensures host { result.host ≡ host }
        ensures port { result.port ≡ port }
    {
        PortAt { host, port }
    }

    /// The client opens it with so many tokens for sends and for receives.
    pub fn begin(self, sends: u16, recvs: u16) -> Event
        ensures { result ≡ Begin self.host self.port sends recvs }
    {
        Event::Begin {
            host: self.host,
            port: self.port,
            sends,
            recvs,
        }
    }

    /// The client closes it.
    pub fn close(self) -> Event
        ensures { result ≡ Close self.host self.port }
    {
        Event::Close {
            host: self.host,
            port: self.port,
        }
    }

    /// The client provides a buffer for messages of a size and a priority.
    pub fn provide(self, size: u8, prio: u8) -> Event
        ensures { result ≡ Provide self.host self.port size prio }
    {
        Event::Provide {
            host: self.host,
            port: self.port,
            size,
            prio,
        }
    }

    /// The client sends a message of so many bytes to a port. They count up from the seed.
    pub fn send(self, to: PortAt, prio: u8, len: u32, seed: u8) -> Event
        ensures { result ≡ Send self.host self.port to.host to.port prio len seed }
    {
        Event::Send {
            host: self.host,
            port: self.port,
            dest: to.host,
            dport: to.port,
            prio,
            len,
            seed,
        }
    }

    /// The client takes the port's next event.
    pub fn poll(self) -> Event
        ensures { result ≡ Poll self.host self.port }
    {
        Event::Poll {
            host: self.host,
            port: self.port,
        }
    }
}

impl World {
    /// A client's call, and what it is answered: [`World::step`] of its event, of which nothing else comes than an
    /// answer. Running out of memory changes nothing, and hides no refusal; a close and a poll take none.
    pub fn call(&mut self, alloc: Global, e: Event) -> Result<Said, AllocError>
        requires client { IsClientCall e }
        requires given { IsGiven self.old e }
        ensures ok { IfOk result (λ said. step self.old e ≡ (SaidSo said, self.new)) }
        ensures sender { IfOk result (IsFromHosts (host_count self.old)) }
        ensures back { IfOk result (λ said. HandsBackBy self.old e (SaidSo said)) }
        ensures wanting { OnErr result (is_refusal (step self.old e).0 ≡ false) }
        ensures memory { OnErr result (takes_memory e ≡ true) }
        ensures err { OnErr result (self.new ≡ self.old) }
        ensures cables { IsLater self.old.links.cables self.new.links.cables }
        ensures hosts { host_count self.new ≡ host_count self.old }
        ensures adopted { self.new.adopted ≡ self.old.adopted }
    {
        let effect = self.step(alloc, e)?;
        match effect {
            Effect::Said(said) => Ok(said),
            _ => unreachable!(),
        }
    }
}

//! One step of a channel.

ghost use Rattle.std.specs.Prelude.{◌≡◌, ◌≢◌, ◌<◌, ◌≤◌, ℕ, length, true, None, option_map, IfSome};
ghost use Rattle.world_defs.specs.Links.{is_idle};
ghost use Rattle.world_defs.specs.Advance.{advance};
ghost use Rattle.link_model.specs.FullSlots.{IsLone};
ghost use Rattle.link_model.specs.Carried.{IsCarried};
ghost use Rattle.world_defs.specs.Node.{NodeState};
ghost use Rattle.world_defs.specs.World.{WorldState, last_count, with_node};
ghost use Rattle.world_defs.specs.Step.{advanced, arrived, cause_at_switch, cause_at_host};
ghost use Rattle.faulty_links.specs.Held.{with_part, reaching, IsHeardAt, IsToldOf, CountsDrop, IsHopOf, IsRunOf};
ghost use Rattle.faulty_links.specs.Held.{one_injected};

use super::FaultyLinks;
use link_model::{Carried, Hop, Run};
use myri_packet::Packet;
use net_defs::Vertex;
use packet_defs::HostDrop;
use world_defs::{Arrival, Cause, Effect, Moved, Why};

impl FaultyLinks {
    /// The host that a channel's packet reaches by its next advance, and the packet, which stays where it is. None
    /// where the channel ends at a switch, or holds no packet. In a world an advance of it is that the host hears the
    /// packet, which is gone then as if it were lost.
    pub fn reaching(&self, c: u16) -> Option<(u16, &Packet)>
        requires { c < length self.now.links.channels }
        ensures reaching { option_map (λ t. (t.0, t.1.now)) result ≡ reaching self.now.links c }
        ensures host { IfSome result (λ t. t.0 < length self.now.links.cables.hosts) }
        ensures heard { IfSome result (λ t. IsHeardAt self.now c t.0 t.1.now) }
    {
        let Vertex::Host(host) = self.links.ends(c).1.v else {
            return None;
        };
        match self.links.peek(c) {
            Some(packet) => Some((host, packet)),
            None => None,
        }
    }

    /// A channel's packet that reaches no host goes on through a switch, which may drop it and then counts it as
    /// dropped. Blocked where the next channel holds another packet; idle where this one holds none.
    #[inline(always)]
    pub fn advance(&mut self, c: u16) -> Effect
        requires there { c < length self.old.links.channels }
        requires inside { reaching self.old.links c ≡ None }
        ensures { (w : WorldState) → advanced (with_part w self.old) c ≡ (result, with_part w self.new) }
    {
        match self.links.advance(c) {
            Moved::To(next) => Effect::Moved(next),
            Moved::AtHost(_, _) => unreachable!(),
            Moved::Dropped(why) => {
                self.counts.drop_one();
                Effect::Dropped(cause_at_switch(why))
            }
            Moved::Blocked(next) => Effect::Blocked(next),
            Moved::Empty => Effect::Idle,
        }
    }

    /// An advance into the next channel, or one that is blocked. It is left untried, and to [`FaultyLinks::reaching`]
    /// and [`FaultyLinks::advance`], exactly where the advance is anything else.
    pub fn hop(&mut self, c: u16) -> Hop
        requires { c < length self.old.links.channels }
        ensures { IsHopOf self.old c result self.new }
    {
        self.links.hop(c)
    }

    /// The only packet in the channels goes on from channel to channel, until its next advance leads into none: how
    /// far. It is in this channel.
    pub fn run(&mut self, c: u16) -> Run
        requires { IsLone self.old.links.channels c }
        ensures run { IsRunOf self.old c result.hops result.at self.new }
        ensures lone { IsLone self.new.links.channels result.at }
        ensures last { (next : ℕ) → (advance self.new.links result.at).0 ≢ Moved.To next }
        ensures few { result.hops ≤ 1107 }
    {
        self.links.run(c)
    }

    /// A host heard the packet of a channel, which leaves that, and counts as dropped where the host dropped it: what
    /// is told of it.
    pub fn heard(&mut self, c: u16, host: u16, arrival: Arrival) -> Effect
        requires { c < length self.old.links.channels }
        ensures { IsToldOf self.old c host arrival result self.new }
    {
        let _ = self.lose(c);
        self.tell(host, arrival)
    }

    /// How a packet would go that was put into a channel of idle links: to a host, or to a switch that drops it.
    #[inline(always)]
    pub fn carry(&self, c: u16, packet: &mut Packet) -> Carried
        requires there { c < length self.now.links.channels }
        requires idle { is_idle self.now.links ≡ true }
        ensures { IsCarried self.now.links c packet.old result.hops result.end packet.new }
    {
        self.links.carry(c, packet)
    }

    /// A host heard a packet that was injected and carried to it at once, which counts: what is told of it.
    #[inline(always)]
    pub fn heard_alone(&mut self, host: u16, arrival: Arrival) -> Effect
        requires { self.old.injected < last_count }
        ensures { (w : WorldState) (n : NodeState) → arrived (with_part w (one_injected self.old)) host (arrival, n)
            ≡ (result, with_part (with_node w host n) self.new) }
    {
        self.count_injection();
        self.tell(host, arrival)
    }

    /// A switch dropped a packet that was injected and carried to it at once, which counts: what is told of it.
    #[inline(always)]
    pub fn dropped_alone(&mut self, why: Why) -> Effect
        requires { self.old.injected < last_count }
        ensures effect { result ≡ Effect.Dropped (cause_at_switch why) }
        ensures after { CountsDrop (one_injected self.old) self.new }
    {
        self.count_injection();
        self.drop_for(cause_at_switch(why))
    }

    // A packet was injected, and is in no channel any more.
    fn count_injection(&mut self)
        requires { self.old.injected < last_count }
        ensures { self.new ≡ one_injected self.old }
    {
        self.counts.inject();
    }

    // What is told of a packet that a host heard, and that is in no channel any more: one that it dropped is counted.
    fn tell(&mut self, host: u16, arrival: Arrival) -> Effect
        ensures { (w : WorldState) (n : NodeState) → arrived (with_part w self.old) host (arrival, n)
            ≡ (result, with_part (with_node w host n) self.new) }
    {
        match arrival {
            Arrival::Heard(heard) => Effect::Arrived(host, heard),
            Arrival::Dropped(why) => self.drop_for(cause_at_host(why)),
            Arrival::NotMine => self.drop_for(Cause::NotMine),
        }
    }

    // A host dropped a packet: it is counted.
    fn drop_for(&mut self, cause: Cause) -> Effect
        ensures effect { result ≡ Effect.Dropped cause }
        ensures after { CountsDrop self.old self.new }
    {
        self.counts.drop_one();
        Effect::Dropped(cause)
    }
}

// Why a switch dropped a packet.
const fn cause_at_switch(why: Why) -> Cause
    ensures { result ≡ cause_at_switch why }
{
    match why {
        Why::OutOfRange => Cause::OutOfRange,
        Why::NotRoute => Cause::NotRoute,
        Why::NoCable => Cause::NoCable,
        Why::NewCable => Cause::NewCable,
    }
}

// Why a host dropped a packet.
const fn cause_at_host(why: HostDrop) -> Cause
    ensures { result ≡ cause_at_host why }
{
    match why {
        HostDrop::BadCrc => Cause::BadCrc,
        HostDrop::RouteLeft => Cause::RouteLeft,
        HostDrop::UnknownType => Cause::UnknownType,
        HostDrop::Malformed => Cause::Malformed,
    }
}

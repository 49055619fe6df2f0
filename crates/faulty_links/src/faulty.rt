//! Links with a plan of faults and counts: reading them.

ghost use Rattle.std.specs.Prelude.{◌≡◌, ◌≢◌, ◌<◌, ◌≤◌, ◌^◌, ℕ, true, length, Some, None, IfOk, IfSome, IfNone};
ghost use Rattle.net_defs.specs.Network.{IsFabric, has_port};
ghost use Rattle.world_defs.specs.History.{fabric_now, IsHistory};
ghost use Rattle.world_defs.specs.Crossed.{leaving, life_channels, life_tail, life_head};
ghost use Rattle.world_defs.specs.Hops.{total_hops};
ghost use Rattle.world_defs.specs.Links.{packet_in, is_idle};
ghost use Rattle.world_defs.specs.Fault.{next_limbo};
ghost use Rattle.link_model.specs.FullSlots.{full_count, IsLone};
ghost use Rattle.link_model.specs.Full.{next_full, IsNextFull};
ghost use Rattle.world_defs.specs.World.{new_world};
ghost use Rattle.faulty_links.specs.Held.{of_world, can_inject, is_clear};

mod advance;
mod cables;
mod faults;
mod injection;

use crate::counts::Counts;
use crate::plan::Plan;
use crate::reach::hops_bound;
use link_model::Links;
use net_defs::End;
use port_graph::Fabric;
use std::alloc::{AllocError, Global};
use std::marker::Model;

/// The links of a fabric, the planned faults, and the counts of injections, drops, strikes and harms. A channel in an
/// argument exists.
#[derive(Drop)]
pub struct FaultyLinks {
    links: Links,
    plan: Plan,
    counts: Counts,
}

impl Model for FaultyLinks {
    ghost use Rattle.faulty_links.specs.Held.{LinksAndPlan, part_of};

    ghost Value = { LinksAndPlan };

    ghost view = { λ l. part_of l.links l.plan l.counts };
}

impl FaultyLinks {
    /// The links of a fabric without packets, with no fault planned and all counts 0.
    pub fn new(alloc: Global, f: &Fabric) -> Result<FaultyLinks, AllocError>
        ensures { IfOk result (λ l. l ≡ of_world (new_world f.now)) }
    {
        Ok(FaultyLinks {
            links: Links::new(alloc, f)?,
            plan: Plan::new(alloc),
            counts: Counts::new(),
        })
    }

    /// The number of channels.
    pub fn channels(&self) -> u16
        ensures count { result ≡ length self.now.links.channels }
        ensures same { result ≡ life_channels self.now.links.cables }
        ensures few { result ≤ 8192 }
    {
        self.links.channels()
    }

    /// The channel that leaves by an end; none where no cable ends there.
    pub fn channel_from(&self, e: End) -> Option<u16>
        ensures channel { result ≡ leaving self.now.links.cables e }
        ensures fabric { IsFabric (fabric_now self.now.links.cables) }
        ensures history { IsHistory self.now.links.cables }
        ensures there { IfSome result (λ c. c < length self.now.links.channels) }
    {
        self.links.channel_from(e)
    }

    /// The ends that a channel leaves and enters.
    pub fn ends(&self, c: u16) -> (End, End)
        requires { c < length self.now.links.channels }
        ensures tail { life_tail self.now.links.cables c ≡ Some result.0 }
        ensures head { life_head self.now.links.cables c ≡ Some result.1 }
        ensures there { has_port (fabric_now self.now.links.cables) result.1 ≡ true }
    {
        self.links.ends(c)
    }

    /// Whether no channel holds a packet. It looks at a count, and at no channel.
    pub fn idle(&self) -> bool
        ensures { result ≡ is_idle self.now.links }
    {
        self.links.idle()
    }

    /// The least channel that isn't below a number and holds a packet.
    pub fn next_full(&self, from: u16) -> Option<u16>
        ensures next { result ≡ next_full self.now.links from }
        ensures found { IfSome result (IsNextFull self.now.links from) }
        ensures none { IfNone result ((k : ℕ) → from ≤ k → packet_in self.now.links k ≡ None) }
    {
        self.links.next_full(from)
    }

    /// The channel that holds a packet where no other does. None where several do, or none does. It looks at a count
    /// first.
    pub fn lone(&self) -> Option<u16>
        ensures lone { IfSome result (IsLone self.now.links.channels) }
        ensures none { IfNone result (full_count self.now.links.channels ≢ 1) }
    {
        self.links.lone()
    }

    /// The least serial in limbo that isn't below a number.
    pub fn next_limbo(&self, from: u64) -> Option<u64>
        ensures { result ≡ next_limbo self.now.links from }
    {
        self.links.next_limbo(from)
    }

    /// Whether a channel is empty, and an injection is left for it.
    pub fn can_inject(&self, c: u16) -> bool
        requires { c < length self.now.links.channels }
        ensures { result ≡ can_inject self.now c }
    {
        self.links.peek(c).is_none() && self.counts.injected() < u64::MAX
    }

    /// Whether the next packet to be injected would be alone and unharmed: no channel holds a packet, an injection is
    /// left, and no fault is planned for it.
    #[inline(always)]
    pub fn is_clear(&self) -> bool
        ensures { result ≡ is_clear self.now }
    {
        if !self.links.idle() || self.counts.injected() == u64::MAX {
            return false;
        }
        self.plan.at(self.counts.injected() + 1).is_none()
    }

    /// How many injections there were.
    pub fn injected(&self) -> u64
        ensures { result ≡ self.now.injected }
    {
        self.counts.injected()
    }

    /// How many packets were dropped; the count stays at its last value.
    pub fn dropped(&self) -> u64
        ensures { result ≡ self.now.dropped }
    {
        self.counts.dropped()
    }

    /// How many planned faults struck.
    pub fn struck(&self) -> u64
        ensures count { result ≡ self.now.struck }
        ensures most { result ≤ self.now.injected }
    {
        self.counts.struck()
    }

    /// How many of those lost, held or flipped their packet.
    pub fn harmed(&self) -> u64
        ensures count { result ≡ self.now.harmed }
        ensures most { result ≤ self.now.struck }
    {
        self.counts.harmed()
    }

    /// How many faults are planned: as many as fit into memory.
    pub fn planned(&self) -> u64
        ensures count { result ≡ length self.now.plan }
        ensures few { result < 2 ^ 63 }
    {
        self.plan.count()
    }

    /// At least the hops that all packets in channels have left: so many advances at most change something before
    /// none does.
    pub fn hops_bound(&self) -> u64
        ensures enough { total_hops self.now.links ≤ result }
        ensures few { result ≤ 9068544 }
    {
        hops_bound(&self.links)
    }

    /// Spends them. Who holds them beside much else ends them so: a proof goes through all their parts wherever they
    /// end.
    pub fn end(self) {}
}

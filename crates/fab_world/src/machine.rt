//! The links, the hosts and the adopted routes of a world.

ghost use Rattle.std.specs.Prelude.{◌≡◌, ◌≤◌, ℕ, IfOk, IfSome, IfNone};
ghost use Rattle.net_defs.specs.Network.{IsFabric};
ghost use Rattle.world_defs.specs.World.{host_count, new_world, node_at};
ghost use Rattle.fab_world.specs.Events.{IsHostOf};
ghost use Rattle.fab_world.specs.Resting.{IsNextAwake, IsNextBusy, IsSilentIn, RestsIn};

mod adopting;
mod cables;
mod calls;
mod dispatch;
mod epochs;
mod injection;
mod probing;
mod staging;
mod steps;

use crate::host_marks::HostMarks;
use crate::hosts::is_silent;
use adopted_routes::AdoptedRoutes;
use client_host::{ClientHost, end_hosts, new_hosts};
use faulty_links::FaultyLinks;
use port_graph::Fabric;
pub use probing::Probed;
use std::alloc::{AllocError, Global};
use std::marker::Model;

/// Links and hosts, as many as the fabric has, and the routes that are adopted. A host that isn't marked as awake is at
/// rest, one that isn't marked as busy is silent, and neither is looked at. It must be spent, by [`Machine::end`].
pub(crate) struct Machine {
    pub(crate) links: FaultyLinks,
    pub(crate) hosts: Vec<ClientHost>,
    pub(crate) marks: HostMarks,
    pub(crate) adopted: AdoptedRoutes,
    // Where the bytes of a message's packet are put together. No contract sees them.
    pub(crate) bytes: Vec<u8>,
}

impl Model for Machine {
    ghost use Rattle.world_defs.specs.World.{WorldState};
    ghost use Rattle.fab_world.specs.Held.{world_of};
    ghost use Rattle.fab_world.specs.Resting.{AreWatched};

    ghost Value = { WorldState };

    ghost view = { λ m. world_of m.links m.hosts.items m.adopted };

    ghost invariant = { λ m. AreWatched m.hosts.items m.marks };
}

impl Machine {
    /// The links and hosts of a fabric, before anything happened.
    pub(crate) fn new(alloc: Global, f: &Fabric) -> Result<Machine, AllocError>
        ensures new { IfOk result (λ m. m ≡ new_world f.now) }
        ensures fabric { IsFabric f.now }
    {
        let count = f.hosts();
        let marks = HostMarks::new(alloc, count)?;
        let links = FaultyLinks::new(alloc, f)?;
        match new_hosts(alloc, count) {
            Ok(hosts) => Ok(Machine {
                links,
                hosts,
                marks,
                adopted: AdoptedRoutes::new(),
                bytes: Vec::new(alloc),
            }),
            Err(wanting) => {
                links.end();
                Err(wanting)
            }
        }
    }

    /// The number of hosts.
    pub(crate) fn count(&self) -> u16
        ensures { result ≡ host_count self.now }
    {
        self.hosts.len() as u16
    }

    /// The host at an address.
    pub(crate) fn at(&self, host: u16) -> &ClientHost
        requires { IsHostOf self.now host }
        ensures state { result.now.state ≡ node_at self.now host }
        ensures host { result.now.host ≡ host }
        ensures hosts { result.now.hosts ≡ host_count self.now }
    {
        &self.hosts[usize::from(host)]
    }

    /// The least host that isn't below an address and may not be at rest. Those before it are.
    pub(crate) fn next_awake(&self, from: u16) -> Option<u16>
        ensures found { IfSome result (IsNextAwake self.now from) }
        ensures none { IfNone result ((h : ℕ) → from ≤ h → IsHostOf self.now h → RestsIn self.now h) }
    {
        match self.marks.awake.next(usize::from(from)) {
            Some(host) if host < self.hosts.len() => Some(host as u16),
            _ => None,
        }
    }

    /// The least host that isn't below an address and may not be silent. Those before it are.
    pub(crate) fn next_busy(&self, from: u16) -> Option<u16>
        ensures found { IfSome result (IsNextBusy self.now from) }
        ensures none { IfNone result ((h : ℕ) → from ≤ h → IsHostOf self.now h → IsSilentIn self.now h) }
    {
        match self.marks.busy.next(usize::from(from)) {
            Some(host) if host < self.hosts.len() => Some(host as u16),
            _ => None,
        }
    }

    /// A host that is silent isn't busy any more, and one that is at rest isn't awake, until it changes.
    pub(crate) fn rest(&mut self, host: u16)
        requires { IsHostOf self.old host }
        ensures { self.new ≡ self.old }
    {
        if is_silent(self.at(host)) {
            self.rest_silent(host);
        }
    }

    // The same of a host that is silent.
    fn rest_silent(&mut self, host: u16)
        requires there { IsHostOf self.old host }
        requires silent { IsSilentIn self.old host }
        ensures { self.new ≡ self.old }
    {
        let waits = self.at(host).next_unacked(0).is_some();
        self.marks.busy.unmark(usize::from(host));
        if !waits {
            self.marks.awake.unmark(usize::from(host));
        }
    }

    /// Spends links and hosts, with whatever their ports hold.
    pub(crate) fn end(self) {
        let Machine {
            links,
            hosts,
            marks: _,
            adopted: _,
            bytes: _,
        } = self;
        links.end();
        end_hosts(hosts);
    }
}

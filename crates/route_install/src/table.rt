//! A host's table.

ghost use Rattle.std.specs.Prelude.{◌≡◌, option_copied, IfOk, OnOk, OnErr};
ghost use Rattle.world_defs.specs.Table.{new_table, whole_table, active_epoch, table_route, is_epoch, applied, joined};
ghost use Rattle.world_defs.specs.Table.{is_old, revoked_table, has_revoked};
ghost use Rattle.route_install.specs.Collecting.{with_one};

use crate::collected::{Collected, are_all, put_alone, put_part};
use crate::cut::entries_from;
use crate::finding::{are_rising, route_in};
use net_defs::Walk;
use port_graph::RouteSet;
use route_parts::{EntryList, RoutePart};
use std::alloc::{AllocError, Global};
use std::marker::Model;
use std::mem;
use world_defs::Applied;

/// A host's table: what is active, and the parts of a later one that came so far. Contracts see the table of the
/// definitions, beside its host.
#[derive(Drop)]
pub struct Table {
    host: u16,
    /// The latest epoch that was seen.
    epoch: u32,
    /// Whether that was revoked.
    revoked: bool,
    collected: Vec<Collected>,
    active_epoch: Option<u32>,
    active: Vec<Collected>,
    /// Whether the hosts of the active entries rise.
    rising: bool,
}

impl Model for Table {
    ghost use Rattle.world_defs.specs.Table.{TableState};
    ghost use Rattle.std.specs.Prelude.{◌≡◌};
    ghost use Rattle.route_install.specs.Collecting.{HostTable, AreNumbered, active_of, joined_all};
    ghost use Rattle.route_install.specs.Finding.{are_rising};

    ghost Value = { HostTable };

    ghost view = { λ t. record {
      host = t.host;
      state = record {
        epoch = t.epoch;
        revoked = t.revoked;
        collected = t.collected.items;
        active = active_of t.active_epoch t.active.items;
      };
    } };

    ghost invariant = { λ t. AreNumbered t.collected.items × (t.rising ≡ are_rising (joined_all t.active.items)) };
}

impl Table {
    /// The table of a host that has seen no part. It takes no memory.
    pub fn new(alloc: Global, host: u16) -> Table
        ensures { result ≡ record { host = host; state = new_table } }
    {
        Table {
            host,
            epoch: 0,
            revoked: false,
            collected: Vec::new(alloc),
            active_epoch: None,
            active: Vec::new(alloc),
            rising: true,
        }
    }

    /// The active table of a set's routes from a host.
    pub fn whole(alloc: Global, host: u16, r: &RouteSet, epoch: u32) -> Result<Table, AllocError>
        ensures { IfOk result (λ t. t ≡ record { host = host; state = whole_table r.now host epoch }) }
    {
        let mut active = Vec::with_capacity(alloc, 1)?;
        active.push(Collected::new(0, entries_from(alloc, r, host)?))?;
        let rising = are_rising(&active);
        Ok(Table {
            host,
            epoch,
            revoked: false,
            collected: Vec::new(alloc),
            active_epoch: Some(epoch),
            active,
            rising,
        })
    }

    /// Takes a part of this host's table. It changes nothing where memory runs out.
    pub fn apply(&mut self, p: RoutePart) -> Result<Applied, AllocError>
        requires { p.dst ≡ self.old.host }
        ensures ok { IfOk result (λ a. (a, self.new.state) ≡ applied self.old.state p) }
        ensures host { self.new.host ≡ self.old.host }
        ensures err { OnErr result (self.new ≡ self.old) }
    {
        if self.is_old(p.epoch) {
            return Ok(Applied::Old);
        }
        if self.is_active_in(p.epoch) {
            return Ok(Applied::Active);
        }
        let parts = p.parts;
        self.collect(p.epoch, p.part, p.entries)?;
        Ok(self.join(parts))
    }

    /// Gives up an epoch: nothing is active or collected then, and parts of it are old. Where a later epoch was seen
    /// nothing changes. It takes no memory.
    pub fn revoke(&mut self, epoch: u32)
        ensures state { self.new.state ≡ revoked_table self.old.state epoch }
        ensures host { self.new.host ≡ self.old.host }
    {
        if epoch < self.epoch {
            return;
        }
        self.epoch = epoch;
        self.revoked = true;
        self.collected.clear();
        self.active_epoch = None;
        self.active.clear();
        self.rising = true;
    }

    /// Whether an epoch was revoked, and no later one was seen.
    pub fn has_revoked(&self, epoch: u32) -> bool
        ensures { result ≡ has_revoked epoch self.now.state }
    {
        self.epoch == epoch && self.revoked
    }

    /// The epoch of the active table.
    pub fn active(&self) -> Option<u32>
        ensures { result ≡ active_epoch self.now.state }
    {
        self.active_epoch
    }

    /// The route to a host, by the active table.
    pub fn route(&self, to: u16) -> Option<&Walk>
        ensures { option_copied result ≡ table_route self.now.state to }
    {
        match self.active_epoch {
            Some(_) => route_in(&self.active, self.rising, self.likely_place(to), to),
            None => None,
        }
    }

    // The place of a host's entry, where all hosts of the fabric are in the map.
    fn likely_place(&self, to: u16) -> usize {
        if to > self.host {
            usize::from(to - 1)
        } else {
            usize::from(to)
        }
    }

    // Whether parts of an epoch are old: a later one was seen, or this one was revoked.
    fn is_old(&self, epoch: u32) -> bool
        ensures { result ≡ is_old self.now.state epoch }
    {
        epoch < self.epoch || (epoch == self.epoch && self.revoked)
    }

    // Whether the active table is of this epoch.
    fn is_active_in(&self, epoch: u32) -> bool
        ensures { result ≡ is_epoch epoch (active_epoch self.now.state) }
    {
        match self.active_epoch {
            Some(active) => epoch == active,
            None => false,
        }
    }

    // Collects a part; those of another epoch are let go.
    fn collect(&mut self, epoch: u32, part: u8, entries: EntryList) -> Result<(), AllocError>
        ensures ok { OnOk result (self.new.state ≡ with_one self.old.state epoch part entries) }
        ensures host { self.new.host ≡ self.old.host }
        ensures err { OnErr result (self.new ≡ self.old) }
    {
        if self.epoch == epoch {
            put_part(&mut self.collected, part, entries)
        } else {
            put_alone(&mut self.collected, part, entries)?;
            self.epoch = epoch;
            self.revoked = false;
            Ok(())
        }
    }

    // Makes the table active where all parts stand.
    fn join(&mut self, parts: u8) -> Applied
        ensures state { (result, self.new.state) ≡ joined parts self.old.state }
        ensures host { self.new.host ≡ self.old.host }
    {
        if are_all(&self.collected, parts) {
            self.collected.truncate(usize::from(parts));
            mem::swap(&mut self.collected, &mut self.active);
            self.collected.clear();
            self.active_epoch = Some(self.epoch);
            self.rising = are_rising(&self.active);
            Applied::Active
        } else {
            Applied::Part
        }
    }
}

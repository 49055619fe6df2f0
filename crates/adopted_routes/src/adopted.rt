//! A set of routes that was adopted.

ghost use Rattle.std.specs.Prelude.{◌≡◌, ◌≤◌, length, true, Some, IfOk, IfSome};
ghost use Rattle.world_defs.specs.Mapping.{is_part};
ghost use Rattle.net_defs.specs.RouteSet.{same_routes};
ghost use Rattle.world_defs.specs.Table.{entries_from, part_for, route_of, is_kept_in};
ghost use Rattle.adopted_routes.specs.Adopting.{part_count_for};

use crate::same::are_same;
use net_defs::Walk;
use port_graph::RouteSet;
use route_install::{RoutePart, part_for, parts_of, walk_between};
use std::alloc::{AllocError, Global};
use std::marker::Model;
use world_defs::Standing;

/// A set of routes with its adopter, its epoch, and how many cables had come and gone when that began.
#[derive(Drop)]
pub(crate) struct Adopted {
    mapper: u16,
    epoch: u32,
    at: u16,
    set: RouteSet,
}

impl Model for Adopted {
    ghost use Rattle.world_defs.specs.Table.{Adoption};

    ghost Value = { Adoption };

    ghost view = { λ a. record { mapper = a.mapper; epoch = a.epoch; at = a.at; routes = a.set } };
}

impl Adopted {
    pub(crate) fn new(mapper: u16, epoch: u32, at: u16, set: RouteSet) -> Adopted
        ensures { result ≡ record { mapper = mapper; epoch = epoch; at = at; routes = set } }
    {
        Adopted {
            mapper,
            epoch,
            at,
            set,
        }
    }

    /// Its adopter.
    pub(crate) fn mapper(&self) -> u16
        ensures { result ≡ self.now.mapper }
    {
        self.mapper
    }

    /// Its epoch.
    pub(crate) fn epoch(&self) -> u32
        ensures { result ≡ self.now.epoch }
    {
        self.epoch
    }

    /// How many cables had come and gone when its epoch began.
    pub(crate) fn at(&self) -> u16
        ensures { result ≡ self.now.at }
    {
        self.at
    }

    /// Its routes.
    pub(crate) fn set(&self) -> &RouteSet
        ensures { result.now ≡ self.now.routes }
    {
        &self.set
    }

    /// Whether it stands as it is where these routes are adopted: they are its own, no host gave its epoch up, and no
    /// cable came or went since it began.
    pub(crate) fn is_kept(&self, set: &RouteSet, standing: Standing) -> bool
        ensures { result ≡ is_kept_in standing set.now self.now }
    {
        self.is_of(set) && !standing.revoked && standing.changes == self.at
    }

    // Whether its routes are these.
    fn is_of(&self, set: &RouteSet) -> bool
        ensures { result ≡ same_routes set.now self.now.routes }
    {
        are_same(set.list(), self.set.list())
    }

    /// A part of a host's table. None exactly where the set has no such part.
    pub(crate) fn part(
        &self,
        alloc: Global,
        dst: u16,
        part: u8,
    ) -> Result<Option<RoutePart>, AllocError>
        requires { length (entries_from self.now.routes dst) ≤ 128 }
        ensures value { IfOk result (λ p. p ≡ part_for self.now dst part) }
        ensures by_rules { IfOk result (λ p. IfSome p (λ p. is_part p ≡ true)) }
    {
        part_for(alloc, &self.set, self.epoch, self.mapper, dst, part)
    }

    /// The set's route from its adopter to a host.
    pub(crate) fn route_to(&self, alloc: Global, dst: u16) -> Result<Option<Walk>, AllocError>
        ensures { IfOk result (λ walk. walk ≡ route_of self.now.routes self.now.mapper dst) }
    {
        match walk_between(&self.set, self.mapper, dst) {
            Some(walk) => Ok(Some(walk.copied(alloc)?)),
            None => Ok(None),
        }
    }

    /// How many parts it has for a host's table. Its adopter has none.
    pub(crate) fn part_count(&self, dst: u16) -> u8
        requires { length (entries_from self.now.routes dst) ≤ 128 }
        ensures { result ≡ part_count_for (Some self.now) dst }
    {
        if dst == self.mapper {
            0
        } else {
            parts_of(&self.set, dst)
        }
    }
}

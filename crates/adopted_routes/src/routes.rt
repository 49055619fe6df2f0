//! The routes that are adopted, if any are.

ghost use Rattle.std.specs.Prelude.{◌≡◌, ◌+◌, true, Some, None, option_map, option_copied, IfOk, IfErr, IfSome, OnOk};
ghost use Rattle.std.specs.Prelude.{OnErr};
ghost use Rattle.std.specs.Prelude.{if◌then◌else◌};
ghost use Rattle.world_defs.specs.Mapping.{is_part};
ghost use Rattle.port_graph.specs.Routes.{HandsBack};
ghost use Rattle.world_defs.specs.Table.{whole_table, epoch_in, keeps_in, adopted_in, may_adopt_in};
ghost use Rattle.adopted_routes.specs.Adopting.{HasFewFor, refusal_of, adopt_refusal, part_count_for, part_to_send};

use crate::adopted::Adopted;
use net_defs::Walk;
use port_graph::RouteSet;
use route_install::{RoutePart, Table};
use std::alloc::{AllocError, Global};
use std::marker::Model;
use thiserror::Error;
use world_defs::Standing;

/// Why routes aren't adopted. The first that holds is named.
#[derive(Clone, Copy, Debug, PartialEq, Eq, Error)]
pub enum AdoptRefusal {
    /// This host, and none before it, hasn't given up the epoch of the routes that are adopted.
    #[error("host {0} hasn't given up the epoch")]
    Unrevoked(u16),
    /// The epoch is the last.
    #[error("there is no next epoch")]
    Epochs,
    /// Memory ran out.
    #[error("out of memory")]
    NoMemory,
}

/// A part of a host's table on its way: the adopter that sends it, and the route to its host.
#[derive(Debug, Drop)]
pub struct PartToSend {
    /// The adopter of the routes.
    pub mapper: u16,
    /// The part.
    pub part: RoutePart,
    /// The adopter's route to the part's host.
    pub by: Walk,
}

/// What is adopted: nothing, or one set of routes with its adopter, its epoch, and the changes of cables before that.
#[derive(Drop)]
pub struct AdoptedRoutes {
    adopted: Option<Adopted>,
}

impl Model for AdoptedRoutes {
    ghost use Rattle.std.specs.Prelude.{Option};
    ghost use Rattle.world_defs.specs.Table.{Adoption};

    ghost Value = { Option Adoption };

    ghost view = { λ a. a.adopted };
}

impl AdoptedRoutes {
    /// No routes are adopted.
    pub fn new() -> AdoptedRoutes
        ensures { result ≡ None }
    {
        AdoptedRoutes { adopted: None }
    }

    /// Adopts routes, and answers their adopter's table, which is theirs at once. Where the same stand already, no host
    /// gave their epoch up, and no cable came or went since that began, the epoch is kept; else the next begins.
    ///
    /// Refused routes are handed back, and nothing has changed: `Unrevoked` and `Epochs` exactly where an epoch isn't
    /// kept and, in this order, some host hasn't given it up, or it is the last.
    pub fn adopt(
        &mut self,
        alloc: Global,
        mapper: u16,
        set: RouteSet,
        standing: Standing,
    ) -> Result<Table, (RouteSet, AdoptRefusal)>
        ensures table { IfOk result (λ t. t
            ≡ record {
              host = mapper;
              state = whole_table set mapper
                  (adopted_in standing mapper set self.old).epoch;
            }) }
        ensures adopted { OnOk result (self.new ≡ Some (adopted_in standing mapper set self.old)) }
        ensures refused { HandsBack (adopt_refusal standing set self.old) AdoptRefusal.NoMemory set result }
        ensures unchanged { OnErr result (self.new ≡ self.old) }
    {
        match self.refusal(&set, standing) {
            Some(refusal) => Err((set, refusal)),
            None => self.take(alloc, mapper, set, standing),
        }
    }

    /// Why [`AdoptedRoutes::adopt`] refuses routes, unless memory runs out. It takes no memory.
    pub fn refusal(&self, set: &RouteSet, standing: Standing) -> Option<AdoptRefusal>
        ensures { result ≡ adopt_refusal standing set.now self.now }
    {
        match &self.adopted {
            Some(adopted) => {
                if adopted.is_kept(set, standing) {
                    None
                } else {
                    refusal_of(adopted.epoch(), standing.unrevoked)
                }
            }
            None => None,
        }
    }

    /// Whether an adoption of routes keeps the epoch; else it begins one.
    pub fn keeps(&self, set: &RouteSet, standing: Standing) -> bool
        ensures { result ≡ keeps_in standing set.now self.now }
    {
        match &self.adopted {
            Some(adopted) => adopted.is_kept(set, standing),
            None => false,
        }
    }

    /// The epoch of the adopted routes, 0 before the first.
    pub fn epoch(&self) -> u32
        ensures { result ≡ epoch_in self.now }
    {
        match &self.adopted {
            Some(adopted) => adopted.epoch(),
            None => 0,
        }
    }

    /// The adopted routes. None exactly where none are adopted.
    pub fn routes(&self) -> Option<&RouteSet>
        ensures { option_copied result ≡ option_map (λ a. a.routes) self.now }
    {
        match &self.adopted {
            Some(adopted) => Some(adopted.set()),
            None => None,
        }
    }

    /// How many cables had come and gone when the epoch of the adopted routes began. None exactly where none are
    /// adopted.
    pub fn adopted_at(&self) -> Option<u16>
        ensures { result ≡ option_map (λ a. a.at) self.now }
    {
        match &self.adopted {
            Some(adopted) => Some(adopted.at()),
            None => None,
        }
    }

    /// The adopter of the adopted routes. None exactly where none are adopted.
    pub fn adopter(&self) -> Option<u16>
        ensures { result ≡ option_map (λ a. a.mapper) self.now }
    {
        match &self.adopted {
            Some(adopted) => Some(adopted.mapper()),
            None => None,
        }
    }

    /// How many parts the adopted routes have for a host's table: none for their adopter's, and none where no routes
    /// are adopted.
    pub fn part_count(&self, dst: u16) -> u8
        requires { HasFewFor self.now dst }
        ensures { result ≡ part_count_for self.now dst }
    {
        match &self.adopted {
            Some(adopted) => adopted.part_count(dst),
            None => 0,
        }
    }

    /// A part of a host's table, and how its adopter sends it. None exactly where no routes are adopted, or they have
    /// no such part or no route to the host.
    pub fn part(&self, alloc: Global, dst: u16, part: u8) -> Result<Option<PartToSend>, AllocError>
        requires { HasFewFor self.now dst }
        ensures value { IfOk result (λ s. s ≡ part_to_send self.now dst part) }
        ensures by_rules { IfOk result (λ s. IfSome s (λ s. is_part s.part ≡ true)) }
    {
        match &self.adopted {
            Some(adopted) => part_by(alloc, adopted, dst, part),
            None => Ok(None),
        }
    }

    // Adopts routes that aren't refused, unless memory runs out.
    fn take(
        &mut self,
        alloc: Global,
        mapper: u16,
        set: RouteSet,
        standing: Standing,
    ) -> Result<Table, (RouteSet, AdoptRefusal)>
        requires { adopt_refusal standing set self.old ≡ None }
        ensures table { IfOk result (λ t. t
            ≡ record {
              host = mapper;
              state = whole_table set mapper
                  (adopted_in standing mapper set self.old).epoch;
            }) }
        ensures adopted { OnOk result (self.new ≡ Some (adopted_in standing mapper set self.old)) }
        ensures back { IfErr result (λ e. (e.0 ≡ set) × (e.1 ≡ AdoptRefusal.NoMemory)) }
        ensures unchanged { OnErr result (self.new ≡ self.old) }
    {
        let epoch = self.epoch_then(&set, standing);
        match Table::whole(alloc, mapper, &set, epoch) {
            Ok(table) => {
                self.adopted = Some(Adopted::new(mapper, epoch, standing.changes, set));
                Ok(table)
            }
            Err(_) => Err((set, AdoptRefusal::NoMemory)),
        }
    }

    // The epoch of routes once they are adopted.
    fn epoch_then(&self, set: &RouteSet, standing: Standing) -> u32
        requires { adopt_refusal standing set.now self.now ≡ None }
        ensures { result ≡ (if keeps_in standing set.now self.now then epoch_in self.now else epoch_in self.now + 1) }
    {
        if self.keeps(set, standing) {
            self.epoch()
        } else {
            self.epoch() + 1
        }
    }
}

// Why an epoch isn't followed by another: some host hasn't given it up, or it is the last.
fn refusal_of(epoch: u32, unrevoked: Option<u16>) -> Option<AdoptRefusal>
    ensures { result ≡ refusal_of unrevoked epoch }
{
    match unrevoked {
        Some(host) => Some(AdoptRefusal::Unrevoked(host)),
        None => {
            if epoch == u32::MAX {
                Some(AdoptRefusal::Epochs)
            } else {
                None
            }
        }
    }
}

// A part of a host's table by an adopted set, where it has one and a route to the host.
fn part_by(
    alloc: Global,
    adopted: &Adopted,
    dst: u16,
    part: u8,
) -> Result<Option<PartToSend>, AllocError>
    requires { HasFewFor (Some adopted.now) dst }
    ensures value { IfOk result (λ s. s ≡ part_to_send (Some adopted.now) dst part) }
    ensures by_rules { IfOk result (λ s. IfSome s (λ s. is_part s.part ≡ true)) }
{
    let mapper = adopted.mapper();
    let found = adopted.part(alloc, dst, part)?;
    let by = adopted.route_to(alloc, dst)?;
    match (found, by) {
        (Some(part), Some(by)) => Ok(Some(PartToSend { mapper, part, by })),
        _ => Ok(None),
    }
}

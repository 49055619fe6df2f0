//! Path after path, until no cable of the core is left.

ghost use Rattle.std.specs.Prelude.{◌≡◌, ◌<◌, length, None, Some, IfOk, IfSome, OnOk};
ghost use Rattle.net_defs.specs.Route.{host_port};
ghost use Rattle.circ_ears.specs.EarLists.{AreNumbersOfCore};
ghost use Rattle.circ_ears.specs.Taking.{first_taking, step_from, taken, HasNoCableBelow, IsOwnStep};

use crate::ear_list::EarList;
use crate::search::next_path;
use crate::step::CableStep;
use crate::trail::{Trail, cables_on, joined_numbers};
use crate::two_walks::{PathBack, ear_of};
use net_defs::{Cable, End, Vertex};
use port_graph::Fabric;
use std::alloc::{AllocError, Global};
use std::marker::Model;

/// The paths of the core of a host's part, with their return walks: the host's own cable, and while a cable of the
/// core is left, a path that begins with it. A host without a cable has no path.
///
/// Where a circuit map's depth is at least the most cables in a return walk, the map is the core.
pub fn ears(alloc: Global, f: &Fabric, host: u16) -> Result<EarList, AllocError>
    ensures { IfOk result (λ l. AreNumbersOfCore f.now host l) }
{
    // What it is by itself: a fabric, with at most 576 cables.
    let _hosts = f.hosts();
    let _cables = f.cables();
    let Some(own) = own_step(f, host) else {
        return Ok(EarList::new(alloc));
    };
    let mut taken = first_taken(alloc, &own)?;
    'taking: while let Some(path) = next_path(alloc, f, &taken.cables)? {
        taken.take(alloc, path)?;
    }
    Ok(taken.ears)
}

/// Paths that are taken, the last one first, with their cables and their return walks.
#[derive(Drop)]
struct Taken {
    paths: Vec<Trail>,
    cables: Vec<u16>,
    ears: EarList,
}

impl Model for Taken {
    ghost use Rattle.circ_ears.specs.Taking.{Taking};

    ghost Value = { Taking };

    ghost view = { λ t. record { paths = t.paths.items; cables = t.cables.items; ears = t.ears } };
}

impl Taken {
    // Takes a path more.
    fn take(&mut self, alloc: Global, path: Trail) -> Result<(), AllocError>
        requires { length self.old.ears < 4294967295 }
        ensures { OnOk result (self.new ≡ taken self.old path) }
    {
        let ear = ear_of(alloc, &self.paths, path.steps())?;
        self.ears.push(alloc, &ear)?;
        let cables = cables_on(alloc, path.steps())?;
        self.cables = joined_numbers(alloc, &cables, &self.cables)?;
        self.paths.insert(0, path)?;
        Ok(())
    }
}

// The mapper's own cable alone.
fn first_taken(alloc: Global, own: &CableStep) -> Result<Taken, AllocError>
    ensures { IfOk result (λ t. t ≡ first_taking own.now) }
{
    let mut steps = Vec::new(alloc);
    steps.push(*own)?;
    let ear = PathBack::alone(alloc, &steps)?;
    let mut ears = EarList::new(alloc);
    ears.push(alloc, &ear)?;
    let cables = cables_on(alloc, &steps)?;
    let mut paths = Vec::new(alloc);
    paths.push(Trail::of(steps))?;
    Ok(Taken {
        paths,
        cables,
        ears,
    })
}

// The step over a host's own cable.
fn own_step(f: &Fabric, host: u16) -> Option<CableStep>
    ensures own { IfSome result (λ s. IsOwnStep f.now host s) }
    ensures none { result ≡ None → HasNoCableBelow f.now (host_port host) (length f.now.cables) }
{
    let own = host_end(host);
    for k in 0..f.cables() {
        if let Some(step) = step_from(k, f.cable(k), own) {
            return Some(step);
        }
    }
    None
}

// The port of a host.
fn host_end(host: u16) -> End
    ensures { result ≡ host_port host }
{
    End {
        v: Vertex::Host(host),
        p: 0,
    }
}

// The step over a cable out of an end, if the cable ends there.
fn step_from(k: u16, c: Cable, own: End) -> Option<CableStep>
    ensures { result ≡ step_from k c own }
{
    if c.a == own {
        Some(CableStep::new(k, c.a, c.b))
    } else if c.b == own {
        Some(CableStep::new(k, c.b, c.a))
    } else {
        None
    }
}

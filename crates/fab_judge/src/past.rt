//! What the answers so far say.

ghost use Rattle.std.specs.Prelude.{◌≡◌, true, [], OnOk};
ghost use Rattle.answer_defs.specs.Answer.{Alone, fabric_by, plugged};
ghost use Rattle.fab_judge.specs.Past.{IsPastOf, after_line, after_map, is_map, is_complete};

use crate::shown::ShownMap;
use crate::{Hosts, Ledgers};
use fabric_map::FabricMap;
use port_graph::{End, Fabric, GraphFault};
use report_lines::{MapSaid, ReportLine};
use std::alloc::{AllocError, Global};

/// What the answers so far say.
#[derive(Drop)]
pub(crate) struct Past {
    /// The last map that was made, where it has lines.
    pub(crate) shown: Option<ShownMap>,
    /// The hosts of the map of the last routes, by address.
    pub(crate) routed: Option<Hosts>,
    /// Whether routes are adopted.
    pub(crate) adopted: bool,
    /// The fabric as it stands.
    pub(crate) fabric: Fabric,
    /// The messages that were sent and not received, and the tokens that clients hold.
    pub(crate) ledgers: Ledgers,
}

impl Past {
    /// Before any answer, over a fabric.
    pub(crate) fn new(alloc: Global, fabric: Fabric) -> Past
        ensures { IsPastOf fabric [] result }
    {
        Past {
            shown: None,
            routed: None,
            adopted: false,
            fabric,
            ledgers: Ledgers::new(alloc),
        }
    }

    /// A line alone is right: one of a map without lines leaves none, and a cable is pulled or plugged.
    pub(crate) fn follow(&mut self, line: &ReportLine) -> Result<(), AllocError>
        ensures { OnOk result (self.new ≡ after_line line.now self.old) }
    {
        if is_map(line) {
            self.shown = None;
        }
        change(&mut self.fabric, line)
    }

    /// A line with a map is right: the map is the last, where circuit links weren't mapped.
    pub(crate) fn show(
        &mut self,
        alloc: Global,
        line: &ReportLine,
        map: FabricMap,
    ) -> Result<(), AllocError>
        ensures { OnOk result (self.new ≡ after_map line.now map self.old) }
    {
        match line {
            ReportLine::Map { said, .. } => {
                let shown = ShownMap::new(alloc, map, is_complete(*said))?;
                self.shown = Some(shown);
                Ok(())
            }
            _ => Ok(()),
        }
    }
}

// A cable is pulled or plugged, where the line says so and the fabric takes it.
fn change(fabric: &mut Fabric, line: &ReportLine) -> Result<(), AllocError>
    ensures { OnOk result (fabric.new ≡ fabric_by (Alone line.now) fabric.old) }
{
    match line {
        ReportLine::Pull { at, done: true } => {
            fabric.remove_cable(*at);
            Ok(())
        }
        ReportLine::Plug { a, b, done: true } => plug(fabric, *a, *b),
        _ => Ok(()),
    }
}

// A cable joins two ports, where both are free.
fn plug(fabric: &mut Fabric, a: End, b: End) -> Result<(), AllocError>
    ensures { OnOk result (fabric.new ≡ plugged fabric.old a b) }
{
    match fabric.add_cable(a, b) {
        Ok(_) => Ok(()),
        Err(GraphFault::NoMemory) => Err(AllocError),
        Err(_) => Ok(()),
    }
}

// Whether a line is of a map.
fn is_map(line: &ReportLine) -> bool
    ensures { result ≡ is_map line.now }
{
    match line {
        ReportLine::Map { .. } => true,
        _ => false,
    }
}

// Whether the word is `complete`.
fn is_complete(said: MapSaid) -> bool
    ensures { result ≡ is_complete said }
{
    match said {
        MapSaid::Complete => true,
        _ => false,
    }
}

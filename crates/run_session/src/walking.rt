//! The links that the packet of a walk takes alone, and the text of a walk.

ghost use Rattle.std.specs.Prelude.{◌≡◌, ◌≤◌, length, All, IfOk, IfErr, OnOk};
ghost use Rattle.net_defs.specs.Turn.{IsTurn};
ghost use Rattle.world_defs.specs.Links.{empty_links};
ghost use Rattle.world_defs.specs.World.{fabric_of};
ghost use Rattle.run_defs.specs.declared.command.Command.TheVariants.{Walk};
ghost use Rattle.world_commands.specs.Cut.{IsLeft};
ghost use Rattle.world_commands.specs.Done.{IsDone};
ghost use Rattle.run_session.specs.Holding.{AreWalkLinks};

use fab_report::Printed;
use fab_world::World;
use link_model::Links;
use std::alloc::{AllocError, Global};
use world_commands::{OutOfMemory, walk};

/// Links without packets, and after how many changes of cables they were made.
#[derive(Drop)]
pub(crate) struct WalkLinks {
    pub(crate) links: Links,
    pub(crate) made: u64,
}

/// The links of a world's fabric as it stands.
pub(crate) fn walk_links(alloc: Global, w: &World) -> Result<WalkLinks, AllocError>
    ensures now { IfOk result (λ l. l.links ≡ empty_links (fabric_of w.now)) }
    ensures links { IfOk result (AreWalkLinks w.now.links.cables) }
{
    w.moment();
    let links = Links::new(alloc, w.fabric())?;
    let made = w.changes();
    Ok(WalkLinks { links, made })
}

/// Where a walk ends in the fabric as it stands: its links are made anew where a cable was pulled or plugged since.
#[tactic(auto, using(crate::proofs::Going::links_same))]
pub(crate) fn walk_text(
    alloc: Global,
    w: &World,
    links: &mut WalkLinks,
    host: u16,
    turns: &[i8],
    printed: &mut Printed,
) -> Result<(), OutOfMemory>
    requires short { length turns.now ≤ 64 }
    requires turns { All IsTurn turns.now }
    requires links { AreWalkLinks w.now.links.cables links.old }
    ensures done { OnOk result (IsDone (Walk host turns.now) w.now w.now printed.new) }
    ensures err { IfErr result (λ e. IsLeft (Walk host turns.now) w.now w.now e) }
    ensures links { AreWalkLinks w.now.links.cables links.new }
{
    let Ok(()) = renew(alloc, w, links) else {
        return Err(OutOfMemory::InDoing);
    };
    walk(alloc, w, &mut links.links, host, turns, printed)
}

// Makes the links anew where a cable was pulled or plugged since they were made.
#[tactic(auto, using(crate::proofs::Going::links_still))]
fn renew(alloc: Global, w: &World, links: &mut WalkLinks) -> Result<(), AllocError>
    requires { AreWalkLinks w.now.links.cables links.old }
    ensures now { OnOk result (links.new.links ≡ empty_links (fabric_of w.now)) }
    ensures links { AreWalkLinks w.now.links.cables links.new }
{
    w.moment();
    if links.made == w.changes() {
        return Ok(());
    }
    *links = walk_links(alloc, w)?;
    Ok(())
}

//! An installation of the last routes, and what it prints.

ghost use Rattle.std.specs.Prelude.{◌≡◌, ◌≤◌, ◌∷◌, [], true, Option, Some, None, if◌then◌else◌};
ghost use Rattle.std.specs.Prelude.{IfErr, OnOk, OnErr};
ghost use Rattle.world_defs.specs.Links.{is_idle};
ghost use Rattle.world_defs.specs.World.{fabric_of, may_adopt};
ghost use Rattle.run_defs.specs.Output.{OneLine};
ghost use Rattle.run_defs.specs.Outcome.{adopt_cause, install as install_deed, may_install, refusal_cause};
ghost use Rattle.run_defs.specs.Session.{LastMap, LastRoutes};
ghost use Rattle.run_defs.specs.declared.command.Command.TheVariants.{Install};
ghost use Rattle.run_defs.specs.declared.line.Line.TheVariants.{InstallRefused};
ghost use Rattle.fab_report.specs.Printed.{printed_of};
ghost use Rattle.promise_laws.specs.CutShort.{IsPartActed};
ghost use Rattle.world_commands.specs.Cut.{HidesNoRefusal};
ghost use Rattle.world_commands.specs.Done.{session_of};
ghost use Rattle.run_session.specs.Kept.{AreLastRoutes, WereKeptRoutes, GoesOn};
ghost use Rattle.run_session.specs.Told.{IsInstallTold};

use crate::last::LastFound;
use fab_report::Printed;
use fab_world::{AdoptRefusal, World};
use run_defs::{InstallCause, Line};
use std::alloc::Global;
use table_installing::adopt_and_install;
use world_commands::{OutOfMemory, one_line, print_tables};

/// Installs the last routes, unless that is refused: no routes were computed, a channel holds a packet, a cable was
/// pulled or plugged since the map of the routes began, a host hasn't given up the epoch of the adopted routes where
/// that isn't kept, or there is no next one. Running out of memory leaves a world that a prefix of its acts leads to.
#[tactic(auto, using(crate::proofs::Going::goes_same))]
pub(crate) fn install_text(
    alloc: Global,
    w: &mut World,
    last: &Option<LastFound>,
    tries: u8,
    printed: &mut Printed,
) -> Result<(), OutOfMemory>
    requires kept { AreLastRoutes w.old.links.cables last.now }
    requires some { 1 ≤ tries }
    requires tries { tries ≤ 8 }
    ensures told { OnOk result (IsInstallTold w.old last.now tries w.new printed.new) }
    ensures err { OnErr result (IsPartActed w.old (install_deed w.old tries last.now).acts w.new) }
    ensures unrefused { IfErr result (λ e. (made : Option LastMap)
        → HidesNoRefusal (session_of w.old made last.now) (Install tries) w.new e) }
    ensures cables { GoesOn w.old w.new }
{
    match last {
        Some(l) => install_last(alloc, w, l, tries, printed),
        None => refused_text(printed, w, InstallCause::NoRoutes),
    }
}

// The same for the last routes.
#[tactic(auto, using(crate::proofs::Installs::busy_told, crate::proofs::Going::goes_same))]
fn install_last(
    alloc: Global,
    w: &mut World,
    l: &LastFound,
    tries: u8,
    printed: &mut Printed,
) -> Result<(), OutOfMemory>
    requires kept { WereKeptRoutes w.old.links.cables l.now }
    requires some { 1 ≤ tries }
    requires tries { tries ≤ 8 }
    ensures told { OnOk result (IsInstallTold w.old (Some l.now) tries w.new printed.new) }
    ensures err { OnErr result (IsPartActed w.old (install_deed w.old tries (Some l.now)).acts w.new) }
    ensures unrefused { IfErr result (λ e. (made : Option LastMap)
        → HidesNoRefusal (session_of w.old made (Some l.now)) (Install tries) w.new e) }
    ensures cables { GoesOn w.old w.new }
{
    if w.links_idle() {
        return install_idle(alloc, w, l, tries, printed);
    }
    refused_text(printed, w, InstallCause::Busy)
}

// The same while no channel holds a packet.
#[tactic(auto, using(crate::proofs::Going::goes_same))]
fn install_idle(
    alloc: Global,
    w: &mut World,
    l: &LastFound,
    tries: u8,
    printed: &mut Printed,
) -> Result<(), OutOfMemory>
    requires idle { is_idle w.old.links ≡ true }
    requires kept { WereKeptRoutes w.old.links.cables l.now }
    requires some { 1 ≤ tries }
    requires tries { tries ≤ 8 }
    ensures told { OnOk result (IsInstallTold w.old (Some l.now) tries w.new printed.new) }
    ensures err { OnErr result (IsPartActed w.old (install_deed w.old tries (Some l.now)).acts w.new) }
    ensures unrefused { IfErr result (λ e. (made : Option LastMap)
        → HidesNoRefusal (session_of w.old made (Some l.now)) (Install tries) w.new e) }
    ensures cables { GoesOn w.old w.new }
{
    match install_refused(w, l) {
        Some(cause) => refused_text(printed, w, cause),
        None => install_adoptable(alloc, w, l, tries, printed),
    }
}

// Why the last routes aren't installed, where they may not be: a cable was pulled or plugged since their map began, or
// they may not be adopted. It takes no memory.
#[tactic(auto, using(crate::proofs::Installs::cause_adopts, crate::proofs::Installs::cause_changed))]
fn install_refused(w: &World, l: &LastFound) -> Option<InstallCause>
    ensures { result ≡ (if may_install w.now l.now then None else Some (refusal_cause w.now l.now)) }
{
    if l.began == w.changes() {
        adoption_refused(w, l)
    } else {
        Some(InstallCause::Changed)
    }
}

// Why the last routes aren't adopted, where they may not be. It takes no memory.
fn adoption_refused(w: &World, l: &LastFound) -> Option<InstallCause>
    ensures { result ≡ (if may_adopt w.now l.now.routes then None else Some (adopt_cause w.now)) }
{
    match w.adopt_refusal(&l.routes) {
        None => None,
        Some(AdoptRefusal::Unrevoked(_)) => Some(InstallCause::Installed),
        Some(AdoptRefusal::Epochs) => Some(InstallCause::Epochs),
        Some(AdoptRefusal::NoMemory) => unreachable!(),
    }
}

// Installs the last routes, which may be installed, while no channel holds a packet.
fn install_adoptable(
    alloc: Global,
    w: &mut World,
    l: &LastFound,
    tries: u8,
    printed: &mut Printed,
) -> Result<(), OutOfMemory>
    requires idle { is_idle w.old.links ≡ true }
    requires may { may_install w.old l.now ≡ true }
    requires kept { WereKeptRoutes w.old.links.cables l.now }
    requires some { 1 ≤ tries }
    requires tries { tries ≤ 8 }
    ensures told { OnOk result (IsInstallTold w.old (Some l.now) tries w.new printed.new) }
    ensures err { OnErr result (IsPartActed w.old (install_deed w.old tries (Some l.now)).acts w.new) }
    ensures doing { IfErr result (λ e. e ≡ OutOfMemory.InDoing) }
    ensures cables { GoesOn w.old w.new }
{
    w.moment();
    let Ok(installed) = adopt_and_install(alloc, w, l.mapper, &l.routes, &l.hosts, tries) else {
        return Err(OutOfMemory::InDoing);
    };
    let Ok(()) = print_tables(alloc, w, &l.hosts, installed.acked, installed.of, printed) else {
        return Err(OutOfMemory::InDoing);
    };
    Ok(())
}

// The line of a refusal.
fn refused_text(printed: &mut Printed, w: &World, cause: InstallCause) -> Result<(), OutOfMemory>
    ensures text { OnOk result (printed.new ≡ printed_of (fabric_of w.now) (OneLine (InstallRefused cause) ∷ [])) }
    ensures err { IfErr result (λ e. e ≡ OutOfMemory.InLine) }
{
    one_line(printed, Line::InstallRefused(cause), w.fabric())
}

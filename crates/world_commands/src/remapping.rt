//! A cable pulled or plugged, the revocations of all hosts, and the routes that a pull broke: the text of what came of
//! it. A refusal is told before memory is asked for, so it runs out of memory in its line alone.

ghost use Rattle.std.specs.Prelude.{◌≡◌, ◌++◌, [], length, IfOk, IfErr, OnOk, OnErr};
ghost use Rattle.std.specs.List.{AllByRecursion, filter};
ghost use Rattle.world_defs.specs.Later.{IsLater};
ghost use Rattle.world_defs.specs.World.{fabric_of};
ghost use Rattle.world_defs.specs.Step.{step, steps};
ghost use Rattle.world_defs.specs.declared.event.Event.TheVariants.{Pull as PullEvent, Plug as PlugEvent};
ghost use Rattle.run_defs.specs.LineText.{line_text};
ghost use Rattle.run_defs.specs.Outcome.{is_done, words_of_plug, revocations};
ghost use Rattle.run_defs.specs.declared.command.Command.TheVariants.{Pull, Plug, Revoke, Broken};
ghost use Rattle.run_defs.specs.declared.line.Line.TheVariants.{EndBroken};
ghost use Rattle.run_defs.specs.declared.line.PlugWords.TheVariants.{Done};
ghost use Rattle.fab_script.specs.Ranges.{IsEnd};
ghost use Rattle.fab_remap.specs.Remap.{effect_of, broken_pairs};
ghost use Rattle.world_commands.specs.Broken.{AreHostsOf, pair_text, pairs_text};
ghost use Rattle.world_commands.specs.Cut.{IsLeft};
ghost use Rattle.world_commands.specs.Done.{IsDone};

use crate::out_of_memory::{OutOfMemory, one_line};
use fab_remap::PlugRefusal;
use fab_report::{Printed, print_line_onto};
use fab_world::World;
use net_defs::End;
use run_defs::{Line, PlugWords};
use std::alloc::{AllocError, Global};

/// Pulls the cable at a port, where it has one. Where memory runs out, all of it was done but its line.
pub fn pull(alloc: Global, w: &mut World, at: End, printed: &mut Printed) -> Result<(), OutOfMemory>
    requires { IsEnd (fabric_of w.old) at }
    ensures done { OnOk result (IsDone (Pull at) w.old w.new printed.new) }
    ensures err { IfErr result (λ e. IsLeft (Pull at) w.old w.new e) }
    ensures cables { IsLater w.old.links.cables w.new.links.cables }
{
    let done = pulled(alloc, w, at);
    one_line(printed, Line::Pull { at, done }, w.fabric())
}

// Pulls the cable at a port: whether it had one.
fn pulled(alloc: Global, w: &mut World, at: End) -> bool
    ensures event { step w.old (PullEvent at) ≡ (effect_of result, w.new) }
{
    fab_remap::pull(alloc, w, at).unwrap()
}

/// Joins two ports, unless that is refused. Where memory runs out, nothing was done and it isn't refused, or all of it
/// was done but its line.
pub fn plug(
    alloc: Global,
    w: &mut World,
    a: End,
    b: End,
    printed: &mut Printed,
) -> Result<(), OutOfMemory>
    requires first { IsEnd (fabric_of w.old) a }
    requires second { IsEnd (fabric_of w.old) b }
    ensures done { OnOk result (IsDone (Plug a b) w.old w.new printed.new) }
    ensures err { IfErr result (λ e. IsLeft (Plug a b) w.old w.new e) }
    ensures cables { IsLater w.old.links.cables w.new.links.cables }
{
    let Ok(words) = joined(alloc, w, a, b) else {
        return Err(OutOfMemory::InDoing);
    };
    one_line(printed, Line::Plug { a, b, words }, w.fabric())
}

// Joins two ports: whether they were joined, or why they weren't. Where memory runs out, they would have been.
fn joined(alloc: Global, w: &mut World, a: End, b: End) -> Result<PlugWords, AllocError>
    ensures words { IfOk result (λ words. words ≡ words_of_plug w.old a b) }
    ensures after { OnOk result (w.new ≡ (step w.old (PlugEvent a b)).1) }
    ensures err { OnErr result (w.new ≡ w.old) }
    ensures free { OnErr result (words_of_plug w.old a b ≡ Done) }
{
    match fab_remap::plug(alloc, w, a, b) {
        Ok(()) => Ok(PlugWords::Done),
        Err(PlugRefusal::PortUsed) => Ok(PlugWords::PortUsed),
        Err(PlugRefusal::Full) => Ok(PlugWords::Full),
        Err(PlugRefusal::NoMemory) => Err(AllocError),
    }
}

/// All hosts give up the epoch of the adopted routes. Where memory runs out, all of it was done but its line.
pub fn revoke(alloc: Global, w: &mut World, printed: &mut Printed) -> Result<(), OutOfMemory>
    ensures done { OnOk result (IsDone Revoke w.old w.new printed.new) }
    ensures err { IfErr result (λ e. IsLeft Revoke w.old w.new e) }
    ensures cables { IsLater w.old.links.cables w.new.links.cables }
{
    let count = revoked(alloc, w);
    one_line(printed, Line::Revoked(count), w.fabric())
}

// All hosts give up the epoch: how many did.
fn revoked(alloc: Global, w: &mut World) -> u32
    ensures count { result ≡ length (filter is_done (steps w.old (revocations w.old)).0) }
    ensures after { w.new ≡ (steps w.old (revocations w.old)).1 }
    ensures cables { w.new.links.cables ≡ w.old.links.cables }
{
    fab_remap::revoke(alloc, w).unwrap()
}

/// The adopted routes that cross a cable pulled since the adoption; refused where none are adopted. Where memory runs
/// out in a refusal's line, nothing else is missing.
pub fn broken(alloc: Global, w: &World, printed: &mut Printed) -> Result<(), OutOfMemory>
    ensures done { OnOk result (IsDone Broken w.now w.now printed.new) }
    ensures err { IfErr result (λ e. IsLeft Broken w.now w.now e) }
{
    match w.adopted() {
        Some(_set) => {
            let Ok(()) = print_broken(alloc, w, printed) else {
                return Err(OutOfMemory::InDoing);
            };
            Ok(())
        }
        None => one_line(printed, Line::NoBroken, w.fabric()),
    }
}

// The lines of the broken routes, and the line that ends them.
fn print_broken(alloc: Global, w: &World, printed: &mut Printed) -> Result<(), AllocError>
    ensures { OnOk result (printed.new ≡ record {
      text = pairs_text (fabric_of w.now) (broken_pairs w.now) ++ line_text (fabric_of w.now) EndBroken;
      figures = [];
    }) }
{
    w.moment();
    let pairs = fab_remap::broken(alloc, w)?;
    let mut text = Vec::new(alloc);
    append_pairs(&mut text, w, pairs.list())?;
    print_line_onto(&mut text, &Line::EndBroken, w.fabric())?;
    printed.clear();
    printed.follow(&text)
}

// A line for each of these pairs.
fn append_pairs(text: &mut Vec<u8>, w: &World, pairs: &[(u16, u16)]) -> Result<(), AllocError>
    requires { AllByRecursion (AreHostsOf w.now) pairs.now }
    ensures { OnOk result (text.new.items ≡ text.old.items ++ pairs_text (fabric_of w.now) pairs.now) }
{
    for pair in pairs {
        append_pair(text, w, *pair)?;
    }
    Ok(())
}

// The line of a pair.
fn append_pair(text: &mut Vec<u8>, w: &World, pair: (u16, u16)) -> Result<(), AllocError>
    requires { AreHostsOf w.now pair }
    ensures { OnOk result (text.new.items ≡ text.old.items ++ pair_text (fabric_of w.now) pair) }
{
    w.moment();
    let line = Line::Broken {
        from: pair.0,
        to: pair.1,
    };
    print_line_onto(text, &line, w.fabric())
}

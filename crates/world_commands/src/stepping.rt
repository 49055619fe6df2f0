//! A single event, in a report's words.

ghost use Rattle.std.specs.Prelude.{◌≡◌, ◌∷◌, [], IfErr, IfSome, IsTrue, OnOk};
ghost use Rattle.net_defs.specs.Network.{has_vertex};
ghost use Rattle.world_defs.specs.Later.{IsLater};
ghost use Rattle.world_defs.specs.Step.{step};
ghost use Rattle.world_defs.specs.World.{fabric_of};
ghost use Rattle.run_defs.specs.Outcome.{event_of, named_by_tail, words_of};
ghost use Rattle.run_defs.specs.Output.{OneLine};
ghost use Rattle.run_defs.specs.declared.command.Command.TheVariants.{Step as StepCommand};
ghost use Rattle.run_defs.specs.declared.line.Line.TheVariants.{Step};
ghost use Rattle.fab_report.specs.Printed.{printed_of};
ghost use Rattle.fab_report.specs.There.{AreWordsOf};
ghost use Rattle.fab_script.specs.Ranges.{IsStepOf};
ghost use Rattle.fab_world.specs.Events.{IsChannelOf, IsGiven};
ghost use Rattle.world_commands.specs.Cut.{IsLeft, IsEventLeft};
ghost use Rattle.world_commands.specs.Done.{IsDone};
ghost use Rattle.world_commands.specs.Named.{IsNaming};

use crate::out_of_memory::{OutOfMemory, one_line};
use fab_report::Printed;
use fab_world::{Effect, Event, World};
use net_defs::End;
use run_defs::{Line, StepLine, StepWords};
use std::alloc::Global;

/// One event, and what it did; no event where the port that the line names has no cable. Where memory runs out,
/// nothing was done, or all but the line.
#[tactic(auto, using(crate::proofs::Done::stepped_so, crate::proofs::Done::idle_so))]
pub fn step(
    alloc: Global,
    w: &mut World,
    line: StepLine,
    printed: &mut Printed,
) -> Result<(), OutOfMemory>
    requires { IsStepOf (fabric_of w.old) line }
    ensures done { OnOk result (IsDone (StepCommand line) w.old w.new printed.new) }
    ensures err { IfErr result (λ e. IsLeft (StepCommand line) w.old w.new e) }
    ensures cables { IsLater w.old.links.cables w.new.links.cables }
{
    match event_of(w, line) {
        Some(event) => event_text(alloc, w, event, printed),
        None => one_line(printed, Line::Step(StepWords::Idle), w.fabric()),
    }
}

// The event of a step's line; none where the port that it names has no cable.
fn event_of(w: &World, line: StepLine) -> Option<Event>
    requires { IsStepOf (fabric_of w.now) line }
    ensures event { result ≡ event_of w.now line }
    ensures given { IfSome result (IsGiven w.now) }
{
    w.moment();
    match line {
        StepLine::Inject(host) => Some(Event::Inject(host)),
        StepLine::GiveUp(host) => Some(Event::GiveUp(host)),
        StepLine::Advance(at) => Some(Event::Advance(w.channel_from(at)?)),
        StepLine::Lose(at) => Some(Event::Lose(w.channel_from(at)?)),
        StepLine::Repeat(at) => Some(Event::Repeat(w.channel_from(at)?)),
        StepLine::Hold(at) => Some(Event::Hold(w.channel_from(at)?)),
        StepLine::Reset(at) => Some(Event::Reset(w.channel_from(at)?)),
        StepLine::Flip { at, bit, pattern } => Some(Event::Flip {
            channel: w.channel_from(at)?,
            bit,
            pattern,
        }),
        StepLine::Expire { host, peer } => Some(Event::Expire { host, peer }),
        StepLine::Replay(serial) => Some(Event::Replay(serial as u64)),
    }
}

// An event, and the line of what it did. Where memory runs out, the event may have happened.
fn event_text(
    alloc: Global,
    w: &mut World,
    event: Event,
    printed: &mut Printed,
) -> Result<(), OutOfMemory>
    requires { IsGiven w.old event }
    ensures text { OnOk result (printed.new ≡ printed_of (fabric_of w.old)
        (OneLine (Step (words_of (step w.old event).1 (step w.old event).0)) ∷ [])) }
    ensures after { OnOk result (w.new ≡ (step w.old event).1) }
    ensures err { IfErr result (IsEventLeft event w.old w.new) }
    ensures cables { IsLater w.old.links.cables w.new.links.cables }
{
    w.moment();
    let Ok(effect) = w.step(alloc, event) else {
        return Err(OutOfMemory::InDoing);
    };
    let words = words_of(w, &effect);
    one_line(printed, Line::Step(words), w.fabric())
}

// An effect in a report's words.
fn words_of(w: &World, effect: &Effect) -> StepWords
    requires { IsNaming w.now effect.now }
    ensures words { result ≡ words_of w.now effect.now }
    ensures of_fabric { AreWordsOf (fabric_of w.now) result }
{
    match effect {
        Effect::Idle | Effect::Staged | Effect::Said(_) => StepWords::Idle,
        Effect::Injected(number) => StepWords::Injected(*number),
        Effect::Moved(c) => StepWords::Moved(tail_of(w, *c)),
        Effect::Blocked(c) => StepWords::Blocked(tail_of(w, *c)),
        Effect::Arrived(host, heard) => StepWords::Arrived(*host, *heard),
        Effect::Dropped(cause) => StepWords::Dropped(*cause),
        Effect::Lost => StepWords::Lost,
        Effect::Reset => StepWords::Reset,
        Effect::Flipped => StepWords::Flipped,
        Effect::Expired => StepWords::Expired,
        Effect::GaveUp => StepWords::GaveUp,
        Effect::Repeated(serial) => StepWords::Repeated(*serial),
        Effect::Held(serial) => StepWords::Held(*serial),
        Effect::Replayed(c) => StepWords::Replayed(tail_of(w, *c)),
    }
}

// The end that a channel leaves: a report names the channel by it.
#[tactic(auto, using(crate::proofs::Steps::tail_named, crate::proofs::Steps::tail_there))]
fn tail_of(w: &World, c: u16) -> End
    requires { IsChannelOf w.now c }
    ensures named { result ≡ named_by_tail w.now c }
    ensures vertex { IsTrue (has_vertex (fabric_of w.now) result.v) }
{
    w.moment();
    let (tail, _head) = w.ends(c);
    tail
}

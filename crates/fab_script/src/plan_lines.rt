//! Lines that plan a fault: `plan lose`, `plan repeat`, `plan hold`, `plan flip` and `plan pull`. The second word
//! counts with the first.

ghost use Rattle.std.specs.Prelude.{◌≡◌, ◌∷◌, []};
ghost use Rattle.fab_text.specs.Line.{words_of};
ghost use Rattle.fab_text.specs.Fault.{and_then};
ghost use Rattle.run_defs.specs.Script.{OfName, of_ahead, of_bit, of_pattern, of_switch_port, said_by, plan_meant};
ghost use Rattle.run_defs.specs.Script.{plan_flip_meant, plan_pull_meant, plan_kinds, by_second, command_by};

use crate::counted::{one, three};
use crate::leading::after_keyword;
use crate::plain::one_within;
use crate::step_lines::MAX_PORT;
use crate::values::{byte, end, name, number};
use fab_text::{FaultKind, Words, is_keyword};
use port_graph::Fabric;
use run_defs::{Command, PlanKind};

// How far ahead a fault may be planned.
const MAX_AHEAD: u32 = 1_000_000_000;

/// The greatest first bit of a flip.
pub(crate) const MAX_BIT: u32 = 10_000;

/// `plan`, and what follows it. It stands in its caller, as the readers of lines `duo` do.
#[inline(always)]
pub(crate) fn plan(fabric: &Fabric, args: Words) -> Result<Command, FaultKind>
    ensures { result ≡ by_second fabric.now plan_kinds (words_of args.entry) }
{
    if let Some(left) = after_keyword(&args, b"lose") {
        return plan_for(fabric, PlanKind::Lose, left);
    }
    if let Some(left) = after_keyword(&args, b"repeat") {
        return plan_for(fabric, PlanKind::Repeat, left);
    }
    plan_by_word(fabric, args)
}

// The same by the second word, wherever it ends.
#[inline(never)]
fn plan_by_word(fabric: &Fabric, mut args: Words) -> Result<Command, FaultKind>
    ensures { result ≡ by_second fabric.now plan_kinds (words_of args.entry) }
{
    match args.next_word() {
        Some(second) => plan_by(fabric, second, args),
        None => Err(FaultKind::BadWord),
    }
}

// The plan that this word says.
fn plan_by(fabric: &Fabric, second: &[u8], args: Words) -> Result<Command, FaultKind>
    ensures { result ≡ command_by fabric.now plan_kinds second.now (words_of args.entry) }
{
    if is_keyword(second, b"lose") {
        plan_for(fabric, PlanKind::Lose, args)
    } else if is_keyword(second, b"repeat") {
        plan_for(fabric, PlanKind::Repeat, args)
    } else if is_keyword(second, b"hold") {
        plan_for(fabric, PlanKind::Hold, args)
    } else if is_keyword(second, b"flip") {
        plan_flip(fabric, args)
    } else if is_keyword(second, b"pull") {
        plan_pull(fabric, args)
    } else {
        Err(FaultKind::BadWord)
    }
}

// `N`
#[inline(always)]
fn plan_for(fabric: &Fabric, kind: PlanKind, args: Words) -> Result<Command, FaultKind>
    ensures { result ≡ and_then (said_by (of_ahead ∷ []) (words_of args.entry)) (plan_meant kind fabric.now) }
{
    if let Some(ahead) = one_within(args.rest(), 1, MAX_AHEAD) {
        let ahead = u64::from(ahead);
        return Ok(Command::Plan { ahead, kind });
    }
    let Some(ahead) = one(args) else {
        return Err(FaultKind::BadWord);
    };
    let ahead = u64::from(number(ahead, 1, MAX_AHEAD)?);
    Ok(Command::Plan { ahead, kind })
}

// `N BIT PATTERN`
fn plan_flip(fabric: &Fabric, args: Words) -> Result<Command, FaultKind>
    ensures { result ≡ and_then (said_by (of_ahead ∷ of_bit ∷ of_pattern ∷ []) (words_of args.entry))
        (plan_flip_meant fabric.now) }
{
    let Some((ahead, bit, pattern)) = three(args) else {
        return Err(FaultKind::BadWord);
    };
    let ahead = u64::from(number(ahead, 1, MAX_AHEAD)?);
    let bit = number(bit, 0, MAX_BIT)?;
    let pattern = byte(pattern, 1, u8::MAX)?;
    let kind = PlanKind::Flip { bit, pattern };
    Ok(Command::Plan { ahead, kind })
}

// `N V P`
fn plan_pull(fabric: &Fabric, args: Words) -> Result<Command, FaultKind>
    ensures { result ≡ and_then (said_by (of_ahead ∷ OfName ∷ of_switch_port ∷ []) (words_of args.entry))
        (plan_pull_meant fabric.now) }
{
    let Some((ahead, v, p)) = three(args) else {
        return Err(FaultKind::BadWord);
    };
    let ahead = u64::from(number(ahead, 1, MAX_AHEAD)?);
    name(v)?;
    let p = byte(p, 0, MAX_PORT)?;
    let at = end(fabric, v, p)?;
    let kind = PlanKind::Pull { at };
    Ok(Command::Plan { ahead, kind })
}

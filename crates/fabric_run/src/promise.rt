//! What every accepted text promises, and what follows from that: `specs/Promise.antt`, `specs/Left.antt` and
//! `specs/Following.antt` have the statements.

ghost use Rattle.std.specs.Prelude.{ℕ, ◌≤◌, List, length, Option};
ghost use Rattle.run_defs.specs.Session.{SessionState};
ghost use Rattle.input_texts.specs.Reading.{AcceptedText, IsAccepted, input_limit};
ghost use Rattle.fabric_run.specs.Ends.{IsHalfWritten, IsInterrupted, IsPartOfReport};
ghost use Rattle.fabric_run.specs.Following.{HasSoundMoments, HasActs, HasMetFaults};
ghost use Rattle.fabric_run.specs.Promise.{IsPromised};
ghost use Rattle.fabric_run.specs.Left.{InjectionsAreLeft};
ghost use Rattle.fabric_run.specs.Judged.{IsJudgeable, IsJudgedWithReport};

/// Every accepted text keeps its promise, whatever becomes of its run.
pub(crate) fn promised_texts()
    ensures { (text : List ℕ) (a : AcceptedText) → IsAccepted text a → IsPromised a }
{}

/// Every accepted text that an input may have leaves injections to its end.
pub(crate) fn left_injections()
    ensures { (text : List ℕ) (a : AcceptedText) → length text ≤ input_limit → IsAccepted text a
        → InjectionsAreLeft a }
{}

/// Every accepted text whose report says enough is judged yes with it.
pub(crate) fn judged_texts()
    ensures { (text : List ℕ) (a : AcceptedText) → IsAccepted text a → IsJudgeable text a → IsJudgedWithReport text a }
{}

/// What follows from a text's promise, which [`crate::run`] states: the world is right after its first commands and
/// where memory ran out for the next one, and the two hosts that restart are sound; the acts of its commands are one
/// list, which leads to each of these worlds, and by it clients are handed what was sent, and send tokens come back;
/// where injections are left, maps are doubtful and installations miss hosts only by faults or lost cables, and settles
/// end settled; and what the sink took is a prefix of the report, after a failed write and where memory ran out.
pub fn what_promises_imply()
    ensures moments { (a : AcceptedText) → IsPromised a → HasSoundMoments a }
    ensures acts { (a : AcceptedText) → IsPromised a → HasActs a }
    ensures met_faults { (a : AcceptedText) → IsPromised a → InjectionsAreLeft a → HasMetFaults a }
    ensures cut_off { (a : AcceptedText) (taken now : Option (List ℕ)) (last : SessionState) → IsPromised a
        → IsHalfWritten a taken now last → IsPartOfReport a taken now }
    ensures interrupted { (a : AcceptedText) (taken now : Option (List ℕ)) (left : SessionState) → IsPromised a
        → IsInterrupted a taken now left → IsPartOfReport a taken now }
{}

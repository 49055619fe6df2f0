//! What an ask answers: `specs/Truth.antt` has the statements.

ghost use Rattle.ask_laws.specs.Truth.{AskIsTrueOrDrowns, QuietAskIsHeard, DrownedAskFoundNothing, DrownedAskWasHarmed};

/// An ask answers the truth of the fabric that stood when its mapper was made, or it drowns, and doesn't drown where no
/// fault is planned for it and no cable went.
pub fn true_asks()
    ensures answers { AskIsTrueOrDrowns }
    ensures quiet { QuietAskIsHeard }
{}

/// An ask that drowned found nothing, and a planned fault harmed it, the injections were used up, or a cable went.
pub fn drowned_asks()
    ensures nothing { DrownedAskFoundNothing }
    ensures harmed { DrownedAskWasHarmed }
{}

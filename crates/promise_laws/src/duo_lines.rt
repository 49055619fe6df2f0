//! What the two hosts that restart come to in a run: `specs/Duos.antt` has the statements.

ghost use Rattle.promise_laws.specs.Duos.{DuoLinesDependOnTheDuo, DuoLinesKeepTheRest, OthersKeepTheDuo};
ghost use Rattle.promise_laws.specs.Duos.{DuosAreReached, LeftDuosAreReached, ReachedDuosAreSound, DuoPollsAreRight};

/// A line of the two hosts depends on them alone, and changes nothing else; every other command keeps them, and does
/// the same with any other two in their place.
pub fn dependence_on_the_duo()
    ensures lines { DuoLinesDependOnTheDuo }
    ensures rest { DuoLinesKeepTheRest }
    ensures others { OthersKeepTheDuo }
{}

/// After every run, and where memory ran out for the next command, the two hosts are reached from new ones of
/// incarnation 1: so what each incarnation got is a prefix of what it was sent, each token has one owner, and a poll
/// that prints sent, or unsure, is right.
pub fn duos_of_runs()
    ensures reached { DuosAreReached }
    ensures left { LeftDuosAreReached }
    ensures sound { ReachedDuosAreSound }
    ensures polls { DuoPollsAreRight }
{}

//! What each command of a run does: `specs/CommandActs.antt`, `specs/CutShort.antt` and `specs/OneAction.antt`
//! have the statements.

ghost use Rattle.promise_laws.specs.CommandActs.{DeedsAreSingleActs, ActsReach, RunsEndSound};
ghost use Rattle.promise_laws.specs.CommandActs.{RunsAreTheirActs, ActsOfRunsAreOne};
ghost use Rattle.promise_laws.specs.CutShort.{BegunMapsAreCutShort, CutCommandsLeaveSound};
ghost use Rattle.promise_laws.specs.OneAction.{ActsAreOneAction};

/// The acts of each command after a run may happen, and each is one action. Acts that may happen lead from a reached
/// world to a reached one, so that after each prefix of them the world is sound, as it is after every run.
pub fn acts_of_commands()
    ensures acts { DeedsAreSingleActs }
    ensures reach { ActsReach }
    ensures ended { RunsEndSound }
{}

/// The acts of a run are those of its commands, one command's after the other's: there is one list of them, they may
/// happen one after another, and they lead from the fabric's new world to the world after the run.
pub fn acts_of_all_commands()
    ensures lead { RunsAreTheirActs }
    ensures one { ActsOfRunsAreOne }
{}

/// A map that was begun and stopped is the command cut short: a prefix of the acts of its deed was done. And a
/// command that is cut short after a run leaves a sound world.
pub fn acts_of_cut_commands()
    ensures begun { BegunMapsAreCutShort }
    ensures sound { CutCommandsLeaveSound }
{}

/// Each act is one action, of one host, of one channel or of one cable: all other hosts stay with their clients, and
/// all other channels, but for the one that an injection enters, the channel or host that an advance leads into, and
/// those of a cable that a planned pull takes at an injection.
pub fn acts_of_one_actor()
    ensures { ActsAreOneAction }
{}

//! What every run over a fabric promises.

ghost use Rattle.promise_laws.specs.Moments.{ReachedWorldsAreRight};
ghost use Rattle.promise_laws.specs.Promised.{MomentsAreSound, RunsArePromised};

/// At every moment the installed routes have no cycle, messages have come once and in order, and each token has one
/// owner.
pub fn sound_moments()
    ensures { MomentsAreSound }
{}

/// Every reached world is sound; active tables are of the adopted routes; packets that no flip has met are honest, and
/// lawful but for those that are named; and windows, queues of sends and provided buffers are as is said there.
pub fn right_worlds()
    ensures { ReachedWorldsAreRight }
{}

/// A map that says complete is the mapper's part of the fabric, a deep one of a quiet fabric says so, and every
/// moment is sound.
pub fn promises_of_runs()
    ensures { RunsArePromised }
{}

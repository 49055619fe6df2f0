//! Worked examples, computed by the prover: each function's contract is the example, and its body is empty.

ghost use Rattle.std.specs.Prelude.{◌≡◌, [], ◌∷◌, codes};
ghost use Rattle.net_defs.specs.Examples.{two_hosts};
ghost use Rattle.gm_defs.specs.Connection.{connection};
ghost use Rattle.gm_defs.specs.Examples.{message};
ghost use Rattle.world_defs.specs.World.{new_world};
ghost use Rattle.world_defs.specs.Traffic.{got_on};
ghost use Rattle.world_defs.specs.Sound.{IsSound};
ghost use Rattle.world_defs.specs.Acts.{MayActAll};
ghost use Rattle.world_defs.specs.ActExamples.{adopting, planned_flip, flip_now, delivering, delivered_world};

/// The routes of two hosts at one switch may be adopted between a plan and an event.
#[tactic(auto, using(crate::proofs::ActMoments::acts_may_happen))]
pub fn routes_that_may_be_adopted()
    ensures acts { MayActAll (new_world two_hosts) adopting }
{}

/// A flip of eight bits may be planned and may happen, one of nine may not.
#[tactic(auto, using(crate::proofs::ActMoments::eight_bits_are_planned, crate::proofs::ActMoments::nine_bits_are_not_planned, crate::proofs::ActMoments::eight_bits_flip, crate::proofs::ActMoments::nine_bits_do_not_flip))]
pub fn flips_that_may_happen()
    ensures planned { MayActAll (new_world two_hosts) (planned_flip 255) }
    ensures not_planned { ¬ MayActAll (new_world two_hosts) (planned_flip 256) }
    ensures now { MayActAll (new_world two_hosts) (flip_now 255) }
    ensures not_now { ¬ MayActAll (new_world two_hosts) (flip_now 256) }
{}

/// A moment that acts lead to is sound: a message came once, though its frame came twice.
#[tactic(auto, using(crate::proofs::ActMoments::delivering_may_happen, crate::proofs::ActMoments::delivered_got, crate::proofs::ActMoments::delivered_is_sound))]
pub fn sound_moment_of_acts()
    ensures may { MayActAll (new_world two_hosts) delivering }
    ensures got { got_on delivered_world (connection 0 1 0) ≡ message (codes "ABC") ∷ [] }
    ensures sound { IsSound delivered_world }
{}

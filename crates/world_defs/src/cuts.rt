//! Worked examples of cables that are pulled and plugged, computed by the prover.

ghost use Rattle.std.specs.Prelude.{◌≡◌, ◌∷◌, [], ◌++◌, map, replicate, true, false, Some, None};
ghost use Rattle.net_defs.specs.declared.place.Answer.{Answer};
ghost use Rattle.net_defs.specs.Examples.{joined, host_end, switch_end};
ghost use Rattle.world_defs.specs.Crossed.{leaving};
ghost use Rattle.world_defs.specs.Links.{packet_in};
ghost use Rattle.world_defs.specs.declared.event.Event.{Event};
ghost use Rattle.world_defs.specs.declared.effect.Cause.{Cause};
ghost use Rattle.world_defs.specs.declared.effect.Effect.{Effect};
ghost use Rattle.world_defs.specs.declared.effect.Said.{Said};
ghost use Rattle.world_defs.specs.World.{fabric_of, may_adopt, has_to_send};
ghost use Rattle.world_defs.specs.Step.{step};
ghost use Rattle.world_defs.specs.Settle.{unacknowledged_in};
ghost use Rattle.world_defs.specs.Settled.{IsSettled};
ghost use Rattle.world_defs.specs.Traffic.{IsLawful, is_broken};
ghost use Rattle.world_defs.specs.Examples.{setup_routes, received, on_its_way, abc_frame};
ghost use Rattle.world_defs.specs.Cuts.{b_end, parted, plugs, taken_away, cut_off, renewed, to_be_sent, uncabled};
ghost use Rattle.world_defs.specs.Cuts.{kept_in, probed, pulled_at_once, parting_map, cut_calls, cut_settled};
ghost use Rattle.world_defs.specs.Cuts.{renewed_settled, second_map, given_up, second_install, second_settled};
ghost use Rattle.world_defs.specs.Cuts.{second_poll};

/// A pull takes a cable out, and a plug joins two ports that are there and have none, by a cable of the next number.
#[tactic(auto, using(crate::proofs::CutWorlds::pulls_and_plugs_pulls, crate::proofs::CutWorlds::pulls_and_plugs_cables, crate::proofs::CutWorlds::pulls_and_plugs_plugs, crate::proofs::CutWorlds::pulls_and_plugs_number, crate::proofs::CutWorlds::pulls_and_plugs_changes))]
pub fn pulls_and_plugs()
    ensures pulls { parted.0 ≡ Effect.Said Said.Done ∷ Effect.Idle ∷ [] }
    ensures cables { (fabric_of parted.1).cables ≡ joined (host_end 0) (switch_end 0 2) ∷ [] }
    ensures plugs { plugs.0 ≡ Effect.Idle ∷ Effect.Idle ∷ Effect.Idle ∷ Effect.Said Said.Done ∷ [] }
    ensures number { leaving plugs.1.links.cables (host_end 1) ≡ Some 4 }
    ensures changes { plugs.1.links.cables.changes ≡ 2 }
{}

/// A pull takes the packet on its cable and the copy in limbo, and counts none as dropped.
#[tactic(auto, using(crate::proofs::CutWorlds::pulls_take_packets_channel, crate::proofs::CutWorlds::pulls_take_packets_limbo, crate::proofs::CutWorlds::pulls_take_packets_drops))]
pub fn pulls_take_packets()
    ensures channel { packet_in taken_away.links 0 ≡ None }
    ensures limbo { taken_away.links.limbo ≡ [] }
    ensures drops { taken_away.dropped ≡ 0 }
{}

/// A switch drops a frame that would enter a new cable, and a host keeps it; a probe goes in.
#[tactic(auto, using(crate::proofs::CutWorlds::new_cables_dropped, crate::proofs::CutWorlds::new_cables_no_cable, crate::proofs::CutWorlds::new_cables_has, crate::proofs::CutWorlds::new_cables_has_no_cable, crate::proofs::CutWorlds::new_cables_has_new_cable, crate::proofs::CutWorlds::new_cables_kept, crate::proofs::CutWorlds::new_cables_probe))]
pub fn new_cables()
    ensures dropped { (step renewed (Event.Advance 0)).0 ≡ Effect.Dropped Cause.NewCable }
    ensures no_cable { (step cut_off (Event.Advance 0)).0 ≡ Effect.Dropped Cause.NoCable }
    ensures has { has_to_send to_be_sent 0 ≡ true }
    ensures has_no_cable { has_to_send uncabled 0 ≡ false }
    ensures has_new_cable { has_to_send kept_in.1 0 ≡ false }
    ensures kept { kept_in.0 ≡ Effect.Said Said.Done ∷ Effect.Idle ∷ [] }
    ensures probe { probed.0 ≡ Effect.Staged ∷ Effect.Injected 3 ∷ [] }
{}

/// A planned pull strikes at the injection, also where its cable isn't that of the packet, and harms none; it misses
/// where there is no cable.
#[tactic(auto, using(crate::proofs::CutWorlds::planned_pulls_own, crate::proofs::CutWorlds::planned_pulls_own_injected, crate::proofs::CutWorlds::planned_pulls_own_struck, crate::proofs::CutWorlds::planned_pulls_other, crate::proofs::CutWorlds::planned_pulls_other_struck, crate::proofs::CutWorlds::planned_pulls_missed, crate::proofs::CutWorlds::planned_pulls_planned_no_more))]
pub fn planned_pulls()
    ensures own { packet_in (pulled_at_once (host_end 0)).1.links 0 ≡ None }
    ensures own_injected { (pulled_at_once (host_end 0)).0 ≡ Effect.Injected 3 ∷ [] }
    ensures own_struck { ((pulled_at_once (host_end 0)).1.struck ≡ 1) × ((pulled_at_once (host_end 0)).1.harmed ≡ 0) }
    ensures other { packet_in (pulled_at_once b_end).1.links 0 ≡ Some abc_frame }
    ensures other_struck { ((pulled_at_once b_end).1.struck ≡ 1)
        × ((pulled_at_once b_end).1.links.cables.changes ≡ 1) }
    ensures missed { ((pulled_at_once (switch_end 0 6)).1.struck ≡ 0)
        × ((pulled_at_once (switch_end 0 6)).1.links.cables.changes ≡ 0) }
    ensures planned_no_more { (pulled_at_once (switch_end 0 6)).1.plan ≡ [] }
{}

/// A route is broken once a cable of it is pulled, and stays so whatever is plugged.
#[tactic(auto, using(crate::proofs::CutWorlds::broken_routes_whole, crate::proofs::CutWorlds::broken_routes_broken, crate::proofs::CutWorlds::broken_routes_broken_back, crate::proofs::CutWorlds::broken_routes_still))]
pub fn broken_routes()
    ensures whole { is_broken on_its_way 0 1 ≡ false }
    ensures broken { is_broken cut_off 0 1 ≡ true }
    ensures broken_back { is_broken cut_off 1 0 ≡ true }
    ensures still { is_broken renewed 0 1 ≡ true }
{}

/// A frame stays lawful where the cable ahead of it is pulled, and where a new one is plugged; the connection is
/// settled.
#[tactic(auto, using(crate::proofs::CutWorlds::traffic_of_cut_routes_lawful, crate::proofs::CutWorlds::traffic_of_cut_routes_before_a_new_cable, crate::proofs::CutWorlds::traffic_of_cut_routes_settled))]
pub fn traffic_of_cut_routes()
    ensures lawful { IsLawful cut_off 0 abc_frame }
    ensures before_a_new_cable { IsLawful renewed 0 abc_frame }
    ensures settled { IsSettled cut_off }
{}

/// A map in which a cable goes at the 37th injection: the ask that sent it drowns, and those after it.
#[tactic(auto, using(crate::proofs::CutWorlds::map_while_a_cable_goes_drowned, crate::proofs::CutWorlds::map_while_a_cable_goes_answers, crate::proofs::CutWorlds::map_while_a_cable_goes_packets))]
pub fn map_while_a_cable_goes()
    ensures drowned { parting_map.value.drowned ≡ 13 }
    ensures answers { map (λ e. e.answer) parting_map.value.entries ≡ Answer.Switch ∷ replicate 30 Answer.Nothing }
    ensures packets { (parting_map.world.injected ≡ 62) × (parting_map.world.dropped ≡ 61) }
{}

/// A message waits for a cable that was pulled and then for the epoch in which the new one is accepted, and comes.
#[tactic(auto, using(crate::proofs::CutWorlds::cable_renewed_calls, crate::proofs::CutWorlds::cable_renewed_waits, crate::proofs::CutWorlds::cable_renewed_waits_still, crate::proofs::CutWorlds::cable_renewed_answers, crate::proofs::CutWorlds::cable_renewed_may_not_adopt, crate::proofs::CutWorlds::cable_renewed_given_up, crate::proofs::CutWorlds::cable_renewed_installed, crate::proofs::CutWorlds::cable_renewed_settles, crate::proofs::CutWorlds::cable_renewed_message, crate::proofs::CutWorlds::cable_renewed_packets))]
pub fn cable_renewed()
    ensures calls { cut_calls.0
        ≡ Effect.Said Said.Done ∷ Effect.Said Said.Done ∷ Effect.Said (Said.Token 0)
        ∷ Effect.Said (Said.Token 0) ∷ Effect.Said Said.Done ∷ [] }
    ensures waits { (cut_settled.value.rounds ≡ 1)
        × (cut_settled.value.resets ≡ 0) × (unacknowledged_in cut_settled.world ≡ 1) }
    ensures waits_still { (renewed_settled.value.rounds ≡ 1)
        × (renewed_settled.value.resets ≡ 0) × (unacknowledged_in renewed_settled.world ≡ 1) }
    ensures answers { map (λ e. e.answer) second_map.value.entries
        ≡ Answer.Switch ∷ replicate 17 Answer.Nothing ++ Answer.Host 1 ∷ replicate 12 Answer.Nothing }
    ensures may_not_adopt { may_adopt second_map.world setup_routes ≡ false }
    ensures given_up { given_up.0 ≡ Effect.Said Said.Done ∷ Effect.Said Said.Done ∷ [] }
    ensures installed { second_install.value ≡ 2 }
    ensures settles { (second_settled.value.rounds ≡ 1)
        × (second_settled.value.resets ≡ 0) × (unacknowledged_in second_settled.world ≡ 0) }
    ensures message { second_poll.0 ≡ received 0 (7 ∷ []) ∷ [] }
    ensures packets { (second_poll.1.injected ≡ 132) × (second_poll.1.dropped ≡ 120) }
{}

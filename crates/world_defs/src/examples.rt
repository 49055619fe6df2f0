//! Worked examples, computed by the prover: each function's contract is the example, and its body is empty.

ghost use Rattle.std.specs.Prelude.{◌≡◌, ℕ, ◌∷◌, [], ◌++◌, map, replicate, true, false, Some, option_map};
ghost use Rattle.net_defs.specs.declared.place.Answer.{Answer};
ghost use Rattle.gm_defs.specs.declared.token.TokenPlace.{TokenPlace};
ghost use Rattle.gm_defs.specs.Token.{place_of_recv};
ghost use Rattle.world_defs.specs.Links.{packet_in, is_idle};
ghost use Rattle.world_defs.specs.declared.effect.Effect.{Effect};
ghost use Rattle.world_defs.specs.declared.effect.Said.{Said};
ghost use Rattle.net_defs.specs.Examples.{two_hosts};
ghost use Rattle.world_defs.specs.Node.{lane_of, peer_of, prio_of};
ghost use Rattle.world_defs.specs.World.{new_world, planned, node_at, first_unrevoked, may_adopt, adoption_of};
ghost use Rattle.world_defs.specs.declared.applied.Applied.{Applied};
ghost use Rattle.world_defs.specs.declared.event.Event.{Event};
ghost use Rattle.world_defs.specs.Table.{applied, new_table, revoked_table, whole_table};
ghost use Rattle.world_defs.specs.Step.{step};
ghost use Rattle.world_defs.specs.Examples.{setup_routes, setup_adoption, ready, given_up_by_one, given_up_by_both};
ghost use Rattle.world_defs.specs.Examples.{second_epoch, second_adoption, first_part, second_part, tables_in};
ghost use Rattle.world_defs.specs.declared.fault.Fault.{Fault};
ghost use Rattle.world_defs.specs.declared.heard.Heard.{Heard};
ghost use Rattle.world_defs.specs.Settle.{unacknowledged_in};
ghost use Rattle.world_defs.specs.Traffic.{IsLawful, IsLawfulTraffic, IsHonest, IsHonestTraffic};
ghost use Rattle.world_defs.specs.Sound.{IsSound};
ghost use Rattle.world_defs.specs.Settled.{IsSettled};
ghost use Rattle.world_defs.specs.Examples.{on_its_way, abc_frame, further_on, abc_further_on, spoiled, forged};
ghost use Rattle.world_defs.specs.Examples.{unserved, setup_map, setup_install, received, three_calls, three_plans};
ghost use Rattle.world_defs.specs.Examples.{three_settled, three_polls, abc_injected, abc_settled, abc_polls, waiting};
ghost use Rattle.world_defs.specs.Examples.{provided_late, served, served_poll, received_of, two_priorities};
ghost use Rattle.world_defs.specs.Examples.{priorities_settled, priorities_polls, stepwise, stepwise_settled};
ghost use Rattle.world_defs.specs.Examples.{stepwise_polls, long_calls, long_settled, long_polls};
ghost use Rattle.world_defs.specs.declared.client.ClientCause.{ClientCause};
ghost use Rattle.world_defs.specs.Client.{client_bytes};

/// A mapper asks 31 walks over the two hosts at one switch: 62 packets, of which three aren't dropped.
#[tactic(auto, using(crate::proofs::Rows::asks_of_the_map_answers, crate::proofs::Rows::asks_of_the_map_injections, crate::proofs::Rows::asks_of_the_map_drops))]
pub fn asks_of_the_map()
    ensures answers { map (λ e. e.answer) setup_map.value.entries ≡ Answer.Switch ∷ replicate 17 Answer.Nothing
        ++ Answer.Host 1 ∷ replicate 12 Answer.Nothing }
    ensures injections { setup_map.world.injected ≡ 62 }
    ensures drops { setup_map.world.dropped ≡ 59 }
{}

/// Its routes are installed with two packets more.
#[tactic(auto, using(crate::proofs::Rows::installation_both, crate::proofs::Rows::installation_injections, crate::proofs::Rows::installation_drops))]
pub fn installation()
    ensures both { setup_install.value ≡ 2 }
    ensures injections { setup_install.world.injected ≡ 64 }
    ensures drops { setup_install.world.dropped ≡ 59 }
{}

/// Three messages come once each and in order, though the first frame is copied, the second lost and an
/// acknowledgement held.
#[tactic(auto, using(crate::proofs::Rows::three_messages_calls, crate::proofs::Rows::three_messages_plans, crate::proofs::Rows::three_messages_rounds, crate::proofs::Rows::three_messages_resets, crate::proofs::Rows::three_messages_acknowledged, crate::proofs::Rows::three_messages_messages, crate::proofs::Rows::three_messages_injections, crate::proofs::Rows::three_messages_drops))]
pub fn three_messages()
    ensures calls { three_calls.0 ≡ Effect.Said Said.Done ∷ Effect.Said Said.Done
        ∷ map (λ t. Effect.Said (Said.Token t)) (0 ∷ 1 ∷ 2 ∷ 0 ∷ 1 ∷ 2 ∷ []) }
    ensures plans { three_plans.0 ≡ 65 ∷ 66 ∷ 68 ∷ [] }
    ensures rounds { three_settled.value.rounds ≡ 2 }
    ensures resets { three_settled.value.resets ≡ 0 }
    ensures acknowledged { unacknowledged_in three_settled.world ≡ 0 }
    ensures messages { three_polls.0 ≡ received 0 (10 ∷ []) ∷ received 1 (20 ∷ []) ∷ received 2 (30 ∷ []) ∷ [] }
    ensures injections { three_polls.1.injected ≡ 73 }
    ensures drops { three_polls.1.dropped ≡ 59 }
{}

/// A frame whose route byte and type are flipped comes back to its sender, which drops it; the next one arrives.
#[tactic(auto, using(crate::proofs::Rows::flipped_route_byte_frame, crate::proofs::Rows::flipped_route_byte_rounds, crate::proofs::Rows::flipped_route_byte_resets, crate::proofs::Rows::flipped_route_byte_acknowledged, crate::proofs::Rows::flipped_route_byte_polls, crate::proofs::Rows::flipped_route_byte_injections, crate::proofs::Rows::flipped_route_byte_drops))]
pub fn flipped_route_byte()
    ensures frame { packet_in abc_injected.links 0
        ≡ Some (record {
          wire = 131 ∷ 0 ∷ 8 ∷ 1 ∷ 2 ∷ 0 ∷ 0 ∷ 0 ∷ 1 ∷ 0 ∷ 1 ∷ 0 ∷ replicate 4 0
              ++ 0 ∷ 0 ∷ 0 ∷ 3 ∷ replicate 4 0 ++ 0 ∷ 3 ∷ 65 ∷ 66 ∷ 67 ∷ 146 ∷ [];
          marked = false;
          born = 1;
        }) }
    ensures rounds { abc_settled.value.rounds ≡ 2 }
    ensures resets { abc_settled.value.resets ≡ 0 }
    ensures acknowledged { unacknowledged_in abc_settled.world ≡ 0 }
    ensures polls { abc_polls.0 ≡ received 0 (65 ∷ 66 ∷ 67 ∷ []) ∷ Effect.Said (Said.Sent 0) ∷ [] }
    ensures injections { abc_polls.1.injected ≡ 67 }
    ensures drops { abc_polls.1.dropped ≡ 60 }
{}

/// A message for which no token fits isn't acknowledged, and comes once one is provided.
#[tactic(auto, using(crate::proofs::Rows::message_waits_for_a_token_first_rounds, crate::proofs::Rows::message_waits_for_a_token_first_resets, crate::proofs::Rows::message_waits_for_a_token_waits, crate::proofs::Rows::message_waits_for_a_token_nothing_yet, crate::proofs::Rows::message_waits_for_a_token_rounds, crate::proofs::Rows::message_waits_for_a_token_acknowledged, crate::proofs::Rows::message_waits_for_a_token_message, crate::proofs::Rows::message_waits_for_a_token_injections, crate::proofs::Rows::message_waits_for_a_token_drops))]
pub fn message_waits_for_a_token()
    ensures first_rounds { waiting.value.rounds ≡ 1 }
    ensures first_resets { waiting.value.resets ≡ 0 }
    ensures waits { unacknowledged_in waiting.world ≡ 1 }
    ensures nothing_yet { provided_late.0 ≡ Effect.Said Said.Nothing ∷ Effect.Said (Said.Token 1) ∷ [] }
    ensures rounds { served.value.rounds ≡ 1 }
    ensures acknowledged { unacknowledged_in served.world ≡ 0 }
    ensures message { served_poll.0 ≡ received 1 (1 ∷ 2 ∷ []) ∷ [] }
    ensures injections { served_poll.1.injected ≡ 68 }
    ensures drops { served_poll.1.dropped ≡ 59 }
{}

/// Lanes stand by the peers' addresses, and for one peer by priority; each is that of its peer and its priority.
pub fn lanes_of_peers()
    ensures first { lane_of 0 0 ≡ 0 }
    ensures urgent { lane_of 0 1 ≡ 1 }
    ensures next_peer { lane_of 1 0 ≡ 2 }
    ensures peer { peer_of 7 ≡ 3 }
    ensures priority { prio_of 7 ≡ 1 }
    ensures lane { (lane : ℕ) → lane_of (peer_of lane) (prio_of lane) ≡ lane }
    ensures one_peer { (peer prio : ℕ) → peer_of (lane_of peer prio) ≡ peer }
{}

/// Of two messages the one of priority 0 waits for a token, and that of priority 1 passes it.
#[tactic(auto, using(crate::proofs::Rows::priority_passes_calls, crate::proofs::Rows::priority_passes_rounds, crate::proofs::Rows::priority_passes_resets, crate::proofs::Rows::priority_passes_waits, crate::proofs::Rows::priority_passes_polls, crate::proofs::Rows::priority_passes_injections, crate::proofs::Rows::priority_passes_drops))]
pub fn priority_passes()
    ensures calls { two_priorities.0 ≡ Effect.Said Said.Done ∷ Effect.Said Said.Done
        ∷ map (λ t. Effect.Said (Said.Token t)) (0 ∷ 0 ∷ 1 ∷ []) }
    ensures rounds { priorities_settled.value.rounds ≡ 2 }
    ensures resets { priorities_settled.value.resets ≡ 0 }
    ensures waits { unacknowledged_in priorities_settled.world ≡ 1 }
    ensures polls { priorities_polls.0 ≡ received_of 1 0 (2 ∷ []) ∷ Effect.Said Said.Nothing ∷ [] }
    ensures injections { priorities_polls.1.injected ≡ 70 }
    ensures drops { priorities_polls.1.dropped ≡ 59 }
{}

/// A message of two fragments fills one buffer: between them the port isn't closed, and the settle brings the rest.
#[tactic(auto, using(crate::proofs::Rows::message_of_two_fragments_calls, crate::proofs::Rows::message_of_two_fragments_rounds, crate::proofs::Rows::message_of_two_fragments_resets, crate::proofs::Rows::message_of_two_fragments_acknowledged, crate::proofs::Rows::message_of_two_fragments_message, crate::proofs::Rows::message_of_two_fragments_injections))]
pub fn message_of_two_fragments()
    ensures calls { long_calls.0 ≡ Effect.Said Said.Done ∷ Effect.Said Said.Done ∷ Effect.Said (Said.Token 0)
        ∷ Effect.Said (Said.Token 0) ∷ Effect.Injected 3 ∷ Effect.Moved 3 ∷ Effect.Arrived 1 Heard.Fragment
        ∷ Effect.Said (Said.Refused (ClientCause.Filling 1)) ∷ [] }
    ensures rounds { long_settled.value.rounds ≡ 1 }
    ensures resets { long_settled.value.resets ≡ 0 }
    ensures acknowledged { unacknowledged_in long_settled.world ≡ 0 }
    ensures message { long_polls.0 ≡ received 0 (client_bytes 1017 5) ∷ [] }
    ensures injections { long_polls.1.injected ≡ 8 }
{}

/// Two frames step by step: a host's channel that is full takes no packet, a packet waits for another, and a lost one
/// is sent again.
#[tactic(auto, using(crate::proofs::Rows::step_by_step_effects, crate::proofs::Rows::step_by_step_rounds, crate::proofs::Rows::step_by_step_resets, crate::proofs::Rows::step_by_step_acknowledged, crate::proofs::Rows::step_by_step_messages, crate::proofs::Rows::step_by_step_injections, crate::proofs::Rows::step_by_step_drops))]
pub fn step_by_step()
    ensures effects { stepwise.0 ≡ Effect.Injected 65 ∷ Effect.Moved 3 ∷ Effect.Injected 66 ∷ Effect.Idle
        ∷ Effect.Blocked 3 ∷ Effect.Arrived 1 Heard.Message ∷ Effect.Moved 3 ∷ Effect.Lost ∷ [] }
    ensures rounds { stepwise_settled.value.rounds ≡ 1 }
    ensures resets { stepwise_settled.value.resets ≡ 0 }
    ensures acknowledged { unacknowledged_in stepwise_settled.world ≡ 0 }
    ensures messages { stepwise_polls.0 ≡ received 0 (1 ∷ []) ∷ received 1 (2 ∷ []) ∷ [] }
    ensures injections { stepwise_polls.1.injected ≡ 71 }
    ensures drops { stepwise_polls.1.dropped ≡ 59 }
{}

/// A later plan for an injection takes the earlier one's place; plans stand by rising injection.
pub fn plans_for_one_injection()
    ensures number { (planned (new_world two_hosts) 3 Fault.Lose).0 ≡ 3 }
    ensures last { (planned (planned (new_world two_hosts) 3 Fault.Lose).1 3 Fault.Hold).1.plan ≡ (3, Fault.Hold) ∷ [] }
    ensures others_stay { (planned (planned (new_world two_hosts) 3 Fault.Lose).1 1 Fault.Hold).1.plan
        ≡ (1, Fault.Hold) ∷ (3, Fault.Lose) ∷ [] }
{}

/// Before anything happened a world is sound, and with a frame on its way; not where a host has got what nobody sent.
#[tactic(auto, using(crate::proofs::Moments::first_is_sound, crate::proofs::Moments::way_is_sound, crate::proofs::Moments::forged_is_not_sound))]
pub fn soundness_of_moments()
    ensures first { IsSound (new_world two_hosts) }
    ensures on_its_way { IsSound on_its_way }
    ensures forged { ¬ IsSound forged }
{}

/// A frame goes by an adopted route and is the fragment of its number. One that was flipped isn't lawful, one of a
/// message that wasn't sent isn't honest.
#[tactic(auto, using(crate::proofs::Moments::frame_is_there, crate::proofs::Moments::way_is_lawful, crate::proofs::Moments::way_is_honest, crate::proofs::Moments::frame_is_further_on, crate::proofs::Moments::further_is_lawful, crate::proofs::Moments::spoiled_is_not_lawful, crate::proofs::Moments::unsent_is_not_honest))]
pub fn traffic_of_one_frame()
    ensures frame { packet_in on_its_way.links 0 ≡ Some abc_frame }
    ensures lawful { IsLawfulTraffic on_its_way }
    ensures honest { IsHonestTraffic on_its_way }
    ensures further_on { packet_in further_on.links 3 ≡ Some abc_further_on }
    ensures still_lawful { IsLawful further_on 3 abc_further_on }
    ensures flipped { ¬ IsLawfulTraffic spoiled }
    ensures not_sent { ¬ IsHonest (new_world two_hosts) abc_frame }
{}

/// A world is settled before anything happened, and where a message waits for a token; not while a frame is on its
/// way to one that fits.
#[tactic(auto, using(crate::proofs::Moments::first_is_settled, crate::proofs::Moments::unserved_is_settled, crate::proofs::Moments::way_is_not_settled))]
pub fn settled_worlds()
    ensures first { IsSettled (new_world two_hosts) }
    ensures waiting { IsSettled unserved }
    ensures on_its_way { ¬ IsSettled on_its_way }
{}

/// While an epoch stands, the adopted routes may be adopted again, and no others; once both hosts gave it up the
/// second begins. A part of the first is old at a host that gave it up, and at one that has seen the second.
#[tactic(auto, using(crate::proofs::Epochs::two_epochs_kept, crate::proofs::Epochs::two_epochs_may_keep, crate::proofs::Epochs::two_epochs_no_other, crate::proofs::Epochs::two_epochs_given_up, crate::proofs::Epochs::two_epochs_not_yet, crate::proofs::Epochs::two_epochs_first_left, crate::proofs::Epochs::two_epochs_nothing_active, crate::proofs::Epochs::two_epochs_may_begin, crate::proofs::Epochs::two_epochs_begun, crate::proofs::Epochs::two_epochs_tables, crate::proofs::Epochs::two_epochs_born, crate::proofs::Epochs::two_epochs_given_up_is_old, crate::proofs::Epochs::two_epochs_late_is_old, crate::proofs::Epochs::two_epochs_taken, crate::proofs::Epochs::two_epochs_nothing_to_give_up))]
pub fn two_epochs()
    ensures kept { adoption_of ready 0 setup_routes ≡ setup_adoption }
    ensures may_keep { may_adopt ready setup_routes ≡ true }
    ensures no_other { may_adopt ready [] ≡ false }
    ensures given_up { given_up_by_one.0 ≡ Effect.Said Said.Done ∷ [] }
    ensures not_yet { may_adopt given_up_by_one.1 setup_routes ≡ false }
    ensures first_left { first_unrevoked given_up_by_one.1 1 ≡ Some 1 }
    ensures nothing_active { tables_in given_up_by_both.1 ≡ replicate 2 (revoked_table new_table 1) }
    ensures may_begin { may_adopt given_up_by_both.1 setup_routes ≡ true }
    ensures begun { second_epoch.adopted ≡ Some second_adoption }
    ensures tables { tables_in second_epoch ≡ revoked_table new_table 1 ∷ whole_table setup_routes 1 2 ∷ [] }
    ensures born { second_epoch.links.epoch ≡ 2 }
    ensures given_up_is_old { option_map (λ p. (applied (node_at given_up_by_both.1 1).table p).0) first_part
        ≡ Some Applied.Old }
    ensures late_is_old { option_map (λ p. (applied (node_at second_epoch 1).table p).0) first_part ≡ Some Applied.Old }
    ensures taken { option_map (λ p. (applied (node_at second_epoch 0).table p).1) second_part
        ≡ Some (whole_table setup_routes 0 2) }
    ensures nothing_to_give_up { step (new_world two_hosts) (Event.Revoke 0) ≡ (Effect.Idle, new_world two_hosts) }
{}

//! Worked examples, computed by the prover: each function's contract is the example, and its body is empty.

ghost use Rattle.std.specs.Prelude.{◌≡◌, ◌∷◌, [], ◌+◌, pos, negsuc, true, false};
ghost use Rattle.net_defs.specs.Examples.{two_hosts, self_cabled, host_end, switch_end};
ghost use Rattle.world_defs.specs.History.{first_history};
ghost use Rattle.world_defs.specs.Switch.{aim, after_aim};
ghost use Rattle.world_defs.specs.Links.{packet_in, empty_links, is_idle, put};
ghost use Rattle.world_defs.specs.Advance.{advance, course};
ghost use Rattle.world_defs.specs.Fault.{lose, reset, repeat, hold, flip, replay, next_limbo, caught_as, pull, plug};
ghost use Rattle.world_defs.specs.Fault.{accept};
ghost use Rattle.world_defs.specs.Hops.{hops_left, total_hops, is_stuck};
ghost use Rattle.world_defs.specs.Lone.{lone_place};
ghost use Rattle.net_defs.specs.declared.place.Place.{Place};
ghost use Rattle.packet_defs.specs.declared.kind.Kind.{Kind};
ghost use Rattle.packet_defs.specs.Packet.{packet_of};
ghost use Rattle.world_defs.specs.LinkExamples.{probe, alone, advanced, in_the_way, face_to_face, delayed, copied};
ghost use Rattle.world_defs.specs.LinkExamples.{held_on_b, without_b, with_b};
ghost use Rattle.world_defs.specs.declared.turned.Turned.{Turned};
ghost use Rattle.world_defs.specs.declared.moved.Why.{Why};
ghost use Rattle.world_defs.specs.declared.moved.Course.{Course};
ghost use Rattle.world_defs.specs.declared.moved.Moved.{Moved};
ghost use Rattle.world_defs.specs.declared.replayed.Replayed.{Replayed};

/// Where a switch of eight ports sends a packet that entered by port 6.
pub fn aims()
    ensures out { aim 8 6 (probe (pos 1 ∷ [])) ≡ Turned.Out 7 }
    ensures stripped { after_aim (Turned.Out 7) (131 ∷ 0 ∷ 5 ∷ 173 ∷ []) ≡ 0 ∷ 5 ∷ 27 ∷ [] }
    ensures out_of_range { aim 8 6 (131 ∷ 0 ∷ 5 ∷ 173 ∷ []) ≡ Turned.OutOfRange }
    ensures below_zero { aim 8 6 (probe (negsuc 6 ∷ [])) ≡ Turned.OutOfRange }
    ensures no_route_byte { aim 8 6 (0 ∷ 5 ∷ 27 ∷ []) ≡ Turned.NotRoute }
    ensures empty_head { aim 8 6 (0 ∷ []) ≡ Turned.NotRoute }
{}

/// A packet of route +3 from host 0 goes through the switch to host 1.
pub fn packet_to_the_other_host()
    ensures idle_before { is_idle (empty_links two_hosts) ≡ true }
    ensures two_hops { total_hops (alone two_hosts 0 (pos 3 ∷ [])) ≡ 2 }
    ensures onto_its_way { (advance (alone two_hosts 0 (pos 3 ∷ [])) 0).0 ≡ Moved.To 3 }
    ensures one_hop { total_hops (advanced (alone two_hosts 0 (pos 3 ∷ [])) (0 ∷ [])) ≡ 1 }
    ensures arrived { (advance (advanced (alone two_hosts 0 (pos 3 ∷ [])) (0 ∷ [])) 3).0
        ≡ Moved.AtHost 1 (0 ∷ 5 ∷ 27 ∷ []) }
    ensures idle_after { advanced (alone two_hosts 0 (pos 3 ∷ [])) (0 ∷ 3 ∷ []) ≡ empty_links two_hosts }
    ensures nothing_there { (advance (empty_links two_hosts) 2).0 ≡ Moved.Empty }
{}

/// A switch drops a packet without a turn, with a turn to port 8, and with one to port 6, which has no cable.
pub fn dropped_packets()
    ensures not_route { (advance (alone two_hosts 0 []) 0).0 ≡ Moved.Dropped Why.NotRoute }
    ensures out_of_range { (advance (alone two_hosts 0 (pos 6 ∷ [])) 0).0 ≡ Moved.Dropped Why.OutOfRange }
    ensures no_cable { (advance (alone two_hosts 0 (pos 4 ∷ [])) 0).0 ≡ Moved.Dropped Why.NoCable }
    ensures gone { is_idle (advance (alone two_hosts 0 (pos 4 ∷ [])) 0).1 ≡ true }
    ensures course { course (first_history two_hosts) 0 (probe (pos 4 ∷ [])) ≡ Course.Drops Why.NoCable }
{}

/// A packet enters again the channel that it leaves; on a full channel it waits, and two that wait for each other are
/// stuck.
pub fn blocked_packets()
    ensures same_channel { (advance (advanced (alone self_cabled 0 (pos 3 ∷ pos 1 ∷ negsuc 0 ∷ [])) (0 ∷ 4 ∷ [])) 6).0
        ≡ Moved.To 6 }
    ensures at_its_end { (advance (advanced (alone self_cabled 0 (pos 3 ∷ pos 1 ∷ negsuc 0 ∷ []))
        (0 ∷ 4 ∷ 6 ∷ [])) 6).0 ≡ Moved.Dropped Why.NotRoute }
    ensures full { advance in_the_way 0 ≡ (Moved.Blocked 3, in_the_way) }
    ensures not_stuck { is_stuck in_the_way ≡ false }
    ensures first_waits { (advance face_to_face 6).0 ≡ Moved.Blocked 7 }
    ensures second_waits { (advance face_to_face 7).0 ≡ Moved.Blocked 6 }
    ensures stuck { is_stuck face_to_face ≡ true }
    ensures idle_is_not { is_stuck (empty_links self_cabled) ≡ false }
{}

/// Where a packet alone ends, from the channel of host 0 on.
pub fn places_of_lone_packets()
    ensures other_host { lone_place 2 (first_history two_hosts) 0 (probe (pos 3 ∷ [])) ≡ Place.Host 1 }
    ensures switch { lone_place 1 (first_history two_hosts) 0 (probe []) ≡ Place.Switch 0 2 }
    ensures back { lone_place 2 (first_history two_hosts) 0 (probe (pos 0 ∷ [])) ≡ Place.Host 0 }
    ensures outside { lone_place 2 (first_history two_hosts) 0 (probe (pos 6 ∷ [])) ≡ Place.Nothing }
    ensures past_a_host { lone_place 3 (first_history two_hosts) 0 (probe (pos 3 ∷ pos 1 ∷ [])) ≡ Place.Nothing }
    ensures self_cabled { lone_place 4 (first_history self_cabled) 0 (probe (pos 3 ∷ pos 1 ∷ negsuc 0 ∷ []))
        ≡ Place.Switch 1 2 }
{}

/// What a cable may do to the packet of host 0.
pub fn faults()
    ensures lost { lose (alone two_hosts 0 (pos 3 ∷ [])) 0 ≡ (true, empty_links two_hosts) }
    ensures nothing_lost { lose (empty_links two_hosts) 0 ≡ (false, empty_links two_hosts) }
    ensures reset { (reset (alone two_hosts 0 (pos 3 ∷ [])) 0).0 ≡ true }
    ensures repeated { (repeat (alone two_hosts 0 (pos 3 ∷ [])) 0).0 ≡ Some 0 }
    ensures held { (hold (alone two_hosts 0 (pos 3 ∷ [])) 0).0 ≡ Some 0 }
    ensures channel_empty { is_idle delayed ≡ true }
    ensures next_serial { (hold copied 0).0 ≡ Some 1 }
    ensures nothing_held { (hold (empty_links two_hosts) 0).0 ≡ None }
    ensures least { next_limbo copied 0 ≡ Some 0 }
    ensures none_left { next_limbo copied 1 ≡ None }
    ensures back { (replay delayed 0).0 ≡ Replayed.Back 0 }
    ensures as_before { packet_in (replay delayed 0).1 0 ≡ packet_in (alone two_hosts 0 (pos 3 ∷ [])) 0 }
    ensures once { (replay (replay delayed 0).1 0).0 ≡ Replayed.Unknown }
    ensures busy { replay copied 0 ≡ (Replayed.Busy 0, copied) }
{}

/// A flip marks a packet, and a marked packet is flipped no more.
pub fn flips()
    ensures flipped { (flip (alone two_hosts 0 (pos 3 ∷ [])) 0 6 193).0 ≡ true }
    ensures wire { packet_in (flip (alone two_hosts 0 (pos 3 ∷ [])) 0 6 193).1 0
        ≡ Some (record { wire = 128 ∷ 4 ∷ 5 ∷ 173 ∷ []; marked = true; born = 0 }) }
    ensures once { (flip (flip (alone two_hosts 0 (pos 3 ∷ [])) 0 6 193).1 0 6 193).0 ≡ false }
    ensures no_pattern { (flip (alone two_hosts 0 (pos 3 ∷ [])) 0 6 0).0 ≡ false }
    ensures past_the_end { (flip (alone two_hosts 0 (pos 3 ∷ [])) 0 25 1).0 ≡ false }
    ensures no_packet { (flip (empty_links two_hosts) 0 6 193).0 ≡ false }
{}

/// The cable of host b is pulled with what it holds, and another is plugged: it takes packets of mapping alone until
/// the cables are accepted.
pub fn changed_cables()
    ensures pulled { (pull (alone two_hosts 2 []) (switch_end 0 5)).0 ≡ true }
    ensures with_its_packet { is_idle (pull (alone two_hosts 2 []) (switch_end 0 5)).1 ≡ true }
    ensures with_its_limbo { caught_as (pull held_on_b (switch_end 0 5)).1 0 ≡ None }
    ensures others_stay { packet_in without_b 0 ≡ packet_in (alone two_hosts 0 (pos 3 ∷ [])) 0 }
    ensures no_cable { (advance without_b 0).0 ≡ Moved.Dropped Why.NoCable }
    ensures pulled_once { pull without_b (host_end 1) ≡ (false, without_b) }
    ensures plugged { (plug without_b (host_end 1) (switch_end 0 5)).0 ≡ true }
    ensures used_port { plug with_b (host_end 1) (switch_end 0 4) ≡ (false, with_b) }
    ensures probe_enters { (advance with_b 0).0 ≡ Moved.To 5 }
    ensures message_is_dropped { course with_b.cables 0 (packet_of (pos 3 ∷ []) Kind.Gm [])
        ≡ Course.Drops Why.NewCable }
    ensures accepted { course (accept with_b).cables 0 (packet_of (pos 3 ∷ []) Kind.Gm []) ≡ Course.Enters 5 }
    ensures next_epoch { (accept with_b).epoch ≡ 1 }
    ensures born_then { packet_in (put (accept with_b) 1 []).1 1
        ≡ Some (record { wire = []; marked = false; born = 1 }) }
{}

//! Worked examples, computed by the prover: each function's contract is the example, and its body is empty.

ghost use Rattle.std.specs.Prelude.{◌≡◌, ◌∷◌, [], ◌++◌, codes, drop, map, replicate, length, true, false};
ghost use Rattle.gm_defs.specs.declared.frame.GmBody.{GmBody};
ghost use Rattle.gm_defs.specs.declared.token.Took.{Took};
ghost use Rattle.gm_defs.specs.declared.token.TokenPlace.{TokenPlace};
ghost use Rattle.gm_defs.specs.Body.{frame_bytes, ack_bytes, decode, is_head, is_last};
ghost use Rattle.gm_defs.specs.Fragment.{pieces, fragments, frame_of, whole_below, begun_below, piece_count};
ghost use Rattle.gm_defs.specs.Connection.{connection, key_of, ack_on, starting, due, sent_one, acknowledged, expired};
ghost use Rattle.gm_defs.specs.Connection.{offered, unacknowledged, is_spent, took};
ghost use Rattle.gm_defs.specs.Token.{size_for_length, fits, HasOneOwner, place_of_send, place_of_recv, can_take};
ghost use Rattle.gm_defs.specs.Token.{has_begun, PortEvent};
ghost use Rattle.gm_defs.specs.Port.{filled, is_bad_size, is_too_long, sent_with, provided_with, finished, delivered};
ghost use Rattle.gm_defs.specs.Port.{next_event, polled, unfinished, filling_count};
ghost use Rattle.gm_defs.specs.Examples.{message, abc, answer, busy_port, sends_of, provided_of, events_of, sent_event};
ghost use Rattle.gm_defs.specs.Examples.{first_part, last_part, roomy_port, filling_port, filled_port};

/// A frame of three bytes and its acknowledgement.
pub fn bodies_of_frames()
    ensures frame { frame_bytes abc (codes "ABC")
        ≡ 1 ∷ 2 ∷ 0 ∷ 0 ∷ 0 ∷ 1 ∷ 0 ∷ 1 ∷ 0 ∷ 0 ∷ 0 ∷ 0 ∷ 0 ∷ 0 ∷ 0 ∷ 0 ∷ 3 ∷ 0 ∷ 0 ∷ 0 ∷ 0 ∷ 0 ∷ 3 ∷ 65 ∷ 66 ∷ 67
        ∷ [] }
    ensures read { decode (frame_bytes abc (codes "ABC")) ≡ Ok (GmBody.Frame abc) }
    ensures too_long { decode (frame_bytes abc (codes "ABCD")) ≡ Err (record {}) }
    ensures other_version { decode (1 ∷ 1 ∷ drop 2 (frame_bytes abc (codes "ABC"))) ≡ Err (record {}) }
    ensures acknowledgement { ack_bytes answer ≡ 2 ∷ 2 ∷ 0 ∷ 1 ∷ 0 ∷ 0 ∷ 1 ∷ 0 ∷ 0 ∷ 0 ∷ 1 ∷ [] }
    ensures acknowledged { decode (ack_bytes answer) ≡ Ok (GmBody.Ack answer) }
    ensures third_priority { decode (ack_bytes (record answer { prio = 2 })) ≡ Err (record {}) }
    ensures nothing { decode [] ≡ Err (record {}) }
    ensures wrong_port { is_head (record abc { dport = 8 }) ≡ false }
    ensures wrong_priority { is_head (record abc { prio = 2 }) ≡ false }
    ensures wrong_offset { is_head (record abc { offset = 3 }) ≡ false }
    ensures later_offset { is_head last_part ≡ true }
    ensures between_pieces { is_head (record last_part { offset = 1015; len = 2 }) ≡ false }
    ensures greatest { is_head (record abc { total = 65528; len = 1016 }) ≡ true }
    ensures past_greatest { is_head (record abc { total = 65529; len = 1016 }) ≡ false }
    ensures first_of_two { is_last 1017 0 ≡ false }
    ensures last_of_two { is_last 1017 1016 ≡ true }
    ensures only_one { is_last 0 0 ≡ true }
{}

/// A frame belongs to the connection from its sender, an acknowledgement to the one to its sender, each to that of
/// its priority.
pub fn connections_of_bodies()
    ensures frame { key_of (GmBody.Frame abc) ≡ connection 0 1 0 }
    ensures acknowledgement { key_of (GmBody.Ack answer) ≡ connection 0 1 1 }
    ensures answered { ack_on (connection 0 1 1) 1 ≡ answer }
{}

/// Pieces of messages, their numbers on a connection, and what is whole below a number.
pub fn pieces_of_messages()
    ensures empty_has_one { map (λ f. f.part) (pieces (message [])) ≡ [] ∷ [] }
    ensures one { length (pieces (message (replicate 1016 7))) ≡ 1 }
    ensures two { map (λ f. f.offset) (pieces (message (replicate 1017 7))) ≡ 0 ∷ 1016 ∷ [] }
    ensures greatest { piece_count 65528 ≡ 65 }
    ensures first { frame_of (connection 0 1 0) (message (codes "ABC") ∷ message [] ∷ []) 0 ≡ Some (abc, codes "ABC") }
    ensures not_sent { frame_of (connection 0 1 0) (message (codes "ABC") ∷ message [] ∷ []) 2 ≡ None }
    ensures both_whole { whole_below (message (replicate 1017 7) ∷ message [] ∷ []) 3 ≡ 2 }
    ensures one_whole { whole_below (message (replicate 1017 7) ∷ message [] ∷ []) 2 ≡ 1 }
    ensures begun { begun_below (message [] ∷ message (replicate 1017 7) ∷ []) 2 ≡ replicate 1016 7 }
    ensures none_begun { begun_below (message [] ∷ message (replicate 1017 7) ∷ []) 3 ≡ [] }
{}

/// Two messages are offered; the first is sent, the timer runs out, it is sent again and acknowledged.
pub fn numbers_of_a_connection()
    ensures nothing_due { due (starting 0) ≡ None }
    ensures first_due { due (offered (starting 0) 2) ≡ Some 0 }
    ensures sent { sent_one (offered (starting 0) 2) ≡ record { base = 0; cursor = 1; top = 1; next = 2 } }
    ensures again { due (expired (sent_one (offered (starting 0) 2))) ≡ Some 0 }
    ensures acknowledged { acknowledged (expired (sent_one (offered (starting 0) 2))) 1
        ≡ record { base = 1; cursor = 1; top = 1; next = 2 } }
    ensures never_sent { acknowledged (sent_one (offered (starting 0) 2)) 2 ≡ sent_one (offered (starting 0) 2) }
    ensures one_left { unacknowledged (acknowledged (sent_one (offered (starting 0) 2)) 1) ≡ 1 }
    ensures window_full { due (record { base = 0; cursor = 8; top = 8; next = 9 }) ≡ None }
    ensures last_number { is_spent (starting 4294967294) 1 ≡ false }
    ensures spent { is_spent (starting 4294967294) 2 ≡ true }
    ensures taken { took 3 3 true true ≡ Took.Whole }
    ensures taken_in_part { took 3 3 true false ≡ Took.Part }
    ensures no_token { took 3 3 false true ≡ Took.NoToken }
    ensures repeated { took 3 2 true true ≡ Took.NotNext }
{}

/// Sizes of buffers, and where a port's tokens are.
pub fn sizes_of_tokens()
    ensures smallest { size_for_length 8 ≡ Some 4 }
    ensures next_size { size_for_length 9 ≡ Some 5 }
    ensures greatest { size_for_length 65528 ≡ Some 16 }
    ensures none { size_for_length 65529 ≡ None }
    ensures fitting { fits 4 0 8 0 ≡ true }
    ensures too_large { fits 5 0 8 0 ≡ false }
    ensures other_priority { fits 4 0 8 1 ≡ false }
    ensures one_owner { HasOneOwner busy_port }
    ensures queued { place_of_send busy_port 1 ≡ Some TokenPlace.Queue }
    ensures in_event { place_of_send busy_port 0 ≡ Some TokenPlace.Event }
    ensures at_client { place_of_send busy_port 2 ≡ None }
    ensures provided { place_of_recv busy_port 0 ≡ Some TokenPlace.Provided }
    ensures taken { can_take busy_port (record abc { total = 8; len = 8 }) ≡ true }
    ensures not_taken { can_take busy_port (record abc { total = 9; len = 9 }) ≡ false }
{}

/// What calls make of a port: its sends by token, its provided tokens and its events.
pub fn ports_after_calls()
    ensures limit { is_too_long 65528 ≡ false }
    ensures past_limit { is_too_long 65529 ≡ true }
    ensures greatest_size { is_bad_size 16 1 ≡ false }
    ensures past_greatest { is_bad_size 17 0 ≡ true }
    ensures third_priority { is_bad_size 16 2 ≡ true }
    ensures begins_with_message { filled (codes "........") 0 (codes "ABC") ≡ codes "ABC....." }
    ensures goes_on { filled (codes "ABC.....") 3 (codes "DE") ≡ codes "ABCDE..." }
    ensures sent { sends_of (sent_with busy_port 2 (codes "DE")) ≡ 1 ∷ 2 ∷ [] }
    ensures sent_before { sends_of (sent_with busy_port 0 (codes "DE")) ≡ 0 ∷ 1 ∷ [] }
    ensures finished { events_of (finished busy_port 1) ≡ 0 ∷ 1 ∷ 1 ∷ [] }
    ensures none_left { unfinished (finished busy_port 1) ≡ 0 }
    ensures provided { provided_of (provided_with busy_port
        (record { token = 2; size = 4; prio = 1; filling = None; buffer = [] })) ≡ 0 ∷ 2 ∷ [] }
    ensures delivered { events_of (delivered busy_port abc (codes "ABC")) ≡ 0 ∷ 1 ∷ 0 ∷ [] }
    ensures used { provided_of (delivered busy_port abc (codes "ABC")) ≡ [] }
    ensures first_event { next_event busy_port ≡ Some (sent_event 0 []) }
    ensures others { events_of (polled busy_port) ≡ 1 ∷ [] }
{}

/// A message of two fragments fills one buffer. Once it has begun, the token takes its next fragment and nothing else:
/// no other message of that host and priority begins, and one of another host goes to another token.
pub fn message_in_two_fragments()
    ensures begins { can_take roomy_port first_part ≡ true }
    ensures later_before_first { can_take roomy_port last_part ≡ false }
    ensures begun { has_begun filling_port 0 0 ≡ true }
    ensures one_filling { filling_count filling_port ≡ 1 }
    ensures no_event { events_of filling_port ≡ [] }
    ensures still_provided { place_of_recv filling_port 0 ≡ Some TokenPlace.Provided }
    ensures again { can_take filling_port first_part ≡ false }
    ensures next { can_take filling_port last_part ≡ true }
    ensures other_length { can_take filling_port (record last_part { total = 1018; len = 2 }) ≡ false }
    ensures other_host { can_take filling_port (record last_part { src = 2 }) ≡ false }
    ensures other_first { provided_of (delivered filling_port (record first_part { src = 2 }) (replicate 1016 8))
        ≡ 0 ∷ 1 ∷ [] }
    ensures both_filling { filling_count (delivered filling_port (record first_part { src = 2 }) (replicate 1016 8))
        ≡ 2 }
    ensures whole { next_event filled_port
        ≡ Some (PortEvent.Received 0 (replicate 1017 7 ++ replicate 1023 0) 0 0 0 1017) }
    ensures other_left { provided_of filled_port ≡ 1 ∷ [] }
    ensures none_filling { filling_count filled_port ≡ 0 }
{}

//! Worked examples, computed by the prover: each function's contract is the example, and its body is empty.

ghost use Rattle.std.specs.Prelude.{◌≡◌, ◌∷◌, [], true, false, Some, None};
ghost use Rattle.gm_conn.specs.declared.refusal.OfferRefusal.{OfferRefusal};
ghost use Rattle.gm_conn.specs.declared.event.PairEvent.TheVariants.{Emit, EmitAck, Deliver, Expire};
ghost use Rattle.gm_conn.specs.Halves.{due_frame, finished, heard_ack, oldest_finished, without_finished};
ghost use Rattle.gm_conn.specs.Halves.{offer_refusal};
ghost use Rattle.gm_conn.specs.Pair.{step, after_all};
ghost use Rattle.gm_conn.specs.Examples.{first_message, second_message, two_emitted, done, late, half_done};
ghost use Rattle.gm_conn.specs.Examples.{two_pieces, long_emitted};

/// Of two emitted frames the second comes first, a frame comes twice, no token fits, and an acknowledgement comes.
pub fn events_of_a_pair()
    ensures not_the_next { (after_all two_emitted (Deliver 1 true ∷ [])).taken ≡ [] }
    ensures in_order { (after_all two_emitted (Deliver 0 true ∷ Deliver 1 true ∷ [])).taken
        ≡ first_message ∷ second_message ∷ [] }
    ensures repeated { (after_all two_emitted (Deliver 0 true ∷ Deliver 0 true ∷ [])).taken ≡ first_message ∷ [] }
    ensures no_token { (after_all two_emitted (Deliver 0 false ∷ [])).received ≡ 0 }
    ensures acknowledged { (after_all two_emitted (Deliver 0 true ∷ EmitAck ∷ Deliver 2 true ∷ [])).numbers
        ≡ record { base = 1; cursor = 2; top = 2; next = 2 } }
    ensures nothing_due { step two_emitted Emit ≡ (false, two_emitted) }
    ensures no_packet { step two_emitted (Deliver 2 true) ≡ (false, two_emitted) }
    ensures expired { (after_all two_emitted (Expire ∷ [])).numbers
        ≡ record { base = 0; cursor = 0; top = 2; next = 2 } }
{}

/// Of a message of two fragments the second is due; the message is finished, and taken whole, with its last fragment.
pub fn message_of_two_fragments()
    ensures due { due_frame two_pieces ≡ Some record {
      head = record {
        src = 0;
        dst = 1;
        sport = 0;
        dport = 1;
        prio = 1;
        seq = 1;
        total = 1017;
        offset = 1016;
        len = 1;
      };
      ticket = 9;
    } }
    ensures in_part { finished (heard_ack two_pieces 1) ≡ 0 }
    ensures whole { finished (heard_ack two_pieces 2) ≡ 1 }
    ensures begun { (after_all long_emitted (Deliver 0 true ∷ [])).received ≡ 1 }
    ensures none_taken { (after_all long_emitted (Deliver 0 true ∷ [])).taken ≡ [] }
    ensures taken { (after_all long_emitted (Deliver 0 true ∷ Deliver 1 true ∷ [])).taken
        ≡ record { total = 1017 } ∷ [] }
{}

/// Of two messages the first is finished and the second is due again.
pub fn messages_of_a_sender()
    ensures due { due_frame half_done ≡ Some record {
      head = record {
        src = 0;
        dst = 1;
        sport = 2;
        dport = 3;
        prio = 1;
        seq = 1;
        total = 1016;
        offset = 0;
        len = 1016;
      };
      ticket = 8;
    } }
    ensures finished { finished half_done ≡ 1 }
    ensures oldest { oldest_finished half_done ≡ Some done }
    ensures taken_out { (without_finished half_done).waiting ≡ late ∷ [] }
    ensures none_left { oldest_finished (without_finished half_done) ≡ None }
    ensures both { finished (heard_ack half_done 2) ≡ 2 }
    ensures room { offer_refusal half_done 1016 ≡ None }
    ensures spent { offer_refusal (record half_done {
      numbers = record {
        base = 1;
        cursor = 1;
        top = 2;
        next = 4294967295;
      };
    }) 0 ≡ Some OfferRefusal.Spent }
{}

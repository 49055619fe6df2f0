//! Worked examples, computed by the prover: each function's contract is the example, and its body is empty.

ghost use Rattle.std.specs.Prelude.{◌≡◌, ◌∷◌, [], codes, Some, Ok, Err};
ghost use Rattle.port_ledgers.specs.Held.{port_told};
ghost use Rattle.port_ledgers.specs.Told.{received_told};
ghost use Rattle.net_defs.specs.Examples.{two_hosts, host_end, switch_end, joined};
ghost use Rattle.run_defs.specs.declared.command.Command.TheVariants.{Install, Broken};
ghost use Rattle.answer_defs.specs.Answer.{told, fabric_after};
ghost use Rattle.judge_defs.specs.Examples.{commands, report, four_lines, another_port, lines_of, answers};
ghost use Rattle.judge_defs.specs.Examples.{sender, answers_after, moving, moved_lines, moved, adopted, broken_text};
ghost use Rattle.judge_defs.specs.Examples.{installed_text, above_text, inactive_text, falling_text, broken_answers};

/// A message is sent and received, and its send token comes back after the one that the client held.
pub fn message_with_its_token()
    ensures read { answers_after [] commands report ≡ Ok answers }
    ensures missing { answers_after [] commands (lines_of four_lines) ≡ Err 17 }
    ensures another_port { answers_after [] commands another_port ≡ Err 13 }
    ensures token { port_told sender (told answers) ≡ Some record {
      sends = 2;
      recvs = 0;
      client = record { sends = 1 ∷ 0 ∷ []; recvs = [] };
    } }
    ensures received { received_told record { from = 0; to = 1; port = 1; prio = 0 } (told answers)
        ≡ record { sport = 0; dport = 1; prio = 0; body = 9 ∷ [] } ∷ [] }
{}

/// A cable is moved from one port to another: the fabric as it stands has it there, without routes that it could break.
pub fn moved_cable()
    ensures read { answers_after [] moving (lines_of moved_lines) ≡ Ok moved }
    ensures another_end { answers_after [] moving (lines_of (codes "pull s 6 done" ∷ [])) ≡ Err 12 }
    ensures fabric { (fabric_after two_hosts moved).cables
        ≡ joined (host_end 0) (switch_end 0 2) ∷ joined (host_end 1) (switch_end 0 6) ∷ [] }
{}

/// An installation counts no more hosts than it has, and no more than have an active table.
pub fn counted_tables()
    ensures read { answers_after [] (Install 1 ∷ []) (lines_of installed_text) ≡ Ok adopted }
    ensures above { answers_after [] (Install 1 ∷ []) (lines_of above_text) ≡ Err 12 }
    ensures inactive { answers_after [] (Install 1 ∷ []) (lines_of inactive_text) ≡ Err 12 }
{}

/// Broken routes are shown in order, by sender and then by receiver, up to `endbroken`.
pub fn routes_that_broke()
    ensures read { answers_after adopted (Broken ∷ []) (lines_of broken_text) ≡ Ok broken_answers }
    ensures falling { answers_after adopted (Broken ∷ []) (lines_of falling_text) ≡ Err 13 }
{}

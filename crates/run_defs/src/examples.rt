//! Worked examples, computed by the prover: each function's contract is the example, and its body is empty.

ghost use Rattle.std.specs.Prelude.{◌≡◌, [], ◌∷◌, ◌++◌, map, codes, pos, negsuc, true, Ok, Err};
ghost use Rattle.net_defs.specs.Examples.{two_hosts, host_end, switch_end};
ghost use Rattle.net_defs.specs.declared.place.Place.{Place};
ghost use Rattle.world_defs.specs.declared.effect.Said.{Said};
ghost use Rattle.duo_defs.specs.declared.event.DuoEvent.{DuoEvent};
ghost use Rattle.run_defs.specs.declared.command.Command.{Command};
ghost use Rattle.run_defs.specs.declared.line.Line.{Line};
ghost use Rattle.run_defs.specs.declared.line.MapWords.{MapWords};
ghost use Rattle.run_defs.specs.declared.line.ClientCall.{ClientCall};
ghost use Rattle.run_defs.specs.declared.line.PlaceEntry.{PlaceEntry};
ghost use Rattle.run_defs.specs.declared.line.PlugWords.{PlugWords};
ghost use Rattle.fab_text.specs.declared.fault.FaultKind.{FaultKind};
ghost use Rattle.run_defs.specs.declared.command.PlanKind.{PlanKind};
ghost use Rattle.run_defs.specs.declared.command.StepLine.{StepLine};
ghost use Rattle.run_defs.specs.Script.{command_of, script_reading};
ghost use Rattle.run_defs.specs.LineText.{line_text, map_text, output_text};
ghost use Rattle.run_defs.specs.Output.{lines};
ghost use Rattle.run_defs.specs.Summary.{figures_in, summary};
ghost use Rattle.journal_defs.specs.Examples.{two_hosts_journal};
ghost use Rattle.world_defs.specs.World.{new_world};
ghost use Rattle.run_defs.specs.Mapped.{IsMapped};
ghost use Rattle.run_defs.specs.Run.{IsRun};
ghost use Rattle.net_defs.specs.Network.{Network};
ghost use Rattle.run_defs.specs.Headline.{HasPrinted, CompleteIsTrue, IsQuiet};
ghost use Rattle.run_defs.specs.Examples.{mapped_world, mapping, mapping_output, mapped_session, doubtful_world};
ghost use Rattle.run_defs.specs.Examples.{text_of, printed, fresh, installed_session, setup_map, refused_calls};
ghost use Rattle.run_defs.specs.Examples.{closing, single_events, message_output, restarting};
ghost use Rattle.run_defs.specs.Examples.{pulling, cables_without_routes};

/// The texts of some lines.
#[tactic(auto, using(crate::proofs::Reports::line_at_a_switch, crate::proofs::Reports::line_doubtful, crate::proofs::Reports::line_circuit, crate::proofs::Reports::line_circuit_nodes, crate::proofs::Reports::line_route, crate::proofs::Reports::line_empty_message, crate::proofs::Reports::line_message, crate::proofs::Reports::line_pulled, crate::proofs::Reports::line_full))]
pub fn texts_of_lines()
    ensures at_a_switch { line_text two_hosts (Line.Walk (Place.Switch 0 2))
        ≡ text_of (codes "walk switch s port 2" ∷ []) }
    ensures doubtful { line_text two_hosts (Line.Map 0 (MapWords.Doubtful 1) 31 123)
        ≡ text_of (codes "map a doubtful 1 asks 31 packets 123" ∷ []) }
    ensures circuit { line_text two_hosts (Line.Circuit 0 5 31)
        ≡ text_of (codes "circuit a depth 5 asks 31" ∷ []) }
    ensures circuit_nodes { line_text two_hosts (Line.CircuitNodes 1 406042)
        ≡ text_of (codes "circuit b nodes asks 406042" ∷ []) }
    ensures route { line_text two_hosts (Line.Route 0 1 (pos 3 ∷ pos 0 ∷ negsuc 14 ∷ []))
        ≡ text_of (codes "route a b +3 0 -15" ∷ []) }
    ensures empty_message { line_text two_hosts (Line.Client ClientCall.Poll 1 1 (Said.Received 0 0 0 1 []))
        ≡ text_of (codes "poll b 1 received token 0 from a 0 prio 1 len 0 bytes -" ∷ []) }
    ensures message { line_text two_hosts (Line.Client ClientCall.Poll 1 1
        (Said.Received 0 0 0 0 (65 ∷ 10 ∷ 254 ∷ [])))
        ≡ text_of (codes "poll b 1 received token 0 from a 0 prio 0 len 3 bytes 410afe" ∷ []) }
    ensures pulled { line_text two_hosts (Line.Pull (switch_end 0 5) true) ≡ text_of (codes "pull s 5 done" ∷ []) }
    ensures full { line_text two_hosts (Line.Plug (host_end 1) (switch_end 0 5) PlugWords.Full)
        ≡ text_of (codes "plug b 0 s 5 refused full" ∷ []) }
{}

/// The lines of the map of the two hosts.
#[tactic(auto, using(crate::proofs::Reports::map_lines))]
pub fn text_of_a_map()
    ensures text { map_text two_hosts setup_map ≡ text_of
        (codes "host a" ∷ codes "switch #0 core" ∷ codes "host b" ∷ codes "cable a 0 #0 0" ∷ codes "cable #0 +3 b 0"
        ∷ codes "endmap" ∷ []) }
{}

/// The summary of a run with one message.
#[tactic(auto, using(crate::proofs::Reports::summary_lines))]
pub fn summary_of_a_run()
    ensures text { output_text two_hosts (lines (summary 2 0 two_hosts (figures_in message_output)))
        ≡ text_of (codes "gen 2 0 hosts 2 switches 1 cables 2" ∷ codes "map complete asks 31 packets 62"
        ∷ codes "routes 2" ∷ codes "installed 2 of 2" ∷ codes "messages 1 received 1"
        ∷ codes "settle rounds 1 resets 0 unacked 0" ∷ []) }
{}

/// Calls on a fabric without routes, and their refusals.
#[tactic(auto, using(crate::proofs::Reports::refusals_text))]
pub fn refusals()
    ensures text { printed refused_calls fresh ≡ text_of
        (codes "open a 0 done" ∷ codes "open a 0 refused already" ∷ codes "provide a 0 refused badsize"
        ∷ codes "provide a 0 token 0" ∷ codes "provide a 0 refused notoken" ∷ codes "send a 0 refused noroute"
        ∷ codes "send a 1 refused notopen" ∷ codes "poll a 1 refused notopen" ∷ codes "poll a 0 nothing"
        ∷ codes "routes refused nomap" ∷ codes "install refused noroutes" ∷ codes "end injected 0 dropped 0" ∷ []) }
{}

/// A port is closed once no send is unfinished and no event waits; its provided tokens come back.
#[tactic(auto, using(crate::proofs::Reports::closing_text))]
pub fn closing_a_port()
    ensures text { printed closing installed_session
        ≡ text_of (codes "open a 0 done" ∷ codes "provide a 0 token 0" ∷ codes "provide a 0 token 1"
        ∷ codes "open b 1 done" ∷ codes "provide b 1 token 0" ∷ codes "send a 0 token 0"
        ∷ codes "close a 0 refused busy 1" ∷ codes "settle rounds 1 resets 0 unacked 0"
        ∷ codes "close a 0 refused unread 1" ∷ codes "poll a 0 sent token 0"
        ∷ codes "tokens a 0 send 0=client recv 0=provided 1=provided" ∷ codes "close a 0 done 2"
        ∷ codes "tokens a 0 refused notopen" ∷ codes "end injected 66 dropped 59" ∷ []) }
{}

/// Events one by one, with a map that is refused while packets are on their way.
#[tactic(auto, using(crate::proofs::Reports::single_events_text))]
pub fn report_of_single_events()
    ensures text { printed single_events installed_session
        ≡ text_of (codes "open a 0 done" ∷ codes "open b 1 done" ∷ codes "provide b 1 token 0"
        ∷ codes "provide b 1 token 1" ∷ codes "send a 0 token 0" ∷ codes "send a 0 token 1"
        ∷ codes "step injected 65" ∷ codes "step moved s 5" ∷ codes "step injected 66" ∷ codes "step idle"
        ∷ codes "step blocked s 5" ∷ codes "map a refused busy" ∷ codes "step arrived b message"
        ∷ codes "step moved s 5" ∷ codes "step lost" ∷ codes "step idle" ∷ codes "settle rounds 1 resets 0 unacked 0"
        ∷ codes "poll b 1 received token 0 from a 0 prio 0 len 1 bytes 01"
        ∷ codes "poll b 1 received token 1 from a 0 prio 0 len 1 bytes 02" ∷ codes "end injected 71 dropped 59" ∷ []) }
{}

/// A message waits while a cable is pulled, and while the one in its place is new; both routes stay broken.
#[tactic(auto, using(crate::proofs::Reports::pulling_text))]
pub fn report_of_a_pulled_cable()
    ensures text { printed pulling installed_session
        ≡ text_of (codes "open a 0 done" ∷ codes "open b 1 done" ∷ codes "provide b 1 token 0"
        ∷ codes "send a 0 token 0" ∷ codes "pull s 5 done" ∷ codes "pull b 0 refused nocable"
        ∷ codes "settle rounds 1 resets 0 unacked 1" ∷ codes "broken a b" ∷ codes "broken b a" ∷ codes "endbroken"
        ∷ codes "plug a 0 s 5 refused portused" ∷ codes "plug b 0 s 5 done"
        ∷ codes "settle rounds 1 resets 0 unacked 1" ∷ codes "install refused changed" ∷ codes "revoked 2"
        ∷ codes "end injected 66 dropped 61" ∷ []) }
{}

/// Without routes nothing is broken and nothing is given up; two ports are joined, and one isn't joined to itself.
#[tactic(auto, using(crate::proofs::Reports::cables_text))]
pub fn report_of_cables_without_routes()
    ensures text { printed cables_without_routes fresh
        ≡ text_of (codes "broken refused noroutes" ∷ codes "revoked 0" ∷ codes "plug s 3 s 3 refused portused"
        ∷ codes "plug s 3 s 4 done" ∷ codes "plan at 1" ∷ codes "end injected 0 dropped 0" ∷ []) }
{}

/// The second of two hosts restarts before a frame comes: the first learns that its message may be lost.
#[tactic(auto, using(crate::proofs::Reports::restarting_text))]
pub fn report_of_a_restart()
    ensures text { printed restarting fresh
        ≡ text_of (codes "duo token 0" ∷ codes "duo token 0" ∷ codes "duo emitted 0" ∷ codes "duo hello"
        ∷ codes "duo emitted 1" ∷ codes "duo hello" ∷ codes "duo emitted 2" ∷ codes "duo restarted 2"
        ∷ codes "duo stale" ∷ codes "duo emitted 3" ∷ codes "duo hello" ∷ codes "duo unsure 0" ∷ []) }
{}

/// Lines of scripts over the two hosts at one switch, and their first faults.
pub fn lines_of_scripts()
    ensures map { command_of two_hosts (codes "map" ∷ codes "a" ∷ codes "04" ∷ codes "1" ∷ [])
        ≡ Ok (Command.Map 0 4 1) }
    ensures circuit { command_of two_hosts (codes "circuit" ∷ codes "b" ∷ codes "32" ∷ []) ≡ Ok (Command.Circuit 1 32) }
    ensures circuit_without_depth { command_of two_hosts (codes "circuit" ∷ codes "b" ∷ codes "0" ∷ [])
        ≡ Err FaultKind.TooLarge }
    ensures walk { command_of two_hosts (codes "walk" ∷ codes "b" ∷ codes "-3" ∷ [])
        ≡ Ok (Command.Walk 1 (negsuc 2 ∷ [])) }
    ensures send { command_of two_hosts (codes "send" ∷ codes "a" ∷ codes "0" ∷ codes "b" ∷ codes "1" ∷ codes "0"
        ∷ codes "1017" ∷ codes "9" ∷ []) ≡ Ok (Command.Send 0 0 1 1 0 1017 9) }
    ensures flip { command_of two_hosts (codes "plan" ∷ codes "flip" ∷ codes "1" ∷ codes "6" ∷ codes "193" ∷ [])
        ≡ Ok (Command.Plan 1 (PlanKind.Flip 6 193)) }
    ensures step { command_of two_hosts (codes "step" ∷ codes "lose" ∷ codes "s" ∷ codes "5" ∷ [])
        ≡ Ok (Command.Step (StepLine.Lose (switch_end 0 5))) }
    ensures restart { command_of two_hosts (codes "duo" ∷ codes "restart" ∷ codes "1" ∷ [])
        ≡ Ok (Command.Duo (DuoEvent.Restart 1)) }
    ensures pull { command_of two_hosts (codes "pull" ∷ codes "s" ∷ codes "5" ∷ [])
        ≡ Ok (Command.Pull (switch_end 0 5)) }
    ensures plug { command_of two_hosts (codes "plug" ∷ codes "b" ∷ codes "0" ∷ codes "s" ∷ codes "5" ∷ [])
        ≡ Ok (Command.Plug (host_end 1) (switch_end 0 5)) }
    ensures names_before_ports { command_of two_hosts
        (codes "plug" ∷ codes "a" ∷ codes "1" ∷ codes "c" ∷ codes "0" ∷ []) ≡ Err FaultKind.NoVertex }
    ensures plan_pull { command_of two_hosts (codes "plan" ∷ codes "pull" ∷ codes "37" ∷ codes "s" ∷ codes "5" ∷ [])
        ≡ Ok (Command.Plan 37 (PlanKind.Pull (switch_end 0 5))) }
    ensures pull_at_none { command_of two_hosts (codes "plan" ∷ codes "pull" ∷ codes "0" ∷ codes "c" ∷ codes "x" ∷ [])
        ≡ Err FaultKind.TooLarge }
    ensures third_end { command_of two_hosts (codes "duo" ∷ codes "send" ∷ codes "2" ∷ codes "1" ∷ codes "x" ∷ [])
        ≡ Err FaultKind.TooLarge }
    ensures depth_of_none { command_of two_hosts (codes "map" ∷ codes "a" ∷ codes "0" ∷ codes "x" ∷ [])
        ≡ Err FaultKind.TooLarge }
    ensures form_before_the_host { command_of two_hosts (codes "map" ∷ codes "c" ∷ codes "1" ∷ codes "x" ∷ [])
        ≡ Err FaultKind.NotNumber }
    ensures words_before_forms { command_of two_hosts (codes "map" ∷ codes "9" ∷ codes "x" ∷ [])
        ≡ Err FaultKind.BadWord }
    ensures unknown_second_word { command_of two_hosts (codes "plan" ∷ codes "flop" ∷ codes "x" ∷ [])
        ≡ Err FaultKind.BadWord }
    ensures port_above_15 { command_of two_hosts (codes "step" ∷ codes "advance" ∷ codes "c" ∷ codes "16" ∷ [])
        ≡ Err FaultKind.TooLarge }
    ensures port_that_is_not_there { command_of two_hosts
        (codes "step" ∷ codes "advance" ∷ codes "s" ∷ codes "8" ∷ []) ≡ Err FaultKind.PortRange }
    ensures switch_is_no_host { command_of two_hosts (codes "poll" ∷ codes "s" ∷ codes "0" ∷ [])
        ≡ Err FaultKind.NoVertex }
{}

/// A script after eight lines, one that lacks its end, and one that goes on after it.
pub fn whole_scripts()
    ensures read { script_reading two_hosts 8 (codes "# commands" ++ 13 ∷ 10 ∷ codes "routes"
        ++ 10 ∷ 10 ∷ codes "  end") ≡ Ok (Command.Routes ∷ Command.Finish ∷ []) }
    ensures no_end { script_reading two_hosts 8 (codes "routes" ++ 10 ∷ [])
        ≡ Err record { line = 10; kind = FaultKind.NoEnd } }
    ensures after_end { script_reading two_hosts 8 (codes "end" ++ 10 ∷ codes "end" ++ 10 ∷ [])
        ≡ Err record { line = 10; kind = FaultKind.AfterEnd } }
    ensures first_fault { script_reading two_hosts 8 (codes "routes 1" ++ 10 ∷ codes "map" ++ 10 ∷ [])
        ≡ Err record { line = 9; kind = FaultKind.BadWord } }
{}

/// Two hosts at a switch are mapped by 31 asks with 62 packets: the map says complete, and can't say that it wants
/// depth.
#[tactic(auto, using(crate::proofs::Mapping::two_hosts_mapped, crate::proofs::Mapping::not_called_shallow, crate::proofs::Mapping::mapping_runs, crate::proofs::Mapping::map_is_printed))]
pub fn map_of_the_two_hosts()
    ensures mapped { IsMapped 0 4 1 (new_world two_hosts) mapped_world two_hosts_journal setup_map MapWords.Complete }
    ensures not_shallow { ¬ IsMapped 0 4 1
        (new_world two_hosts) mapped_world two_hosts_journal setup_map MapWords.IncompleteDepth }
    ensures run { IsRun two_hosts mapping mapping_output mapped_session }
    ensures printed { HasPrinted mapping_output 0 setup_map }
{}

/// That map met a quiet fabric, which a fault planned for its first packet would not be.
#[tactic(auto, using(crate::proofs::Mapping::first_is_quiet, crate::proofs::Mapping::planned_is_not_quiet))]
pub fn quiet_fabrics()
    ensures quiet { IsQuiet 0 (new_world two_hosts) mapped_world }
    ensures planned { ¬ IsQuiet 0 doubtful_world mapped_world }
{}

/// Where no command is given nothing is printed, so no map that says complete is wrong.
#[tactic(auto, using(crate::proofs::Moments::no_command_is_right))]
pub fn promise_of_no_command()
    ensures complete { (n : Network) → CompleteIsTrue n [] }
{}

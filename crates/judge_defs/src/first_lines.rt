//! Which line may be the first of a command's answer.

ghost use Rattle.std.specs.Prelude.{◌≡◌, ℕ, ℤ, List};
ghost use Rattle.run_defs.specs.declared.command.Command.TheVariants.{Walk, Map, Circuit, Routes, Install, Plan, Step};
ghost use Rattle.run_defs.specs.declared.command.Command.TheVariants.{Settle, Finish, Pull, Plug, Revoke, Broken};
ghost use Rattle.run_defs.specs.declared.command.PlanKind.{PlanKind};
ghost use Rattle.run_defs.specs.declared.command.StepLine.{StepLine};
ghost use Rattle.judge_defs.specs.Form.{may_answer};

use crate::calls::{call_in, call_of, same_call};
use port_graph::End;
use report_lines::ReportLine;
use run_defs::Command;

/// Whether a line may be the first of a command's answer.
pub fn may_answer(command: &Command, line: &ReportLine) -> bool
    ensures { result ≡ may_answer command.now line.now }
{
    match command {
        Command::Walk { .. } => is_of_walk(line),
        Command::Map { host, .. } => is_of_map(*host, line),
        Command::Circuit { host, depth } => is_of_circuit(*host, *depth, line),
        Command::Routes => is_of_routes(line),
        Command::Install { .. } => is_of_installation(line),
        Command::Plan { .. } => is_of_plan(line),
        Command::Step(_) => is_of_step(line),
        Command::Settle => is_of_settling(line),
        Command::Finish => is_of_end(line),
        Command::Pull(at) => is_of_pull(*at, line),
        Command::Plug(a, b) => is_of_plug(*a, *b, line),
        Command::Revoke => is_of_revoking(line),
        Command::Broken => is_of_broken(line),
        Command::Begin { .. }
        | Command::Close { .. }
        | Command::Poll { .. }
        | Command::Tokens { .. }
        | Command::Provide { .. }
        | Command::Send { .. }
        | Command::Duo(_) => same_call(call_of(command), call_in(line)),
    }
}

// The same of each command that is no call.

fn is_of_walk(line: &ReportLine) -> bool
    ensures { (host : ℕ) (turns : List ℤ) → result ≡ may_answer (Walk host turns) line.now }
{
    match line {
        ReportLine::Walk => true,
        _ => false,
    }
}

fn is_of_map(host: u16, line: &ReportLine) -> bool
    ensures { (depth : ℕ) (tries : ℕ) → result ≡ may_answer (Map host depth tries) line.now }
{
    match line {
        ReportLine::Map { host: told, .. } => *told == host,
        ReportLine::MapBusy(told) => *told == host,
        _ => false,
    }
}

fn is_of_circuit(host: u16, depth: u8, line: &ReportLine) -> bool
    ensures { result ≡ may_answer (Circuit host depth) line.now }
{
    match line {
        ReportLine::Circuit {
            host: told,
            depth: deep,
        } => *told == host && *deep == u64::from(depth),
        ReportLine::CircuitNodes(told) => *told == host,
        _ => false,
    }
}

fn is_of_routes(line: &ReportLine) -> bool
    ensures { result ≡ may_answer Routes line.now }
{
    match line {
        ReportLine::Routes(_) => true,
        ReportLine::NoMap => true,
        _ => false,
    }
}

fn is_of_installation(line: &ReportLine) -> bool
    ensures { (tries : ℕ) → result ≡ may_answer (Install tries) line.now }
{
    match line {
        ReportLine::Installed { .. } => true,
        ReportLine::InstallRefused => true,
        _ => false,
    }
}

fn is_of_plan(line: &ReportLine) -> bool
    ensures { (ahead : ℕ) (kind : PlanKind) → result ≡ may_answer (Plan ahead kind) line.now }
{
    match line {
        ReportLine::PlanAt => true,
        _ => false,
    }
}

fn is_of_step(line: &ReportLine) -> bool
    ensures { (event : StepLine) → result ≡ may_answer (Step event) line.now }
{
    match line {
        ReportLine::Step => true,
        _ => false,
    }
}

fn is_of_settling(line: &ReportLine) -> bool
    ensures { result ≡ may_answer Settle line.now }
{
    match line {
        ReportLine::Settle => true,
        _ => false,
    }
}

fn is_of_end(line: &ReportLine) -> bool
    ensures { result ≡ may_answer Finish line.now }
{
    match line {
        ReportLine::Finish => true,
        _ => false,
    }
}

fn is_of_pull(at: End, line: &ReportLine) -> bool
    ensures { result ≡ may_answer (Pull at) line.now }
{
    match line {
        ReportLine::Pull { at: told, .. } => *told == at,
        _ => false,
    }
}

fn is_of_plug(a: End, b: End, line: &ReportLine) -> bool
    ensures { result ≡ may_answer (Plug a b) line.now }
{
    match line {
        ReportLine::Plug {
            a: one,
            b: other,
            ..
        } => *one == a && *other == b,
        _ => false,
    }
}

fn is_of_revoking(line: &ReportLine) -> bool
    ensures { result ≡ may_answer Revoke line.now }
{
    match line {
        ReportLine::Revoked => true,
        _ => false,
    }
}

fn is_of_broken(line: &ReportLine) -> bool
    ensures { result ≡ may_answer Broken line.now }
{
    match line {
        ReportLine::Broken { .. } => true,
        ReportLine::EndBroken => true,
        ReportLine::NoBroken => true,
        _ => false,
    }
}

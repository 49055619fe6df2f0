//! What is judged of an answer.

ghost use Rattle.std.specs.Prelude.{◌≡◌, ◌↔◌, ◌≤◌, ◌+◌, true, length, option_map, option_copied, List, IfOk, IfSome};
ghost use Rattle.net_defs.specs.Network.{Network};
ghost use Rattle.answer_defs.specs.Answer.{Answer as SaidAnswer, Answered, Alone, WithMap, WithRoutes, answered};
ghost use Rattle.answer_defs.specs.Answer.{hosts_in};
ghost use Rattle.answer_defs.specs.Right.{MapIsTrue};
ghost use Rattle.fab_judge.specs.Shown.{map_in};
ghost use Rattle.fab_judge.specs.Past.{IsPastOf, complete_host};
ghost use Rattle.fab_judge.specs.Judging.{Judges, IsWithin, FindsFaultOn};
ghost use Rattle.fab_judge.specs.Answers.{IsAs, more_lines};

use crate::answer::Answer;
use crate::past::Past;
use crate::shown::{ShownMap, complete_map};
use crate::{Hosts, hosts_in, judge_line, routes_fault};
use fabric_map::FabricMap;
use judge_defs::Why;
use map_sameness::is_same_as_part;
use port_graph::{Fabric, RouteSet};
use rank_cert::Ranks;
use report_lines::{MapSaid, ReportLine};
use run_defs::Command;
use std::alloc::{AllocError, Global};

/// Where an answer fails among its lines, if it does; else it joins those before.
pub(crate) fn fault_of(
    alloc: Global,
    f: &Fabric,
    command: &Command,
    past: &mut Past,
    answer: Answer,
) -> Result<Option<(usize, Why)>, AllocError>
    ensures judges { IfOk result (λ fault. (before : List Answered) (a : SaidAnswer) → IsPastOf f.now before past.old
        → IsAs answer a → Judges f.now before (answered command.now a) fault past.new) }
    ensures within { IfOk result (λ fault. IsWithin fault (more_lines answer)) }
{
    match answer {
        Answer::Alone(line) => fault_alone(past, command, &line),
        Answer::WithMap(line, map) => fault_with_map(alloc, past, &line, map),
        Answer::WithRoutes(routes, ranks) => fault_with_routes(alloc, f, past, &routes, ranks),
        Answer::WithTables => {
            past.adopted = true;
            Ok(None)
        }
        Answer::WithBroken => Ok(None),
    }
}

// The same of one line alone.
fn fault_alone(
    past: &mut Past,
    command: &Command,
    line: &ReportLine,
) -> Result<Option<(usize, Why)>, AllocError>
    ensures judges { IfOk result (λ fault. (n : Network) (before : List Answered) → IsPastOf n before past.old
        → Judges n before (answered command.now (Alone line.now)) fault past.new) }
    ensures within { IfOk result (λ fault. IsWithin fault 0) }
{
    let judged = judge_line(&mut past.ledgers, command, line)?;
    match judged {
        Some(why) => Ok(Some((0, why))),
        None => {
            past.follow(line)?;
            Ok(None)
        }
    }
}

// The same of a line with a map.
fn fault_with_map(
    alloc: Global,
    past: &mut Past,
    line: &ReportLine,
    map: FabricMap,
) -> Result<Option<(usize, Why)>, AllocError>
    ensures judges { IfOk result (λ fault. (n : Network) (before : List Answered) (c : Command)
        → IsPastOf n before past.old → Judges n before (answered c (WithMap line.now map)) fault past.new) }
    ensures within { IfOk result (λ fault. IsWithin fault 0) }
{
    let is_right = is_map_true(alloc, &past.fabric, line, &map)?;
    if !is_right {
        return Ok(Some((0, Why::Map)));
    }
    past.show(alloc, line, map)?;
    Ok(None)
}

// Whether a map is what its line says of it.
fn is_map_true(
    alloc: Global,
    f: &Fabric,
    line: &ReportLine,
    map: &FabricMap,
) -> Result<bool, AllocError>
    ensures { IfOk result (λ is. (is ≡ true) ↔ MapIsTrue f.now (WithMap line.now map.now)) }
{
    match complete_host(line) {
        Some(host) => is_same_as_part(alloc, map, f, host),
        None => Ok(true),
    }
}

// The mapper of a line of a map that is complete.
fn complete_host(line: &ReportLine) -> Option<u16>
    ensures { result ≡ complete_host line.now }
{
    match line {
        ReportLine::Map {
            host,
            said: MapSaid::Complete,
        } => Some(*host),
        _ => None,
    }
}

// The same of routes with their ranks.
fn fault_with_routes(
    alloc: Global,
    f: &Fabric,
    past: &mut Past,
    routes: &RouteSet,
    ranks: Ranks,
) -> Result<Option<(usize, Why)>, AllocError>
    ensures judges { IfOk result (λ fault. (before : List Answered) (c : Command) → IsPastOf f.now before past.old
        → Judges f.now before (answered c (WithRoutes routes.now ranks)) fault past.new) }
    ensures within { IfOk result (λ fault. IsWithin fault (length routes.now + (length ranks + 1))) }
{
    match fault_on(complete_map(&past.shown), routes, ranks) {
        Some(fault) => Ok(Some(fault)),
        None => {
            let routed = routed_hosts(alloc, f, &past.shown)?;
            past.routed = routed;
            Ok(None)
        }
    }
}

// Where routes with their ranks fail on the last map, where that is complete.
fn fault_on(map: Option<&FabricMap>, routes: &RouteSet, ranks: Ranks) -> Option<(usize, Why)>
    ensures fault { FindsFaultOn (option_copied map.entry) routes.now ranks result }
    ensures within { IfSome result (λ p. p.0 ≤ length routes.now + length ranks + 1) }
{
    match map {
        Some(map) => {
            let known = ranks.over(map);
            routes_fault(map, routes, &known)
        }
        None => Some((0, Why::Route)),
    }
}

// The hosts of the last map, by address.
fn routed_hosts(
    alloc: Global,
    f: &Fabric,
    shown: &Option<ShownMap>,
) -> Result<Option<Hosts>, AllocError>
    ensures { IfOk result (λ hosts. hosts ≡ option_map (hosts_in f.now) (map_in shown.now)) }
{
    match shown {
        Some(shown) => {
            let hosts = hosts_in(alloc, f, &shown.map)?;
            Ok(Some(hosts))
        }
        None => Ok(None),
    }
}

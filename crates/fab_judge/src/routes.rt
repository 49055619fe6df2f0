//! The routes of an answer.

ghost use Rattle.std.specs.Prelude.{◌≡◌, ◌-◌, IfOk, None, length, slice_get};
ghost use Rattle.judge_defs.specs.Form.{next_due, route_due, route_lines};
ghost use Rattle.fab_judge.specs.Reading.{Gives, HasRead};
ghost use Rattle.fab_judge.specs.Blocks.{route_in, GivesRoute, Adds};

use crate::reader::Reader;
use crate::stop::Unread;
use port_graph::{Fabric, Route, RoutePush, RouteSet};
use report_lines::ReportLine;
use std::alloc::Global;

/// Reads so many routes, which rise.
pub(crate) fn read_routes(
    alloc: Global,
    f: &Fabric,
    reader: &mut Reader,
    count: u64,
) -> Result<RouteSet, Unread>
    ensures said { Gives (route_lines count None reader.old.past f.now reader.old.left) reader.new.left result }
    ensures read { IfOk result (λ routes. HasRead reader.old reader.new (length routes)) }
{
    let mut routes = RouteSet::new(alloc);
    'lines: for _read in 0..count {
        read_route(f, reader, &mut routes)?;
    }
    Ok(routes)
}

// Reads a route above the last.
fn read_route(f: &Fabric, reader: &mut Reader, routes: &mut RouteSet) -> Result<(), Unread>
    ensures said { GivesRoute (next_due (route_due (slice_get routes.old (length routes.old - 1))) reader.old.past f.now
        reader.old.left) reader.new.left routes.old routes.new result }
    ensures read { IfOk result (λ _. HasRead reader.old reader.new 1) }
{
    match reader.next_said(f) {
        Ok((number, line)) => match route_in(line) {
            Some(route) => add(routes, number, route),
            None => Err(Unread::At(number)),
        },
        Err(stop) => Err(stop),
    }
}

// The route of a line.
fn route_in(line: ReportLine) -> Option<Route>
    ensures { result ≡ route_in line }
{
    match line {
        ReportLine::Route(route) => Some(route),
        _ => None,
    }
}

// Adds the route of a line.
fn add(routes: &mut RouteSet, number: u32, route: Route) -> Result<(), Unread>
    ensures { Adds number route routes.old routes.new result }
{
    match routes.push(route) {
        Ok(()) => Ok(()),
        Err((_, RoutePush::Order)) => Err(Unread::At(number)),
        Err((_, RoutePush::NoMemory)) => Err(Unread::NoMemory),
    }
}

//! Which line is due next among those of an answer, and which line ends them.

ghost use Rattle.std.specs.Prelude.{◌≡◌, Some};
ghost use Rattle.report_lines.specs.declared.line.ReportLine.TheVariants.{NoBroken};
ghost use Rattle.judge_defs.specs.Form.{table_due, rising_table_due, is_address_above, is_end_of_routes};
ghost use Rattle.judge_defs.specs.Form.{pair_in, pair_due, is_pair_above, is_end_of_broken};

use port_graph::Fabric;
use report_lines::{ReportLine, host};

/// The host of a table, where it is due, and whether the table is active.
pub fn table_due(due: u16, line: &ReportLine) -> Option<(u16, bool)>
    ensures { result ≡ table_due due line.now }
{
    match line {
        ReportLine::Table { host, active } if *host == due => Some((*host, *active)),
        _ => None,
    }
}

/// The host of a table, where it is above the one before it, and whether the table is active.
pub fn rising_table_due(before: Option<(u16, bool)>, line: &ReportLine) -> Option<(u16, bool)>
    ensures { result ≡ rising_table_due before line.now }
{
    match line {
        ReportLine::Table { host, active } if is_address_above(before, *host) => {
            Some((*host, *active))
        }
        _ => None,
    }
}

// Whether an address is above the one before it.
fn is_address_above(before: Option<(u16, bool)>, host: u16) -> bool
    ensures { result ≡ is_address_above before host }
{
    match before {
        Some(b) => b.0 < host,
        None => true,
    }
}

/// Whether a line is `endroutes`.
pub fn is_end_of_routes(line: &ReportLine) -> bool
    ensures { result ≡ is_end_of_routes (Some line.now) }
{
    match line {
        ReportLine::EndRoutes => true,
        _ => false,
    }
}

/// Whether a line is `endbroken`.
pub fn is_end_of_broken(line: &ReportLine) -> bool
    ensures { result ≡ is_end_of_broken (Some line.now) }
{
    match line {
        ReportLine::EndBroken => true,
        _ => false,
    }
}

/// The pair of a line, where it may stand after the one before it.
pub fn pair_due(f: &Fabric, before: (u16, u16), line: &ReportLine) -> Option<(u16, u16)>
    ensures { result ≡ pair_due f.now (Some before) (Some line.now) }
{
    match pair_in(f, line) {
        Some(pair) if is_pair_above(before, pair) => Some(pair),
        _ => None,
    }
}

// The hosts that a line `broken` names.
fn pair_in(f: &Fabric, line: &ReportLine) -> Option<(u16, u16)>
    ensures { result ≡ pair_in f.now line.now }
{
    match line {
        ReportLine::Broken { from, to } => Some((*from, *to)),
        ReportLine::NoBroken => refused_pair(f),
        _ => None,
    }
}

/// The hosts that are called `refused` and `noroutes`, where there are both.
pub fn refused_pair(f: &Fabric) -> Option<(u16, u16)>
    ensures { result ≡ pair_in f.now NoBroken }
{
    match (
        host(f, b"refused".as_slice()),
        host(f, b"noroutes".as_slice()),
    ) {
        (Some(from), Some(to)) => Some((from, to)),
        _ => None,
    }
}

// Whether a pair is above the one before it: by its sender, and then by its receiver.
fn is_pair_above(before: (u16, u16), pair: (u16, u16)) -> bool
    ensures { result ≡ is_pair_above (Some before) pair }
{
    before.0 < pair.0 || (before.0 == pair.0 && before.1 < pair.1)
}

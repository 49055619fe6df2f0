//! The tables of an installation.

ghost use Rattle.std.specs.Prelude.{◌≡◌, ◌<◌, IfOk, Some, None};
ghost use Rattle.judge_defs.specs.Form.{next_due, table_due, rising_table_due, table_lines, rising_tables, tables_of};
ghost use Rattle.fab_judge.specs.Reading.{Gives, HasRead, found};
ghost use Rattle.fab_judge.specs.Blocks.{CountsActive, more_active};

use crate::Hosts;
use crate::reader::Reader;
use crate::stop::Unread;
use judge_defs::{rising_table_due, table_due};
use port_graph::Fabric;

/// Reads the tables of so many hosts: of these, or, where none are known, of any by rising address. The line that says
/// how many has this number. The answer is how many of them are active.
pub(crate) fn read_tables(
    f: &Fabric,
    reader: &mut Reader,
    number: u32,
    count: u64,
    routed: &Option<Hosts>,
) -> Result<u64, Unread>
    ensures said { CountsActive (tables_of number count routed.now reader.old.past f.now reader.old.left)
        reader.new.left result }
    ensures read { IfOk result (λ _. HasRead reader.old reader.new 0) }
{
    match routed {
        Some(hosts) => read_counted_tables(f, reader, number, count, hosts.list()),
        None => read_rising_tables(f, reader, count),
    }
}

// Reads the tables of these hosts, where there are so many.
fn read_counted_tables(
    f: &Fabric,
    reader: &mut Reader,
    number: u32,
    count: u64,
    hosts: &[u16],
) -> Result<u64, Unread>
    ensures said { CountsActive (tables_of number count (Some hosts.now) reader.old.past f.now reader.old.left)
        reader.new.left result }
    ensures read { IfOk result (λ _. HasRead reader.old reader.new 0) }
{
    if count == hosts.len() as u64 {
        read_tables_of(f, reader, hosts)
    } else {
        Err(Unread::At(number))
    }
}

// Reads the tables of these hosts.
fn read_tables_of(f: &Fabric, reader: &mut Reader, hosts: &[u16]) -> Result<u64, Unread>
    ensures said { CountsActive (table_lines hosts.now reader.old.past f.now reader.old.left) reader.new.left result }
    ensures read { IfOk result (λ _. HasRead reader.old reader.new 0) }
{
    let mut active = 0;
    'lines: for due in hosts {
        let table = read_table(f, reader, *due)?;
        active = more_active(active, table.1);
    }
    Ok(active)
}

// Reads the table of a host.
fn read_table(f: &Fabric, reader: &mut Reader, due: u16) -> Result<(u16, bool), Unread>
    ensures said { Gives (next_due (table_due due) reader.old.past f.now reader.old.left) reader.new.left result }
    ensures read { IfOk result (λ _. HasRead reader.old reader.new 1) }
{
    match reader.next_said(f) {
        Ok((number, line)) => found(number, table_due(due, &line)),
        Err(stop) => Err(stop),
    }
}

// How many are active with one more.
fn more_active(active: u64, is_active: bool) -> u64
    requires { active < 18446744073709551615 }
    ensures { result ≡ more_active active is_active }
{
    if is_active { active + 1 } else { active }
}

// The table that was due; the line of this number is out of form where it says another.
fn found(number: u32, table: Option<(u16, bool)>) -> Result<(u16, bool), Unread>
    ensures { result ≡ found number table }
{
    match table {
        Some(table) => Ok(table),
        None => Err(Unread::At(number)),
    }
}

// Reads so many tables, whose hosts rise.
fn read_rising_tables(f: &Fabric, reader: &mut Reader, count: u64) -> Result<u64, Unread>
    ensures said { CountsActive (rising_tables count None reader.old.past f.now reader.old.left) reader.new.left
        result }
    ensures read { IfOk result (λ _. HasRead reader.old reader.new 0) }
{
    let mut before = None;
    let mut active = 0;
    'lines: for _read in 0..count {
        let table = read_rising_table(f, reader, before)?;
        active = more_active(active, table.1);
        before = Some(table);
    }
    Ok(active)
}

// Reads the table of a host above the one before it.
fn read_rising_table(
    f: &Fabric,
    reader: &mut Reader,
    before: Option<(u16, bool)>,
) -> Result<(u16, bool), Unread>
    ensures said { Gives (next_due (rising_table_due before) reader.old.past f.now reader.old.left) reader.new.left
        result }
    ensures read { IfOk result (λ _. HasRead reader.old reader.new 1) }
{
    match reader.next_said(f) {
        Ok((number, line)) => found(number, rising_table_due(before, &line)),
        Err(stop) => Err(stop),
    }
}

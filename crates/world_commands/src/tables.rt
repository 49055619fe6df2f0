//! What an installation prints: how many hosts have acknowledged all their parts, and each host's table.

ghost use Rattle.std.specs.Prelude.{◌≡◌, ◌++◌, ◌∷◌, map, flat_map, OnOk};
ghost use Rattle.std.specs.List.{AllByRecursion};
ghost use Rattle.world_defs.specs.World.{fabric_of};
ghost use Rattle.run_defs.specs.LineText.{line_text};
ghost use Rattle.run_defs.specs.Output.{lines};
ghost use Rattle.run_defs.specs.Outcome.{table_line};
ghost use Rattle.run_defs.specs.declared.line.Line.TheVariants.{Installed};
ghost use Rattle.fab_report.specs.Printed.{printed_of};
ghost use Rattle.fab_world.specs.Events.{IsHostOf};

use fab_report::{Printed, print_line_onto};
use fab_world::World;
use run_defs::Line;
use std::alloc::{AllocError, Global};

/// How many hosts, of so many, have acknowledged all their parts, and whether the table of each of these is active.
pub fn print_tables(
    alloc: Global,
    w: &World,
    hosts: &[u16],
    acked: u16,
    of: u16,
    printed: &mut Printed,
) -> Result<(), AllocError>
    requires hosts { AllByRecursion (IsHostOf w.now) hosts.now }
    ensures { OnOk result (printed.new ≡ printed_of (fabric_of w.now)
        (lines (Installed acked of ∷ map (table_line w.now) hosts.now))) }
{
    printed.put_line(&Line::Installed { acked, of }, w.fabric())?;
    let mut tables = Vec::new(alloc);
    append_tables(&mut tables, w, hosts)?;
    printed.follow(&tables)
}

// A line for each of these hosts: whether its table is active.
fn append_tables(text: &mut Vec<u8>, w: &World, hosts: &[u16]) -> Result<(), AllocError>
    requires { AllByRecursion (IsHostOf w.now) hosts.now }
    ensures { OnOk result (text.new.items ≡ text.old.items
        ++ flat_map (λ h. line_text (fabric_of w.now) (table_line w.now h)) hosts.now) }
{
    for host in hosts {
        append_table(text, w, *host)?;
    }
    Ok(())
}

// The line of a host's table.
fn append_table(text: &mut Vec<u8>, w: &World, host: u16) -> Result<(), AllocError>
    requires { IsHostOf w.now host }
    ensures { OnOk result (text.new.items ≡ text.old.items ++ line_text (fabric_of w.now) (table_line w.now host)) }
{
    w.moment();
    let active = w.table(host).is_some();
    print_line_onto(text, &Line::Table { host, active }, w.fabric())
}

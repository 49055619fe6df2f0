//! The circuit links of a world's fabric, and their text.

ghost use Rattle.std.specs.Prelude.{◌≡◌, ◌≤◌, IfErr, OnOk};
ghost use Rattle.world_defs.specs.World.{fabric_of};
ghost use Rattle.fab_report.specs.There.{IsHost};
ghost use Rattle.map_making.specs.Circuit.{IsCircuitPrinted};

use fab_report::Printed;
use fab_world::World;
use map_making::print_circuit;
use std::alloc::Global;
use world_commands::OutOfMemory;

/// Maps the circuit links of the fabric as it stands: nothing is injected, and the world is only read.
pub(crate) fn circuit(
    alloc: Global,
    w: &World,
    host: u16,
    depth: u8,
    printed: &mut Printed,
) -> Result<(), OutOfMemory>
    requires host { IsHost (fabric_of w.now) host }
    requires shallow { depth ≤ 32 }
    ensures printed { OnOk result (IsCircuitPrinted (fabric_of w.now) host depth printed.new) }
    ensures doing { IfErr result (λ e. e ≡ OutOfMemory.InDoing) }
{
    let Ok(told) = print_circuit(alloc, w.fabric(), host, depth) else {
        return Err(OutOfMemory::InDoing);
    };
    *printed = told;
    Ok(())
}

//! Where the walk begins: hosts and the vertices beside them, which no cable between two switches cuts off.

ghost use Rattle.std.specs.Prelude.{◌≡◌, ◌<◌, ◌+◌, length, map, IfOk};
ghost use Rattle.journal_defs.specs.Counting.{numbers_below};
ghost use Rattle.core_map.specs.Walking.{AreSources, host_number, with_source};

use crate::bridges::{cable_at, is_host};
use fabric_map::FabricMap;
use std::alloc::{AllocError, Global};

/// The number 1 for each host and each vertex beside one, 0 for all others.
pub(crate) fn sources(alloc: Global, m: &FabricMap) -> Result<Vec<u64>, AllocError>
    ensures { IfOk result (λ numbers. AreSources m.now numbers.items (length m.now.cables)) }
{
    let mut numbers = hosts(alloc, m)?;
    for i in 0..m.cables().len() {
        number_ends(m, i, &mut numbers);
    }
    Ok(numbers)
}

// The number 1 for each host, 0 for all others.
fn hosts(alloc: Global, m: &FabricMap) -> Result<Vec<u64>, AllocError>
    ensures { IfOk result (λ numbers. numbers.items ≡ map (host_number m.now) (numbers_below (length m.now.vertices))) }
{
    let mut numbers = Vec::new(alloc);
    for v in 0..m.vertices().len() {
        numbers.push(host_number(m, v))?;
    }
    Ok(numbers)
}

// 1 for a host, 0 for a switch.
fn host_number(m: &FabricMap, v: usize) -> u64
    ensures { result ≡ host_number m.now v }
{
    if is_host(m, v) { 1 } else { 0 }
}

// Numbers the ends of a cable whose other end is a host.
fn number_ends(m: &FabricMap, i: usize, numbers: &mut Vec<u64>)
    requires cable { i < length m.now.cables }
    requires before { AreSources m.now numbers.old.items i }
    ensures { AreSources m.now numbers.new.items (i + 1) }
{
    let c = cable_at(m, i);
    number_beside(m, c.v, c.w, numbers);
    number_beside(m, c.w, c.v, numbers);
}

// Numbers a vertex, if another is a host.
fn number_beside(m: &FabricMap, v: u32, w: u32, numbers: &mut Vec<u64>)
    requires { v < length numbers.old.items }
    ensures { numbers.new.items ≡ with_source m.now numbers.old.items v w }
{
    if is_host(m, w as usize) {
        numbers[v as usize] = 1;
    }
}

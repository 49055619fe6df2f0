//! A fabric and a map, printed as they were read; the bridges of a map.

ghost use Rattle.map_canon.specs.Printing.{AreOfFabric};

use crate::fabrics::{SELF_CABLED, TWO_HOSTS, fabric_of};
use core_map::switch_bridges;
use fabric_file::print_fabric;
use fabric_map::FabricMap;
use map_canon::{print_map, read_map};
use port_graph::Fabric;
use std::alloc::Global;

// The map of the self-cabled fabric.
const SELF_CABLED_MAP: &str = "host a\nswitch #0 core\nhost b\nswitch #1 outside\n\
    cable a 0 #0 0\ncable #0 +1 b 0\ncable #0 +3 #1 0\ncable #1 +1 #1 +2\nendmap\n";

// Whether the fabric of a text is printed as the text's lines but the last.
fn is_fabric_printed(alloc: Global, text: &str) -> Option<bool> {
    match fabric_of(alloc, text) {
        Some(fabric) => is_printed(alloc, &fabric, text),
        None => None,
    }
}

// Whether a fabric is printed so.
fn is_printed(alloc: Global, fabric: &Fabric, text: &str) -> Option<bool> {
    match print_fabric(alloc, fabric) {
        Ok(printed) => Some(Some(printed.as_slice()) == text.as_bytes().strip_suffix(b"script\n")),
        Err(_) => None,
    }
}

#[test]
fn a_fabric_is_printed_as_its_lines(rt: HostRuntime) {
    assert!(rt; is_fabric_printed(rt.alloc(), TWO_HOSTS) == Some(true));
}

// Whether a map of a fabric is printed as a text.
fn is_printed_as(alloc: Global, map: &FabricMap, fabric: &Fabric, text: &str) -> Option<bool>
    requires { AreOfFabric fabric.now map.now }
{
    match print_map(alloc, map, fabric) {
        Ok(printed) => Some(printed.as_slice() == text.as_bytes()),
        Err(_) => None,
    }
}

// Whether the third cable of a map is its one bridge between switches.
fn has_third_bridge(alloc: Global, map: &FabricMap) -> Option<bool> {
    match switch_bridges(alloc, map) {
        Ok(bridges) => Some(bridges.as_slice() == [2].as_slice()),
        Err(_) => None,
    }
}

// Both of the map of a text over a fabric.
fn is_read(alloc: Global, fabric: &Fabric, text: &str) -> Option<(bool, bool)> {
    if text.len() > 1000 {
        return None;
    }
    match read_map(alloc, text.as_bytes(), fabric) {
        Ok(map) => is_kept(alloc, &map, fabric, text),
        Err(_) => None,
    }
}

// Whether a map of a fabric is printed as a text, and has its one bridge there.
fn is_kept(alloc: Global, map: &FabricMap, fabric: &Fabric, text: &str) -> Option<(bool, bool)>
    requires { AreOfFabric fabric.now map.now }
{
    let printed = is_printed_as(alloc, map, fabric, text)?;
    let bridged = has_third_bridge(alloc, map)?;
    Some((printed, bridged))
}

// The same over the fabric of another text.
fn is_read_over(alloc: Global, fabric: &str, text: &str) -> Option<(bool, bool)> {
    match fabric_of(alloc, fabric) {
        Some(fabric) => is_read(alloc, &fabric, text),
        None => None,
    }
}

#[test]
fn a_map_is_printed_back_and_a_side_without_hosts_hangs_on_a_bridge(rt: HostRuntime) {
    assert!(rt; is_read_over(rt.alloc(), SELF_CABLED, SELF_CABLED_MAP) == Some((true, true)));
}

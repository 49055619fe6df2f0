//! The paths of a core over circuit links.

use crate::fabrics::{TWO_HOSTS, fabric_of};
use circ_ears::{EarList, ears};
use port_graph::Fabric;
use std::alloc::Global;

// Whether paths are that of cable 0, and that of cable 1 with its way back.
fn are_two_hosts(paths: &EarList) -> bool {
    if paths.len() != 2 {
        return false;
    }
    paths.path(0) == [0].as_slice()
        && paths.back(0) == [0].as_slice()
        && paths.path(1) == [1].as_slice()
        && paths.back(1) == [0, 1].as_slice()
}

// Whether the paths of the core of a fabric's host 0 are these.
fn has_two_hosts(alloc: Global, text: &str) -> Option<bool> {
    match fabric_of(alloc, text) {
        Some(fabric) => has_paths(alloc, &fabric),
        None => None,
    }
}

// The same over a fabric.
fn has_paths(alloc: Global, fabric: &Fabric) -> Option<bool> {
    match ears(alloc, fabric, 0) {
        Ok(paths) => Some(are_two_hosts(&paths)),
        Err(_) => None,
    }
}

#[test]
fn the_second_host_is_found_by_the_way_there(rt: HostRuntime) {
    assert!(rt; has_two_hosts(rt.alloc(), TWO_HOSTS) == Some(true));
}

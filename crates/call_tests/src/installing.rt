//! The first part that an installation awaits.

use route_install::Installer;
use std::alloc::Global;

// The host and the part that an installation of three hosts by host 0 awaits first.
fn first_awaited(alloc: Global) -> Option<(u16, u8)> {
    match Installer::new(alloc, 0, &[0, 1, 2], 3) {
        Ok(installer) => installer.next(),
        Err(_) => None,
    }
}

#[test]
fn an_installation_begins_with_the_first_other_host(rt: HostRuntime) {
    assert!(rt; first_awaited(rt.alloc()) == Some((1, 0)));
}

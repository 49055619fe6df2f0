//! Two hosts that restart, at the last incarnation.

use gm_restart::{Duo, DuoCause, DuoEffect, DuoEvent};

#[test]
fn the_last_incarnation_does_not_restart(rt: HostRuntime) {
    let alloc = rt.alloc();
    let mut duo = Duo::starting(alloc, u32::MAX).expect(&rt, "memory");
    let effect = duo.step(alloc, DuoEvent::Restart(0)).expect(&rt, "memory");
    let incarnation = duo.incarnation(0);
    duo.end(alloc);
    assert!(rt; matches!(effect, DuoEffect::Refused(DuoCause::Spent)));
    assert!(rt; incarnation == u32::MAX);
}

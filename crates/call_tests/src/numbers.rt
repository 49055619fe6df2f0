//! Offsets of ports, texts of faults.

use fab_text::NumFault;
use port_align::{ClassFrame, aligned, compose, inverse};
use std::test::Fail;

#[test]
fn offsets_add_within_their_range(rt: HostRuntime) {
    assert!(rt;
        compose(-15, -1).is_none() && compose(-15, 15) == Some(0) && compose(15, 1).is_none()
    );
}

#[test]
fn frames_of_one_class_are_aligned_and_of_two_are_not(rt: HostRuntime) {
    let low = ClassFrame {
        class: 4,
        offset: -10,
    };
    let high = ClassFrame {
        class: 4,
        offset: 5,
    };
    assert!(rt; aligned(high, low) == Some(15) && aligned(low, high) == Some(inverse(15)));
    let other = ClassFrame {
        class: 3,
        offset: 5,
    };
    assert!(rt; aligned(high, other).is_none());
}

#[test]
fn faults_of_numbers_say_what_is_wrong(rt: HostRuntime) -> Result<(), Fail> {
    let alloc = rt.alloc();
    let text = format!(in alloc; "{}; {}", NumFault::NotNumber, NumFault::TooLarge)?;
    assert!(rt; text.as_str() == "not a number; the number is too large for its place");
    Ok(())
}

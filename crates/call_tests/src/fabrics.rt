//! Fabrics, by their texts.
//!
//! A test is proved like all code. So each reads its text by a function to which the text is any: what stands in a
//! literal would be worked out wherever the reading is spoken of. And its values live in functions that hand a plain
//! one back, and no test holds any of them where it asserts.

use fabric_file::read_fabric;
use port_graph::Fabric;
use std::alloc::Global;

/// The fabric of a text; none where that is long, isn't accepted, or memory runs out.
pub(crate) fn fabric_of(alloc: Global, text: &str) -> Option<Fabric> {
    if text.len() > 1000 {
        return None;
    }
    let read = read_fabric(alloc, text.as_bytes()).ok()?;
    Some(read.fabric)
}

pub(crate) const TWO_HOSTS: &str =
    "host a\nhost b\nswitch s 8\ncable a 0 s 2\ncable b 0 s 5\nscript\n";

pub(crate) const SELF_CABLED: &str = "host a\nhost b\nswitch s 4\nswitch t 4\n\
    cable a 0 s 0\ncable b 0 s 1\ncable s 3 t 0\ncable t 1 t 2\nscript\n";

pub(crate) const RING: &str = "host a\nhost b\nhost c\nhost d\n\
    switch s0 4\nswitch s1 4\nswitch s2 4\nswitch s3 4\n\
    cable s0 0 s1 1\ncable s1 0 s2 1\ncable s2 0 s3 1\ncable s3 0 s0 1\n\
    cable a 0 s0 2\ncable b 0 s1 2\ncable c 0 s2 2\ncable d 0 s3 2\nscript\n";

//! A buffer that parts from its message, and bytes that don't count up after those that do.

ghost use Rattle.std.specs.Prelude.{◌≡◌, length};

use gm_defs::Blob;
use reg_mem::{Reg, deregister, register};
use std::alloc::Global;
use std::process::Abort;

// A buffer of a page, and the message of all its bytes, which shares them.
fn shared(rt: &impl Abort, alloc: Global) -> (Reg, Blob)
    ensures { length result.0 ≡ 4_096 }
{
    let mut buffer = register([7; 4_096].to_vec(alloc).expect(rt, "memory"));
    let message = buffer.message(alloc, 4_096).expect(rt, "memory");
    (buffer, message)
}

#[test]
fn a_message_keeps_its_bytes_when_its_buffer_is_filled(rt: HostRuntime) {
    let (mut buffer, message) = shared(&rt, rt.alloc());
    buffer.fill(4_095, &[1]);
    let bytes = deregister(buffer);
    assert!(rt; message.bytes().last() == Some(&7) && bytes.last() == Some(&1));
}

#[test]
fn a_blob_goes_on_with_bytes_that_do_not_count_up(rt: HostRuntime) {
    let mut blob = Blob::counted(254, 2);
    blob.append(rt.alloc(), &[0], 1).expect(&rt, "memory");
    blob.append(rt.alloc(), &[7], 0).expect(&rt, "memory");
    assert!(rt; blob.bytes() == [254, 255, 0, 7].as_slice());
}

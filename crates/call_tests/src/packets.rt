//! A byte's share in a CRC, a packet that loses its front byte, and bodies that are written as they were read.

use crc_eight::{contribution, crc};
use myri_packet::{Kind, encode};
use probe::ProbeBody;
use route_parts::{PartAck, RoutePart};
use std::test::Fail;

// A host probe of mapper 2 with its way back by 1 and -3.
const PROBE: [u8; 14] = [1, 0, 0, 0, 0, 0, 0, 0, 9, 0, 2, 2, 129, 189];

// Part 0 of 1 of host 2's table, with routes to hosts 0 and 1.
const PART: [u8; 23] = [
    4, 0, 0, 0, 1, 0, 0, 0, 2, 0, 1, 1, 189, 2, 0, 0, 1, 189, 0, 1, 2, 130, 191,
];

// That host 2 has taken part 3 of epoch 1.
const ACK: [u8; 8] = [5, 0, 0, 0, 1, 0, 2, 3];

#[test]
fn a_contribution_is_the_crc_of_the_byte_and_its_zeros(rt: HostRuntime) {
    let mut bytes = [0; 200];
    bytes[0] = 0x83;
    assert!(rt; contribution(0x83, 3) == 0x0b && crc(&bytes[..4]) == 0x0b);
    assert!(rt; contribution(0x83, 199) == crc(&bytes));
}

#[test]
fn a_strip_reads_the_route_byte_off_and_no_other(rt: HostRuntime) -> Result<(), Fail> {
    let mut packet = encode(rt.alloc(), &[3], Kind::Mapping, b"")?;
    assert!(rt; packet.crc_byte() == 0xad && packet.strip() == Some(3));
    assert!(rt; packet.head() == [0x00, 0x05].as_slice() && packet.crc_byte() == 0x1b);
    assert!(rt; packet.strip().is_none() && packet.size() == 3);
    Ok(())
}

#[test]
fn bodies_are_written_as_they_were_read(rt: HostRuntime) -> Result<(), Fail> {
    let alloc = rt.alloc();
    let (Ok(probe), Ok(part), Ok(ack)) = (
        ProbeBody::decode(alloc, &PROBE),
        RoutePart::decode(alloc, &PART),
        PartAck::decode(&ACK),
    ) else {
        panic!(rt; "not read");
    };
    assert!(rt; probe.encode(alloc)?.as_slice() == PROBE.as_slice());
    assert!(rt; part.encode(alloc)?.as_slice() == PART.as_slice());
    assert!(rt; ack.encode(alloc)?.as_slice() == ACK.as_slice());
    Ok(())
}

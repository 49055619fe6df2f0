//! Where a switch sends packets, by their first byte and the port that they enter by.

ghost use Rattle.std.specs.Prelude.{◌≤◌};

use crossbar::{Turned, aim};
use myri_packet::Packet;
use std::alloc::{AllocError, Global};

/// How many packets a switch sends where.
#[derive(Clone, Copy, Debug)]
pub(crate) struct Aims {
    /// By one of its ports.
    pub(crate) out: u32,
    /// To a port that it lacks.
    pub(crate) out_of_range: u32,
    /// Nowhere, since the first byte is no route byte.
    pub(crate) not_route: u32,
}

impl Aims {
    // Counts one packet.
    fn count(&mut self, turned: Turned) {
        let count = match turned {
            Turned::Out(_) => &mut self.out,
            Turned::OutOfRange => &mut self.out_of_range,
            Turned::NotRoute => &mut self.not_route,
        };
        *count = count.saturating_add(1);
    }
}

/// Sends a packet of each first byte through a switch of P ports, from each port.
pub(crate) fn count_aims<const P: usize>(alloc: Global) -> Result<Aims, AllocError>
    requires few { P ≤ 16 }
{
    let mut aims = Aims {
        out: 0,
        out_of_range: 0,
        not_route: 0,
    };
    for byte in 0..=255u8 {
        aim_from_each::<P>(&packet_of(alloc, &[byte, 0])?, &mut aims);
    }
    Ok(aims)
}

// Sends one packet from each port.
fn aim_from_each<const P: usize>(packet: &Packet, aims: &mut Aims)
    requires few { P ≤ 16 }
{
    for entry in 0..P as u8 {
        aims.count(aim::<P>(entry, packet));
    }
}

// The packet of a few bytes, which are no packet only where memory runs out.
fn packet_of(alloc: Global, bytes: &[u8]) -> Result<Packet, AllocError> {
    match Packet::from_wire(alloc, bytes) {
        Ok(packet) => Ok(packet),
        Err(_) => Err(AllocError),
    }
}

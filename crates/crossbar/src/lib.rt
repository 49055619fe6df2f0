//! A switch: where it sends a packet by the route byte in front, with one contract for 4, 8 and 16 ports.
//!
//! It holds no packet, and knows no cable. `specs/Switch.antt` of `world_defs` says where a turn leads and what is
//! left of the packet.
//!
//! ```text
//!   entry 2, turn +3            0 1 2 3 4 5 6 7       the packet leaves by port 5, without its route byte;
//!                                   ^-----^           by 2 - 3 it would be out of range
//! ```
#![tactic(auto)]

ghost use Rattle.std.specs.Prelude.{◌≡◌, ◌<◌, ◌≤◌, ℕ, Some, IsSome};
ghost use Rattle.packet_defs.specs.Packet.{difference, front_turn};
ghost use Rattle.world_defs.specs.Switch.{aim, aim_of, after_aim};

use myri_packet::Packet;
use net_defs::leaving_port;
pub use world_defs::Turned;

/// Where a switch of P ports sends a packet that entered by a port: by the turn in the first byte of its head. P is 4,
/// 8 or 16.
pub fn aim<const P: usize>(entry: u8, p: &Packet) -> Turned
    requires entered { entry < P }
    requires few { P ≤ 16 }
    ensures { result ≡ aim P entry p.now }
{
    aim_by(P as u8, entry, p)
}

/// The same of a switch whose ports are counted where the program runs.
pub fn aim_by(ports: u8, entry: u8, p: &Packet) -> Turned
    ensures { result ≡ aim ports entry p.now }
{
    match p.front_turn() {
        Some(turn) => aim_of(ports, entry, turn),
        None => Turned::NotRoute,
    }
}

/// Sends a packet through a switch: it is stripped exactly where it goes out. The switch computes no CRC anew, so a
/// difference stays.
pub fn turn<const P: usize>(entry: u8, p: &mut Packet) -> Turned
    requires entered { entry < P }
    requires few { P ≤ 16 }
    ensures aim { result ≡ aim P entry p.old }
    ensures packet { p.new ≡ after_aim result p.old }
    ensures difference { difference p.new ≡ difference p.old }
{
    let turned = aim::<P>(entry, p);
    strip_out(turned, p);
    turned
}

// Strips a packet where it goes out.
fn strip_out(turned: Turned, p: &mut Packet)
    requires { (port : ℕ) → turned ≡ Turned.Out port → IsSome (front_turn p.old) }
    ensures { p.new ≡ after_aim turned p.old }
{
    if let Turned::Out(_) = turned {
        p.strip_turn();
    }
}

// Where a turn leads.
fn aim_of(ports: u8, entry: u8, turn: i8) -> Turned
    ensures { result ≡ aim_of ports entry (Some turn) }
{
    match leaving_port(ports, entry, turn) {
        Some(port) => Turned::Out(port),
        None => Turned::OutOfRange,
    }
}

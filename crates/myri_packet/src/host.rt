//! What a host makes of a packet that reaches it.

ghost use Rattle.std.specs.Prelude.{◌≡◌, Ok, Err, MatchResult};
ghost use Rattle.packet_defs.specs.Packet.{difference};
ghost use Rattle.packet_defs.specs.Host.{decode, body_of, kind_of, has_route};
ghost use Rattle.myri_packet.specs.Bodies.{parts_of};

use crate::packet::Packet;
use packet_defs::{HostDrop, Kind};

/// The payload of a packet, by its kind.
#[derive(Clone, Copy, Debug)]
pub enum Body<'a> {
    /// The bytes after type 0x0005: a mapper's packet, or an answer to one.
    Mapping(&'a [u8]),
    /// The bytes after type 0x0008: a fragment of a message, or an acknowledgement of fragments.
    Gm(&'a [u8]),
}

/// The payload of a packet that reached a host, or the first reason to drop it: `BadCrc`, `RouteLeft` where the head
/// begins with 0x80 or more, `Malformed` where the head is shorter than a type, `UnknownType`.
pub fn decode_at_host(p: &Packet) -> Result<Body<'_>, HostDrop>
    ensures { MatchResult result (λ body. decode p.now ≡ Ok (parts_of body)) (λ drop. decode p.now ≡ Err drop) }
{
    if !p.is_sound() {
        return Err(HostDrop::BadCrc);
    }
    let head = p.head();
    if has_route(head) {
        return Err(HostDrop::RouteLeft);
    }
    body_of(head)
}

/// Whether a head has a route left: it begins with 0x80 or more.
pub fn has_route(head: &[u8]) -> bool
    ensures { result ≡ has_route head.now }
{
    match head {
        [] => false,
        [byte, ..] => 0x80 <= *byte,
    }
}

// The payload of a head without a route.
fn body_of(head: &[u8]) -> Result<Body<'_>, HostDrop>
    ensures { MatchResult result (λ body. body_of head.now ≡ Ok (parts_of body)) (λ drop. body_of head.now ≡ Err drop) }
{
    match head {
        [high, low, payload @ ..] => match kind_of(u16::from(*high) * 256 + u16::from(*low)) {
            Some(Kind::Mapping) => Ok(Body::Mapping(payload)),
            Some(Kind::Gm) => Ok(Body::Gm(payload)),
            None => Err(HostDrop::UnknownType),
        },
        _ => Err(HostDrop::Malformed),
    }
}

// The kind of a type number.
fn kind_of(number: u16) -> Option<Kind>
    ensures { result ≡ kind_of number }
{
    match number {
        0x0005 => Some(Kind::Mapping),
        0x0008 => Some(Kind::Gm),
        _ => None,
    }
}

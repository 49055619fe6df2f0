//! The bodies of probes and of their replies, read and written.

ghost use Rattle.std.specs.Prelude.{◌≡◌, ◌≤◌, ◌++◌, ◌∷◌, ℤ, List, Some, length, map, All, IfOk, OnOk};
ghost use Rattle.net_defs.specs.Turn.{IsTurn};
ghost use Rattle.net_defs.specs.Refusal.{Refuses};
ghost use Rattle.packet_defs.specs.RouteByte.{route_byte};
ghost use Rattle.world_defs.specs.Mapping.{MappingBody, mapping_bytes};
ghost use Rattle.probe.specs.Body.{said, probe_in, body_refusal};

use crate::fields::{append_numbers, numbers, numbers_front, whole_numbers};
use crate::whole_route::whole_route;
use net_defs::Walk;
use packet_defs::push_route;
use std::alloc::{AllocError, Global};

/// What a packet of a mapper's ask says. `number` is that of the probe's injection; a reply carries the number of its
/// probe.
#[derive(Debug, Drop)]
pub enum ProbeBody {
    /// Asks the host that it reaches for its address.
    HostProbe {
        /// The number of the probe's injection.
        number: u64,
        /// The host that asks.
        mapper: u16,
        /// The way back to it.
        back: Walk,
    },
    /// A host's answer.
    HostReply {
        /// The number of the probe that it answers.
        number: u64,
        /// The address of the host that answers.
        host: u16,
    },
    /// Returns to the host that sent it, exactly where the way there ends at a switch.
    Loop {
        /// The number of the probe's injection.
        number: u64,
        /// The address of the host that asks, to which it returns.
        mapper: u16,
    },
}

/// Why bytes can't be read as a body of a probe or a reply.
#[derive(Clone, Copy, Debug, PartialEq, Eq)]
pub enum BodyFault {
    /// They are none.
    Malformed,
    /// Memory ran out for a body that is one.
    NoMemory,
}

const HOST_PROBE: u8 = 1;

const HOST_REPLY: u8 = 2;

const LOOP: u8 = 3;

// The most bytes of a body.
const MAX_BODY: usize = 76;

impl ProbeBody {
    /// Its bytes.
    pub fn encode(&self, alloc: Global) -> Result<Vec<u8>, AllocError>
        ensures { IfOk result (λ bytes. bytes.items ≡ mapping_bytes (said self.now)) }
    {
        let mut bytes = Vec::with_capacity(alloc, MAX_BODY)?;
        self.append(&mut bytes)?;
        Ok(bytes)
    }

    /// Puts its bytes after others: at most 76.
    pub fn append(&self, bytes: &mut Vec<u8>) -> Result<(), AllocError>
        ensures bytes { OnOk result (bytes.new.items ≡ bytes.old.items ++ mapping_bytes (said self.now)) }
        ensures few { length (mapping_bytes (said self.now)) ≤ 76 }
    {
        match self {
            ProbeBody::HostProbe {
                number,
                mapper,
                back,
            } => append_host_probe(bytes, *number, *mapper, back.turns()),
            ProbeBody::HostReply { number, host } => {
                append_numbers(bytes, HOST_REPLY, *number, *host)
            }
            ProbeBody::Loop { number, mapper } => append_numbers(bytes, LOOP, *number, *mapper),
        }
    }

    /// The body that is all of the bytes. `Malformed` exactly where they are no body of these kinds.
    pub fn decode(alloc: Global, bytes: &[u8]) -> Result<ProbeBody, BodyFault>
        ensures ok { IfOk result (λ body. probe_in bytes.now ≡ Some (said body)) }
        ensures refused { Refuses (body_refusal bytes.now) BodyFault.NoMemory result }
    {
        let Some((kind, rest)) = bytes.split_first() else {
            return Err(BodyFault::Malformed);
        };
        match *kind {
            HOST_PROBE => probe_of(alloc, rest),
            HOST_REPLY => reply_of(rest),
            LOOP => loop_of(rest),
            _ => Err(BodyFault::Malformed),
        }
    }
}

// Puts the bytes of a host probe after others.
fn append_host_probe(
    bytes: &mut Vec<u8>,
    number: u64,
    mapper: u16,
    back: &[i8],
) -> Result<(), AllocError>
    requires short { length back.now ≤ 64 }
    requires in_range { All IsTurn back.now }
    ensures bytes { OnOk result (bytes.new.items ≡ bytes.old.items
        ++ mapping_bytes (MappingBody.HostProbe number mapper back.now)) }
    ensures few { length (mapping_bytes (MappingBody.HostProbe number mapper back.now)) ≤ 76 }
{
    append_numbers(bytes, HOST_PROBE, number, mapper)?;
    push_route(bytes, back)
}

/// What of a host probe stands before the turns of its way back, which are so many.
pub fn host_probe_front(number: u64, mapper: u16, turns: u8) -> [u8; 12]
    ensures bytes { (back : List ℤ) → length back ≡ turns
        → result ++ map route_byte back ≡ mapping_bytes (MappingBody.HostProbe number mapper back) }
    ensures size { length result ≡ 12 }
{
    let [a, b, c, d, e, f, g, h] = number.to_be_bytes();
    let [high, low] = mapper.to_be_bytes();
    [HOST_PROBE, a, b, c, d, e, f, g, h, high, low, turns]
}

/// The bytes of a loopback probe.
pub fn loop_bytes(number: u64, mapper: u16) -> [u8; 11]
    ensures bytes { result ≡ mapping_bytes (MappingBody.Loopback number mapper) }
    ensures size { length result ≡ 11 }
{
    numbers(LOOP, number, mapper)
}

// The host probe whose bytes after the kind are these.
fn probe_of(alloc: Global, bytes: &[u8]) -> Result<ProbeBody, BodyFault>
    ensures ok { IfOk result (λ body. probe_in (1 ∷ bytes.now) ≡ Some (said body)) }
    ensures refused { Refuses (body_refusal (1 ∷ bytes.now)) BodyFault.NoMemory result }
{
    let Some(((number, mapper), rest)) = numbers_front(bytes) else {
        return Err(BodyFault::Malformed);
    };
    match whole_route(alloc, rest) {
        Ok(back) => Ok(ProbeBody::HostProbe {
            number,
            mapper,
            back,
        }),
        Err(fault) => Err(fault),
    }
}

// The reply whose bytes after the kind are these.
fn reply_of(bytes: &[u8]) -> Result<ProbeBody, BodyFault>
    ensures ok { IfOk result (λ body. probe_in (2 ∷ bytes.now) ≡ Some (said body)) }
    ensures refused { Refuses (body_refusal (2 ∷ bytes.now)) BodyFault.NoMemory result }
{
    match whole_numbers(bytes) {
        Some((number, host)) => Ok(ProbeBody::HostReply { number, host }),
        None => Err(BodyFault::Malformed),
    }
}

// The loopback probe whose bytes after the kind are these.
fn loop_of(bytes: &[u8]) -> Result<ProbeBody, BodyFault>
    ensures ok { IfOk result (λ body. probe_in (3 ∷ bytes.now) ≡ Some (said body)) }
    ensures refused { Refuses (body_refusal (3 ∷ bytes.now)) BodyFault.NoMemory result }
{
    match whole_numbers(bytes) {
        Some((number, mapper)) => Ok(ProbeBody::Loop { number, mapper }),
        None => Err(BodyFault::Malformed),
    }
}

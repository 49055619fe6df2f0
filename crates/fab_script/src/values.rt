//! What single words say: names, numbers in a range, hosts and ends of the fabric.

ghost use Rattle.std.specs.Prelude.{◌≡◌, ◌≤◌, Some, IfOk};
ghost use Rattle.net_defs.specs.Building.{vertex_named};
ghost use Rattle.fab_text.specs.Word.{u32_of};
ghost use Rattle.run_defs.specs.Script.{OfName, OfNumber, value_of, address_of, end_at};
ghost use Rattle.fab_script.specs.Values.{named, number_value};

use fab_text::{FaultKind, NumFault, is_name, read_u32};
use port_graph::{End, Fabric, Vertex};

/// The word, where it is a name.
pub(crate) fn name(word: &[u8]) -> Result<(), FaultKind>
    ensures { value_of OfName word.now ≡ named word.now result }
{
    if is_name(word) {
        Ok(())
    } else {
        Err(FaultKind::BadWord)
    }
}

/// The number that a word says, which must be in a range.
pub(crate) fn number(word: &[u8], least: u32, most: u32) -> Result<u32, FaultKind>
    ensures value { number_value result ≡ value_of (OfNumber least most) word.now }
    ensures within { IfOk result (λ v. v ≤ most) }
{
    match value(word) {
        Ok(v) if least <= v && v <= most => Ok(v),
        Ok(_) => Err(FaultKind::TooLarge),
        Err(fault) => Err(FaultKind::from(fault)),
    }
}

// The number that a word says. Most have one digit, which no loop needs.
#[tactic(auto, using(crate::proofs::Digits::one_digit))]
fn value(word: &[u8]) -> Result<u32, NumFault>
    ensures { result ≡ u32_of word.now }
{
    match word {
        [digit] if b'0' <= *digit && *digit <= b'9' => Ok(u32::from(*digit - b'0')),
        _ => read_u32(word),
    }
}

/// The same, of a range up to 255.
pub(crate) fn byte(word: &[u8], least: u8, most: u8) -> Result<u8, FaultKind>
    ensures { number_value result ≡ value_of (OfNumber least most) word.now }
{
    let v = number(word, u32::from(least), u32::from(most))?;
    Ok(v as u8)
}

/// The address of the host of a name.
pub(crate) fn host(fabric: &Fabric, name: &[u8]) -> Result<u16, FaultKind>
    ensures { result ≡ address_of (vertex_named fabric.now name.now) }
{
    match fabric.find(name) {
        Some(Vertex::Host(h)) => Ok(h),
        _ => Err(FaultKind::NoVertex),
    }
}

/// The end of a vertex of a name and a port.
pub(crate) fn end(fabric: &Fabric, name: &[u8], p: u8) -> Result<End, FaultKind>
    ensures { result ≡ end_at fabric.now (vertex_named fabric.now name.now) p }
{
    match fabric.find(name) {
        Some(v) => end_of(fabric, v, p),
        None => Err(FaultKind::NoVertex),
    }
}

/// The end of a vertex and a port.
pub(crate) fn end_of(fabric: &Fabric, v: Vertex, p: u8) -> Result<End, FaultKind>
    ensures { result ≡ end_at fabric.now (Some v) p }
{
    if p < fabric.ports(v) {
        Ok(End { v, p })
    } else {
        Err(FaultKind::PortRange)
    }
}

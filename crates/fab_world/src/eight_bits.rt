//! The pattern of a flip has eight bits, since that is what its type holds.

ghost use Rattle.world_defs.specs.EightBits.{IsByteFault, IsByteEvent};

use world_defs::{Event, Fault};

/// The pattern of a flip has eight bits, planned or not.
pub(crate) fn flips_have_a_byte(e: &Event)
    ensures { IsByteEvent e.now }
{
    if let Event::Flip {
        channel: _,
        bit: _,
        pattern,
    } = e
    {
        let _byte: u8 = *pattern;
    }
}

/// The pattern of a planned flip has eight bits.
pub(crate) fn pattern_is_a_byte(fault: Fault)
    ensures { IsByteFault fault }
{
    if let Fault::Flip { bit: _, pattern } = fault {
        let _byte: u8 = pattern;
    }
}

//! The lines of the tables of hostile packets.

ghost use Rattle.std.specs.Prelude.{◌≤◌};

use crate::aims::count_aims;
use crate::cuts::count_cuts;
use crate::flips::{PAST_LAST, count_flips, refusal_of};
use std::io;

/// Prints a line for each table of packets.
pub fn print_packets(rt: &HostRuntime) -> io::Result<()> {
    print_aims::<4>(rt)?;
    print_aims::<8>(rt)?;
    print_aims::<16>(rt)?;
    print_flips(rt)?;
    print_refusal(rt, PAST_LAST, 1)?;
    print_refusal(rt, 0, 0)?;
    print_cuts(rt)
}

// The table of a switch of so many ports.
fn print_aims<const P: usize>(rt: &HostRuntime) -> io::Result<()>
    requires few { P ≤ 16 }
{
    let aims = count_aims::<P>(rt.alloc())?;
    println!(rt;
        "switch of {P} ports: {} out, {} out of range, {} not a route byte",
        aims.out, aims.out_of_range, aims.not_route
    )
}

// The table of all flips of the frame.
fn print_flips(rt: &HostRuntime) -> io::Result<()> {
    let flips = count_flips(rt.alloc())?;
    println!(rt;
        "frame flipped: {} bad CRC, {} others",
        flips.bad_crc, flips.others
    )
}

// One flip of the frame that is refused.
fn print_refusal(rt: &HostRuntime, bit: u32, pattern: u8) -> io::Result<()> {
    match refusal_of(rt.alloc(), bit, pattern)? {
        Some(refusal) => println!(rt;
            "frame flipped at bit {bit} by {pattern}: {refusal:?}, the packet is back"
        ),
        None => println!(rt;
            "frame flipped at bit {bit} by {pattern}: not refused, or the packet is another"
        ),
    }
}

// The table of the frame's body, cut.
fn print_cuts(rt: &HostRuntime) -> io::Result<()> {
    let cuts = count_cuts();
    println!(rt;
        "body cut: {} malformed, {} read; whole: {}",
        cuts.malformed,
        cuts.read,
        if cuts.whole { "read" } else { "malformed" }
    )
}

//! Where each token of a port is.

ghost use Rattle.std.specs.Prelude.{◌≡◌, ◌++◌, ◌<◌, ◌≤◌, ◌∷◌, [], true, false, flat_map, IfErr, OnOk};
ghost use Rattle.world_defs.specs.Node.{port_at};
ghost use Rattle.world_defs.specs.World.{fabric_of, node_at};
ghost use Rattle.run_defs.specs.LineRows.{place_text};
ghost use Rattle.run_defs.specs.Outcome.{places};
ghost use Rattle.run_defs.specs.Output.{OneLine};
ghost use Rattle.run_defs.specs.declared.command.Command.TheVariants.{Tokens};
ghost use Rattle.host_ports.specs.Held.{place_at};
ghost use Rattle.fab_report.specs.Printed.{printed_of};
ghost use Rattle.fab_report.specs.There.{IsHost};
ghost use Rattle.fab_world.specs.Events.{IsHostOf};
ghost use Rattle.world_commands.specs.Cut.{IsLeft};
ghost use Rattle.world_commands.specs.Done.{IsDone};
ghost use Rattle.world_commands.specs.Places.{tokens_line};

use crate::answers::print_answer;
use crate::out_of_memory::OutOfMemory;
use fab_report::Printed;
use fab_world::{PortAt, World};
use run_defs::{ClientCall, PlaceEntry};
use std::alloc::AllocError;
use world_defs::{ClientCause, Said};

/// Where each token of a port is, by number; or that the port isn't open.
pub fn tokens(w: &World, at: PortAt, printed: &mut Printed) -> Result<(), OutOfMemory>
    requires host { IsHost (fabric_of w.now) at.host }
    requires port { at.port ≤ 7 }
    ensures done { OnOk result (IsDone (Tokens at.host at.port) w.now w.now printed.new) }
    ensures err { IfErr result (λ e. IsLeft (Tokens at.host at.port) w.now w.now e) }
{
    w.moment();
    match w.minted(at.host, at.port) {
        Some(counts) => {
            let Ok(()) = print_places(w, at, counts.0, counts.1, printed) else {
                return Err(OutOfMemory::InLine);
            };
            Ok(())
        }
        None => {
            let refused = Said::Refused(ClientCause::NotOpen);
            print_answer(printed, w.fabric(), ClientCall::Tokens, at, &refused)
        }
    }
}

// The line of so many send tokens and receive tokens. No list of them is made.
fn print_places(
    w: &World,
    at: PortAt,
    sends: u16,
    recvs: u16,
    printed: &mut Printed,
) -> Result<(), AllocError>
    requires host { IsHost (fabric_of w.now) at.host }
    requires among { IsHostOf w.now at.host }
    requires port { at.port < 8 }
    ensures { OnOk result (printed.new ≡ printed_of (fabric_of w.now)
        (OneLine (tokens_line at sends recvs (port_at (node_at w.now at.host) at.port)) ∷ [])) }
{
    printed.begin_tokens(w.fabric(), at.host, at.port)?;
    put_places(w, at, true, sends, printed)?;
    printed.follow(b" recv")?;
    put_places(w, at, false, recvs, printed)?;
    printed.follow(b"\n")
}

// The places of so many tokens of one kind.
fn put_places(
    w: &World,
    at: PortAt,
    send: bool,
    count: u16,
    printed: &mut Printed,
) -> Result<(), AllocError>
    requires host { IsHostOf w.now at.host }
    requires port { at.port < 8 }
    ensures { OnOk result (printed.new ≡ record {
      text = printed.old.text ++ flat_map (λ p. 32 ∷ place_text p)
          (places count (place_at (port_at (node_at w.now at.host) at.port) send));
      figures = printed.old.figures;
    }) }
{
    for number in 0..count {
        let place = w.token_place(at.host, at.port, send, number);
        printed.put_place(PlaceEntry { number, place })?;
    }
    Ok(())
}

//! What closes one port, where it is open: a refused one goes back into its place.

ghost use Rattle.std.specs.Prelude.{◌≡◌, map, None, Some, IfOk, IfSome, OnOk, OnErr, MatchResult};
ghost use Rattle.gm_port.specs.Held.{receive_at};
ghost use Rattle.host_ports.specs.Held.{state_at};
ghost use Rattle.host_ports.specs.Refusal.{close_bar, close_word};

use crate::ask::NodeClose;
use gm_port::{CloseRefusal, Port};
use gm_tokens::RecvToken;
use reg_mem::Reg;

// Closes a port, and hands each provided token back with its buffer.
pub(crate) fn close(slot: &mut Option<Port>) -> Result<Vec<(RecvToken, Reg)>, NodeClose>
    ensures refused { MatchResult result (λ _. close_bar (state_at slot.old) ≡ None) (λ e.
        close_bar (state_at slot.old) ≡ Some e) }
    ensures unchanged { OnErr result (slot.new ≡ slot.old) }
    ensures closed { OnOk result (slot.new ≡ None) }
    ensures provided { IfOk result (λ v. IfSome slot.old (λ p.
        v.items ≡ map (receive_at p.host p.port) p.state.provided)) }
{
    match slot.take() {
        Some(port) => match port.close() {
            Ok(provided) => Ok(provided),
            Err((port, refusal)) => {
                put_back(slot, port);
                Err(word_of(refusal))
            }
        },
        None => Err(NodeClose::NotOpen),
    }
}

// Puts a port into an empty place.
pub(crate) fn put_back(slot: &mut Option<Port>, port: Port)
    requires { slot.old ≡ None }
    ensures { slot.new ≡ Some port }
{
    if let Some(_lost) = slot.replace(port) {
        unreachable!();
    }
}

fn word_of(refusal: CloseRefusal) -> NodeClose
    ensures { result ≡ close_word refusal }
{
    match refusal {
        CloseRefusal::Busy(n) => NodeClose::Busy(n),
        CloseRefusal::Unread(n) => NodeClose::Unread(n),
        CloseRefusal::Filling(n) => NodeClose::Filling(n),
    }
}

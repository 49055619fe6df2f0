//! What is read of a client, and what it is told.

ghost use Rattle.std.specs.Prelude.{◌≡◌, option_map, MatchResult, IfOk, OnErr, Ok};
ghost use Rattle.client_host.specs.Telling.{close_cause, IsCounted};

use nic_node::NodeClose;
use port_client::Client;
use std::alloc::AllocError;
use world_defs::{ClientCause, Said};

/// How many send tokens and receive tokens were minted, where there is a client.
pub(crate) fn minted_of(slot: &Option<Client>) -> Option<(u16, u16)>
    ensures { result ≡ option_map (λ c. (c.minted_sends, c.minted_recvs)) slot.now }
{
    match slot {
        Some(client) => Some(client.minted()),
        None => None,
    }
}

/// A refusal to close, as the client is told of it.
pub(crate) fn close_cause(refusal: NodeClose) -> ClientCause
    requires { IsCounted refusal }
    ensures { result ≡ close_cause refusal }
{
    match refusal {
        NodeClose::NotOpen => ClientCause::NotOpen,
        NodeClose::Busy(n) => ClientCause::Busy(n as u32),
        NodeClose::Unread(n) => ClientCause::Unread(n as u32),
        NodeClose::Filling(n) => ClientCause::Filling(n),
    }
}

/// A call was refused for a cause, or ran out of memory where there is none.
pub(crate) fn refused(cause: Option<ClientCause>) -> Result<Said, AllocError>
    ensures told { IfOk result (λ said. option_map (λ c. Said.Refused c) cause ≡ Some said) }
    ensures wanting { OnErr result (cause ≡ None) }
{
    match cause {
        Some(cause) => Ok(Said::Refused(cause)),
        None => Err(AllocError),
    }
}

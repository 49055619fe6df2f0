//! The unfinished sends of a port.
//!
//! A send's ticket is the number of its token, so who knows a token knows its ticket: a slab doesn't say which key it
//! gives out next, and a port's next state is one value. `slots` says where token and buffer lie.
//!
//! ```text
//!   ticket       0      1      2
//!            +------+------+------+
//!   places   | send |      | send |
//!            +------+------+------+
//! ```

ghost use Rattle.std.specs.Prelude.{◌≡◌, ◌<◌, [], length, map, find, false, Some, IsSome, IfOk, option_map};
ghost use Rattle.gm_defs.specs.Token.{has_number};
ghost use Rattle.gm_defs.specs.Port.{with_send, without_first};
ghost use Rattle.gm_tokens.specs.Token.{token_at};
ghost use Rattle.gm_port.specs.Held.{send_at};
ghost use Rattle.gm_port.specs.Table.{is_of, sending_numbers};

use crate::slots::SendSlots;
use gm_tokens::SendToken;
use reg_mem::Reg;
use std::alloc::{AllocError, Global};
use std::marker::Model;

/// The unfinished sends of a port, with room for one of each of its tokens.
pub(crate) struct SendQueue {
    host: u16,
    port: u8,
    places: SendSlots,
    // Empty: the list in which the sends are handed back.
    listed: Vec<(SendToken, Reg)>,
}

impl Model for SendQueue {
    ghost use Rattle.std.specs.Prelude.{length};
    ghost use Rattle.gm_port.specs.Held.{Sends};

    ghost Value = { Sends };

    ghost use Rattle.gm_port.specs.Table.{sends_of, IsQueue};

    ghost view = { λ q. record {
      host = q.host;
      port = q.port;
      limit = length q.places;
      sends = sends_of q.places;
    } };

    ghost invariant = { λ q. IsQueue q.host q.port q.places q.listed };
}

impl SendQueue {
    /// A queue with room for this many sends.
    pub(crate) fn with_room(
        alloc: Global,
        host: u16,
        port: u8,
        limit: u16,
    ) -> Result<SendQueue, AllocError>
        ensures { IfOk result (λ q. q ≡ record { host = host; port = port; limit = limit; sends = [] }) }
    {
        let limit = usize::from(limit);
        let listed = Vec::with_capacity(alloc, limit)?;
        match SendSlots::with_room(alloc, limit) {
            Ok(places) => Ok(SendQueue {
                host,
                port,
                places,
                listed,
            }),
            Err(error) => {
                listed.destroy_empty();
                Err(error)
            }
        }
    }

    pub(crate) fn host(&self) -> u16
        ensures { result ≡ self.now.host }
    {
        self.host
    }

    pub(crate) fn port(&self) -> u8
        ensures { result ≡ self.now.port }
    {
        self.port
    }

    /// How many sends aren't finished.
    pub(crate) fn len(&self) -> usize
        ensures { result ≡ length self.now.sends }
    {
        self.places.len()
    }

    /// Whether the send of this number isn't finished.
    pub(crate) fn has(&self, number: u16) -> bool
        ensures { result ≡ has_number (sending_numbers self.now.sends) number }
    {
        self.places.has(usize::from(number))
    }

    /// The buffer of a ticket's send.
    pub(crate) fn buffer(&self, ticket: usize) -> &[u8]
        requires { IsSome (find (is_of ticket) self.now.sends) }
        ensures { option_map (λ s. s.buffer) (find (is_of ticket) self.now.sends) ≡ Some result.now }
    {
        self.places.buffer(ticket)
    }

    /// Takes a send in, and gives its ticket.
    pub(crate) fn insert(&mut self, token: SendToken, buffer: Reg) -> usize
        requires own { token ≡ token_at self.old.host self.old.port token.number }
        requires minted { token.number < self.old.limit }
        requires free { has_number (sending_numbers self.old.sends) token.number ≡ false }
        ensures sends { self.new ≡ record self.old {
          sends = with_send
              (record { token = token.number; buffer = buffer }) self.old.sends;
        } }
        ensures ticket { result ≡ token.number }
    {
        let ticket = usize::from(token.number());
        self.places.put(ticket, token, buffer);
        ticket
    }

    /// Takes the send of a ticket out.
    pub(crate) fn remove(&mut self, ticket: usize) -> (SendToken, Reg)
        requires { IsSome (find (is_of ticket) self.old.sends) }
        ensures sends { self.new ≡ record self.old { sends = without_first (is_of ticket) self.old.sends } }
        ensures taken { option_map (send_at self.old.host self.old.port) (find (is_of ticket) self.old.sends)
            ≡ Some result }
    {
        self.places.take(ticket)
    }

    /// All sends, by the rising numbers of their tokens. Takes no memory.
    pub(crate) fn into_list(self) -> Vec<(SendToken, Reg)>
        ensures { result.items ≡ map (send_at self.host self.port) self.sends }
    {
        let SendQueue {
            host: _,
            port: _,
            places,
            listed,
        } = self;
        places.into_list(listed)
    }
}

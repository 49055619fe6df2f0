//! Tokens come back to their client, and their buffers end.

ghost use Rattle.std.specs.Prelude.{◌≡◌, ◌≤◌, ◌+◌, ◌++◌, length};
ghost use Rattle.std.specs.List.{AllByRecursion};
ghost use Rattle.gm_defs.specs.Token.{sent_tokens, received_tokens};
ghost use Rattle.gm_port.specs.Held.{event_of};
ghost use Rattle.world_defs.specs.Sound.{IsEachOnce};
ghost use Rattle.port_client.specs.Held.{with_sends, with_recvs};
ghost use Rattle.port_client.specs.Back.{numbers_with, AreOwnWith, IsOwnEvent, HasRoomFor, with_event, event_said};
ghost use Rattle.port_client.specs.Back.{events_of, IsWhole};

use crate::client::Client;
use gm_defs::Blob;
use gm_port::{PortEvent, Wreck};
use gm_tokens::{RecvToken, SendToken};
use reg_mem::{Reg, Rooms, deregister, release, release_into};
use std::alloc::Global;
use std::collections::VecDeque;
use world_defs::Said;

/// Takes the tokens of unfinished sends back behind those that the client holds.
pub(crate) fn take_back_sends(client: &mut Client, sending: Vec<(SendToken, Reg)>)
    requires own { AreOwnWith client.old.host client.old.port sending.items }
    requires room { length client.old.held.sends + length sending.items ≤ client.old.minted_sends }
    ensures { client.new ≡ with_sends client.old (client.old.held.sends ++ numbers_with sending.items) }
{
    let mut rest = VecDeque::from_vec(sending);
    while let Some((token, buffer)) = rest.pop_front() {
        client.give_back_send(token);
        release(buffer);
    }
    rest.destroy_empty();
}

/// Takes provided tokens back behind those that the client holds, and keeps the rooms of buffers in which nothing was
/// written.
pub fn take_back_recvs(client: &mut Client, provided: Vec<(RecvToken, Reg)>, rooms: &mut Rooms)
    requires own { AreOwnWith client.old.host client.old.port provided.items }
    requires room { length client.old.held.recvs + length provided.items ≤ client.old.minted_recvs }
    ensures { client.new ≡ with_recvs client.old (client.old.held.recvs ++ numbers_with provided.items) }
{
    let mut rest = VecDeque::from_vec(provided);
    while let Some((token, buffer)) = rest.pop_front() {
        client.give_back_recv(token);
        release_into(buffer, rooms);
    }
    rest.destroy_empty();
}

/// Takes the token of an event back behind those that the client holds, and says what the event was. The buffer of a
/// message is cut to the message, in its place. Takes no memory.
pub fn take_back(client: &mut Client, event: PortEvent) -> Said
    requires own { IsOwnEvent client.old.host client.old.port event }
    requires room { HasRoomFor client.old (event_of event) }
    ensures said { result ≡ event_said (event_of event) }
    ensures back { client.new ≡ with_event client.old (event_of event) }
{
    match event {
        PortEvent::Sent(token, buffer) => {
            let number = token.number();
            client.give_back_send(token);
            release(buffer);
            Said::Sent(number)
        }
        PortEvent::Received {
            token,
            buffer,
            from,
            sport,
            prio,
            len,
        } => {
            let number = token.number();
            client.give_back_recv(token);
            let mut bytes = deregister(buffer);
            bytes.truncate(len as usize);
            Said::Received {
                token: number,
                from,
                sport,
                prio,
                body: Blob::new(bytes),
            }
        }
    }
}

/// Takes the tokens of events back behind those that the client holds.
pub(crate) fn take_back_events(client: &mut Client, events: Vec<PortEvent>)
    requires own { AllByRecursion (IsOwnEvent client.old.host client.old.port) events.items }
    requires send_room { length client.old.held.sends
        + length (sent_tokens (events_of events.items)) ≤ client.old.minted_sends }
    requires recv_room { length client.old.held.recvs
        + length (received_tokens (events_of events.items)) ≤ client.old.minted_recvs }
    ensures { client.new ≡ with_recvs (with_sends client.old
        (client.old.held.sends ++ sent_tokens (events_of events.items)))
        (client.old.held.recvs ++ received_tokens (events_of events.items)) }
{
    let mut rest = VecDeque::from_vec(events);
    while let Some(event) = rest.pop_front() {
        let _said = take_back(client, event);
    }
    rest.destroy_empty();
}

/// Ends a client with all that its port held: each buffer is let go, and each token is retired once. Takes no memory.
pub fn end_wreck(alloc: Global, mut client: Client, wreck: Wreck)
    requires { IsWhole client wreck }
{
    let Wreck {
        sending,
        provided,
        events,
    } = wreck;
    take_back_sends(&mut client, sending);
    take_back_recvs(&mut client, provided, &mut Rooms::new(alloc));
    take_back_events(&mut client, events);
    retire(alloc, client);
}

/// Spends a client that holds all of its tokens. Takes no memory.
pub fn retire(alloc: Global, client: Client)
    requires sends { IsEachOnce client.minted_sends client.held.sends }
    requires recvs { IsEachOnce client.minted_recvs client.held.recvs }
{
    let sends = Vec::new(alloc);
    let recvs = Vec::new(alloc);
    client.end(sends, recvs);
}

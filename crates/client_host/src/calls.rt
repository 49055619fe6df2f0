//! The calls of a host's clients.

ghost use Rattle.std.specs.Prelude.{◌≡◌, ◌<◌, false, option_map, IfOk, OnOk, OnErr};
ghost use Rattle.world_defs.specs.Node.{port_at};
ghost use Rattle.world_defs.specs.Client.{begun, closed, provided_by, sent_by, polled_by};
ghost use Rattle.world_defs.specs.Step.{wanted};
ghost use Rattle.host_ports.specs.Held.{place_at};
ghost use Rattle.client_host.specs.Held.{client_in, after_call, IsFromHosts};
ghost use Rattle.client_host.specs.Telling.{is_refused};

use crate::closing::close;
use crate::host::ClientHost;
use crate::opening::begin;
use crate::polling::poll;
use crate::providing::provide;
use crate::sending::send;
use crate::telling::minted_of;
use gm_defs::TokenPlace;
use nic_node::SendAsk;
use std::alloc::{AllocError, Global};
use world_defs::Said;

impl ClientHost {
    /// Opens a port, where it isn't open: its client holds so many send tokens and receive tokens. Running out of
    /// memory changes nothing, and hides no refusal.
    pub(crate) fn begin(
        &mut self,
        alloc: Global,
        port: u8,
        sends: u16,
        recvs: u16,
    ) -> Result<Said, AllocError>
        requires { port < 8 }
        ensures said { IfOk result (λ said.
            said ≡ (begun self.old.state port sends recvs (client_in self.old port)).said) }
        ensures after { OnOk result (self.new ≡ after_call self.old port
            (begun self.old.state port sends recvs (client_in self.old port))) }
        ensures wanting { OnErr result (is_refused
            (begun self.old.state port sends recvs (client_in self.old port)).said ≡ false) }
        ensures unchanged { OnErr result (self.new ≡ self.old) }
    {
        let slot = &mut self.clients[usize::from(port)];
        begin(alloc, &mut self.node, slot, port, sends, recvs)
    }

    /// Closes an open port where no send is unfinished and no event waits: its provided tokens come back, and all of
    /// its tokens end.
    pub(crate) fn close(&mut self, port: u8) -> Said
        requires { port < 8 }
        ensures said { result ≡ (closed self.old.state port (client_in self.old port)).said }
        ensures after { self.new ≡ after_call self.old port (closed self.old.state port (client_in self.old port)) }
    {
        let alloc = *self.clients.allocator();
        let slot = &mut self.clients[usize::from(port)];
        close(alloc, &mut self.node, slot, &mut self.rooms, port)
    }

    /// The client provides the receive token that it has held longest, with a buffer of zero bytes. Running out of
    /// memory changes nothing, and hides no refusal.
    pub(crate) fn provide(
        &mut self,
        alloc: Global,
        port: u8,
        size: u8,
        prio: u8,
    ) -> Result<Said, AllocError>
        requires { port < 8 }
        ensures said { IfOk result (λ said.
            said ≡ (provided_by self.old.state port size prio (client_in self.old port)).said) }
        ensures after { OnOk result (self.new ≡ after_call self.old port
            (provided_by self.old.state port size prio (client_in self.old port))) }
        ensures wanting { OnErr result (is_refused
            (provided_by self.old.state port size prio (client_in self.old port)).said ≡ false) }
        ensures unchanged { OnErr result (self.new ≡ self.old) }
    {
        let slot = &mut self.clients[usize::from(port)];
        provide(
            alloc,
            &mut self.node,
            slot,
            &mut self.rooms,
            port,
            size,
            prio,
        )
    }

    /// The client sends so many bytes with the send token that it has held longest: byte i is the seed plus i, modulo
    /// 256. Running out of memory changes nothing, and hides no refusal.
    pub(crate) fn send(
        &mut self,
        alloc: Global,
        port: u8,
        dest: u16,
        dport: u8,
        prio: u8,
        len: u32,
        seed: u8,
    ) -> Result<Said, AllocError>
        requires port { port < 8 }
        requires dest { dest < self.old.hosts }
        requires dport { dport < 8 }
        requires prio { prio < 2 }
        ensures said { IfOk result (λ said.
            said ≡ (sent_by self.old.state (wanted port dest dport prio len seed) (client_in self.old port)).said) }
        ensures after { OnOk result (self.new ≡ after_call self.old port
            (sent_by self.old.state (wanted port dest dport prio len seed) (client_in self.old port))) }
        ensures wanting { OnErr result (is_refused
            (sent_by self.old.state (wanted port dest dport prio len seed) (client_in self.old port)).said ≡ false) }
        ensures unchanged { OnErr result (self.new ≡ self.old) }
    {
        let slot = &mut self.clients[usize::from(port)];
        let ask = SendAsk {
            dest,
            dport,
            prio,
            len,
        };
        send(alloc, &mut self.node, slot, port, ask, seed)
    }

    /// The client takes the first event of a port's queue: its token goes behind those that the client holds.
    pub(crate) fn poll(&mut self, port: u8) -> Said
        requires { port < 8 }
        ensures said { result ≡ (polled_by self.old.state port (client_in self.old port)).said }
        ensures after { self.new ≡ after_call self.old port (polled_by self.old.state port (client_in self.old port)) }
        ensures sender { IsFromHosts self.old.hosts result }
    {
        let slot = &mut self.clients[usize::from(port)];
        poll(&mut self.node, slot, port)
    }

    /// How many send tokens and receive tokens an open port has.
    pub fn minted(&self, port: u8) -> Option<(u16, u16)>
        requires { port < 8 }
        ensures { result ≡ option_map (λ p. (p.sends, p.recvs)) (port_at self.now.state port) }
    {
        minted_of(&self.clients[usize::from(port)])
    }

    /// The place of a send token or of a receive token of a port, by its number. None where the client has it, or the
    /// port isn't open.
    pub fn token_place(&self, port: u8, send: bool, number: u16) -> Option<TokenPlace>
        requires { port < 8 }
        ensures { result ≡ place_at (port_at self.now.state port) send number }
    {
        self.node.token_place(port, send, number)
    }
}

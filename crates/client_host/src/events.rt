//! A client's call, given as an event.

ghost use Rattle.std.specs.Prelude.{◌≡◌, false, true, IfOk, OnOk, OnErr};
ghost use Rattle.client_host.specs.Held.{client_in, after_call};
ghost use Rattle.client_host.specs.Telling.{is_refused};
ghost use Rattle.client_host.specs.Calls.{IsClientCall, IsCallGiven, host_of_call, port_of_call, call_of};
ghost use Rattle.client_host.specs.Calls.{call_takes_memory, IsPolledFrom};

use crate::host::ClientHost;
use std::alloc::{AllocError, Global};
use world_defs::{Event, Said};

impl ClientHost {
    /// A client's call at this host, on a port of it. Running out of memory changes nothing, and hides no refusal; a
    /// close and a poll take none. A message that a poll hands out came from one of the hosts.
    pub fn call(&mut self, alloc: Global, e: &Event) -> Result<Said, AllocError>
        requires { IsCallGiven self.old.hosts e.now }
        ensures said { IfOk result (λ said.
            said ≡ (call_of e.now self.old.state (client_in self.old (port_of_call e.now))).said) }
        ensures after { OnOk result (self.new ≡ after_call self.old (port_of_call e.now)
            (call_of e.now self.old.state (client_in self.old (port_of_call e.now)))) }
        ensures wanting { OnErr result (is_refused
            (call_of e.now self.old.state (client_in self.old (port_of_call e.now))).said ≡ false) }
        ensures memory { OnErr result (call_takes_memory e.now ≡ true) }
        ensures unchanged { OnErr result (self.new ≡ self.old) }
        ensures sender { IfOk result (IsPolledFrom self.old.hosts e.now) }
    {
        match e {
            Event::Begin {
                host: _,
                port,
                sends,
                recvs,
            } => self.begin(alloc, *port, *sends, *recvs),
            Event::Close { host: _, port } => Ok(self.close(*port)),
            Event::Provide {
                host: _,
                port,
                size,
                prio,
            } => self.provide(alloc, *port, *size, *prio),
            Event::Send {
                host: _,
                port,
                dest,
                dport,
                prio,
                len,
                seed,
            } => self.send(alloc, *port, *dest, *dport, *prio, *len, *seed),
            Event::Poll { host: _, port } => Ok(self.poll(*port)),
            _ => unreachable!(),
        }
    }
}

/// The host of a client's call.
pub fn caller(e: &Event) -> u16
    requires { IsClientCall e.now }
    ensures { result ≡ host_of_call e.now }
{
    match e {
        Event::Begin { host, .. }
        | Event::Close { host, .. }
        | Event::Provide { host, .. }
        | Event::Send { host, .. }
        | Event::Poll { host, .. } => *host,
        _ => unreachable!(),
    }
}

//! An open port, as lines tell it.

ghost use Rattle.std.specs.Prelude.{◌≡◌, ◌+◌, true, ◌&&◌, nat_eq, length, IfOk, OnOk, OnErr};
ghost use Rattle.gm_defs.specs.Port.{without_first};
ghost use Rattle.gm_defs.specs.Token.{has_number};
ghost use Rattle.world_defs.specs.Client.{new_client};
ghost use Rattle.port_ledgers.specs.Held.{with_sends, with_recvs, is_out, with_back, are_placed};

use crate::ToldPlace;
use crate::held::Held;
use std::alloc::{AllocError, Global};
use std::marker::Model;

/// How many tokens a port has, and those that its client holds.
#[derive(Drop)]
pub(crate) struct OpenPort {
    sends: u16,
    recvs: u16,
    held_sends: Held,
    held_recvs: Held,
}

impl Model for OpenPort {
    ghost use Rattle.port_ledgers.specs.Held.{OpenPort};

    ghost Value = { OpenPort };

    ghost view = { λ p. record {
      sends = p.sends;
      recvs = p.recvs;
      client = record { sends = p.held_sends; recvs = p.held_recvs };
    } };
}

impl OpenPort {
    /// A port that was just opened: its client holds all tokens.
    pub(crate) fn open(alloc: Global, sends: u16, recvs: u16) -> Result<OpenPort, AllocError>
        ensures { IfOk result (λ p. p ≡ record { sends = sends; recvs = recvs; client = new_client sends recvs }) }
    {
        let held_sends = Held::all(alloc, sends)?;
        let held_recvs = Held::all(alloc, recvs)?;
        Ok(OpenPort {
            sends,
            recvs,
            held_sends,
            held_recvs,
        })
    }

    /// Whether so many receive tokens are with the port.
    pub(crate) fn has_provided(&self, count: u64) -> bool
        ensures { result ≡ nat_eq (count + length self.now.client.recvs) self.now.recvs }
    {
        let held = self.held_recvs.len();
        u128::from(count) + held as u128 == u128::from(self.recvs)
    }

    /// Whether a line tells right where each token is.
    pub(crate) fn are_placed(&self, sends: &[ToldPlace], recvs: &[ToldPlace]) -> bool
        ensures { result ≡ (are_placed self.now.sends self.now.client.sends sends.now
            && are_placed self.now.recvs self.now.client.recvs recvs.now) }
    {
        self.held_sends.are_placed(self.sends, sends)
            && self.held_recvs.are_placed(self.recvs, recvs)
    }

    /// A send token is used. False exactly where it isn't held.
    pub(crate) fn take_send(&mut self, token: u64) -> bool
        ensures held { result ≡ has_number self.old.client.sends token }
        ensures rest { self.new ≡ with_sends (without_first (nat_eq token) self.old.client.sends) self.old }
    {
        self.held_sends.take(token)
    }

    /// A receive token is used. False exactly where it isn't held.
    pub(crate) fn take_recv(&mut self, token: u64) -> bool
        ensures held { result ≡ has_number self.old.client.recvs token }
        ensures rest { self.new ≡ with_recvs (without_first (nat_eq token) self.old.client.recvs) self.old }
    {
        self.held_recvs.take(token)
    }

    /// A send token comes back. False exactly where it isn't out.
    pub(crate) fn give_back_send(&mut self, token: u64) -> Result<bool, AllocError>
        ensures out { IfOk result (λ is. is ≡ is_out self.old.sends self.old.client.sends token) }
        ensures back { OnOk result (self.new
            ≡ with_sends (with_back self.old.sends self.old.client.sends token) self.old) }
        ensures memory { OnErr result (is_out self.old.sends self.old.client.sends token ≡ true) }
        ensures err { OnErr result (self.new ≡ self.old) }
    {
        self.held_sends.give_back(self.sends, token)
    }

    /// A receive token comes back. False exactly where it isn't out.
    pub(crate) fn give_back_recv(&mut self, token: u64) -> Result<bool, AllocError>
        ensures out { IfOk result (λ is. is ≡ is_out self.old.recvs self.old.client.recvs token) }
        ensures back { OnOk result (self.new
            ≡ with_recvs (with_back self.old.recvs self.old.client.recvs token) self.old) }
        ensures memory { OnErr result (is_out self.old.recvs self.old.client.recvs token ≡ true) }
        ensures err { OnErr result (self.new ≡ self.old) }
    {
        self.held_recvs.give_back(self.recvs, token)
    }
}

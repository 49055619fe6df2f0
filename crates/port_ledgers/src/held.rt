//! The tokens of one kind that a port's client holds.

ghost use Rattle.std.specs.Prelude.{◌≡◌, true, nat_eq, position, length, IfOk, OnOk, OnErr};
ghost use Rattle.std.specs.List.{range_with_len};
ghost use Rattle.gm_defs.specs.Port.{without_first};
ghost use Rattle.gm_defs.specs.Token.{has_number};
ghost use Rattle.port_ledgers.specs.Held.{is_out, with_back, are_placed, are_placed_from, is_placed};

use crate::ToldPlace;
use std::alloc::{AllocError, Global};
use std::marker::Model;

/// Numbers of tokens, held longest first.
#[derive(Drop)]
pub(crate) struct Held {
    tokens: Vec<u16>,
}

impl Model for Held {
    ghost use Rattle.std.specs.Prelude.{List, ℕ};

    ghost Value = { List ℕ };

    ghost view = { λ h. h.tokens.items };
}

impl Held {
    /// So many tokens, by rising number.
    #[tactic(auto, using(crate::proofs::Lists::ranged_next))]
    pub(crate) fn all(alloc: Global, count: u16) -> Result<Held, AllocError>
        ensures { IfOk result (λ h. h ≡ range_with_len 0 count) }
    {
        let mut tokens = Vec::with_capacity(alloc, usize::from(count))?;
        for token in 0..count {
            tokens.push_reserved(token);
        }
        Ok(Held { tokens })
    }

    /// How many are held.
    pub(crate) fn len(&self) -> usize
        ensures { result ≡ length self.now }
    {
        self.tokens.len()
    }

    /// Whether a line tells right of each of so many tokens: each once, by number, and with the client those that it
    /// holds.
    pub(crate) fn are_placed(&self, count: u16, told: &[ToldPlace]) -> bool
        ensures { result ≡ are_placed count self.now told.now }
    {
        told.len() == usize::from(count) && self.are_placed_from(told)
    }

    // Whether they are numbered from 0 on, and with the client exactly those that are held.
    fn are_placed_from(&self, told: &[ToldPlace]) -> bool
        ensures { result ≡ are_placed_from 0 self.now told.now }
    {
        for i in 0..told.len() {
            if !self.is_placed(i, told[i]) {
                return false;
            }
        }
        true
    }

    // Whether a token has this number, and is with the client exactly where it is held.
    fn is_placed(&self, number: usize, told: ToldPlace) -> bool
        ensures { result ≡ is_placed number self.now told }
    {
        told.number == number as u64 && told.with_client == self.has(told.number)
    }

    // Whether a token is held.
    fn has(&self, token: u64) -> bool
        ensures { result ≡ has_number self.now token }
    {
        self.tokens.iter().any(|t| token == u64::from(*t))
    }

    /// A token is used. False exactly where it isn't held, which changes nothing.
    #[tactic(auto, using(crate::proofs::Lists::none_removed))]
    pub(crate) fn take(&mut self, token: u64) -> bool
        ensures held { result ≡ has_number self.old token }
        ensures rest { self.new ≡ without_first (nat_eq token) self.old }
    {
        match self.place(token) {
            Some(at) => {
                let _used = self.tokens.remove(at);
                true
            }
            None => false,
        }
    }

    /// A token of so many comes back. False exactly where there is none of this number, or it is held; then, and on an
    /// error, nothing changes. Memory may run out only where it may come back.
    pub(crate) fn give_back(&mut self, count: u16, token: u64) -> Result<bool, AllocError>
        ensures out { IfOk result (λ is. is ≡ is_out count self.old token) }
        ensures back { OnOk result (self.new ≡ with_back count self.old token) }
        ensures memory { OnErr result (is_out count self.old token ≡ true) }
        ensures err { OnErr result (self.new ≡ self.old) }
    {
        if token >= u64::from(count) || self.has(token) {
            return Ok(false);
        }
        match self.tokens.push(token as u16) {
            Ok(()) => Ok(true),
            Err(_) => Err(AllocError),
        }
    }

    // The place of a token.
    fn place(&self, token: u64) -> Option<usize>
        ensures { result ≡ position (nat_eq token) self.now }
    {
        self.tokens.iter().position(|t| token == u64::from(*t))
    }
}

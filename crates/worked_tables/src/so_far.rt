//! The entries of a journal so far, as the plain closure takes them.

use net_defs::Answer;
use probe::Entry;
use std::alloc::{AllocError, Global};

// How many turns a node has.
const TURNS: u32 = 30;

/// The entries of a journal so far.
#[derive(Drop)]
pub(crate) struct SoFar<'j> {
    /// Every walk that was asked.
    pub(crate) asked: Vec<&'j [i8]>,
    /// The walks that found something.
    pub(crate) found: Vec<&'j [i8]>,
    /// The address of the mapper's host, and of each host that a walk found; none for a switch.
    pub(crate) hosts: Vec<Option<u16>>,
}

impl<'j> SoFar<'j> {
    /// No entries of a host's journal.
    pub(crate) fn new(alloc: Global, host: u16) -> Result<SoFar<'j>, AllocError> {
        Ok(SoFar {
            asked: Vec::new(alloc),
            found: Vec::new(alloc),
            hosts: vec![in alloc; Some(host)]?,
        })
    }

    /// Goes on by an entry.
    pub(crate) fn push(&mut self, e: &'j Entry) -> Result<(), AllocError> {
        let walk = e.walk.turns();
        self.asked.push(walk)?;
        match e.answer {
            Answer::Host(host) => self.push_node(walk, Some(host)),
            Answer::Switch => self.push_node(walk, None),
            Answer::Nothing => Ok(()),
        }
    }

    fn push_node(&mut self, walk: &'j [i8], host: Option<u16>) -> Result<(), AllocError> {
        self.found.push(walk)?;
        self.hosts.push(host)?;
        Ok(())
    }

    /// Whether all 30 turns of a node's walk are asked. Node 0 is the mapper's host, which has no walk.
    pub(crate) fn is_expanded(&self, node: usize) -> bool {
        match node.checked_sub(1) {
            Some(place) => match self.found.get(place) {
                Some(walk) => count_turns(&self.asked, walk) == TURNS,
                None => false,
            },
            None => false,
        }
    }
}

// How many turns of a walk are asked.
fn count_turns(asked: &[&[i8]], walk: &[i8]) -> u32 {
    let mut count = 0u32;
    for turns in asked {
        if is_turn_of(turns, walk) {
            count = count.saturating_add(1);
        }
    }
    count
}

// Whether turns are a walk's and one more, by which no packet goes back.
fn is_turn_of(turns: &[i8], walk: &[i8]) -> bool {
    match turns.split_last() {
        Some((last, front)) => *last != 0 && front == walk,
        None => false,
    }
}

//! Which part of which table a mapper awaits.

ghost use Rattle.std.specs.Prelude.{◌≡◌, ◌<◌, ◌≤◌, map, not, nat_eq, length, slice_get, slice_set};
ghost use Rattle.std.specs.Prelude.{is_none, IfOk, IfSome, IsSome};
ghost use Rattle.std.specs.List.{filter, list_all};
ghost use Rattle.route_install.specs.Installing.{Installation, CanBegin, new_work, new_installation, parts_for};
ghost use Rattle.route_install.specs.Installing.{AreOpen, is_done, first_open, awaited, is_awaited, one_acked};
ghost use Rattle.route_install.specs.Installing.{one_silent, changed, after_ack, after_silence, acked_of};

use crate::cut::part_count;
use route_parts::PartAck;
use std::alloc::{AllocError, Global};
use std::marker::Model;

/// The work for a host.
#[derive(Clone, Copy, Debug, PartialEq, Eq)]
pub struct Work {
    /// The address of the host.
    pub host: u16,
    /// How many parts its table has.
    pub parts: u8,
    /// How many of them were acknowledged.
    pub acked: u8,
    /// How often the next one met silence.
    pub silences: u8,
}

impl Work {
    /// The work for a host whose table has so many parts, before the first of them.
    pub fn new(host: u16, parts: u8) -> Work
        ensures { result ≡ new_work parts host }
    {
        Work {
            host,
            parts,
            acked: 0,
            silences: 0,
        }
    }
}

/// The work of an installation, host by host and part by part. Contracts see the installation of the definitions.
#[derive(Debug, Drop)]
pub struct Installer {
    works: Vec<Work>,
    /// The first work that isn't done.
    at: usize,
    tries: u8,
}

impl Model for Installer {
    ghost use Rattle.route_install.specs.Installing.{Installation, IsInstaller};

    ghost Value = { Installation };

    ghost view = { λ i. record { tries = i.tries; works = i.works.items } };

    ghost invariant = { λ i. IsInstaller (record { tries = i.tries; works = i.works.items }) i.at };
}

impl Installer {
    /// The installation of the tables of all hosts but the mapper, each part in so many tries.
    pub fn new(
        alloc: Global,
        mapper: u16,
        hosts: &[u16],
        tries: u8,
    ) -> Result<Installer, AllocError>
        requires { CanBegin mapper hosts.now tries }
        ensures { IfOk result (λ i. i ≡ new_installation mapper hosts.now tries) }
    {
        let parts = part_count(hosts.len() - 1);
        let works = works_for(alloc, mapper, hosts, parts)?;
        Ok(Installer::of_works(works, tries))
    }

    /// The installation of tables that need not have the same number of parts. A host without parts has no work.
    pub fn of_works(works: Vec<Work>, tries: u8) -> Installer
        requires { AreOpen works.items tries }
        ensures { result ≡ record { tries = tries; works = works.items } }
    {
        Installer {
            works,
            at: 0,
            tries,
        }
    }

    /// The awaited host and part. None exactly where each host is acknowledged whole or given up.
    pub fn next(&self) -> Option<(u16, u8)>
        ensures value { result ≡ awaited self.now }
        ensures ended { is_none result ≡ list_all (is_done self.now.tries) self.now.works }
    {
        match self.first_open() {
            Some(work) => Some((work.host, work.acked)),
            None => None,
        }
    }

    /// Takes an acknowledgement, of any epoch. True exactly where it is of the awaited host and part; else nothing
    /// changes.
    pub fn on_ack(&mut self, a: PartAck) -> bool
        ensures awaited { result ≡ is_awaited (awaited self.old) a.host a.part }
        ensures after { self.new ≡ after_ack self.old a.host a.part }
    {
        match self.first_open() {
            Some(work) => {
                if work.host == a.host && work.acked == a.part {
                    self.put(acknowledged(work));
                    true
                } else {
                    false
                }
            }
            None => false,
        }
    }

    /// Counts a silence of the awaited part. The last try's gives the host up.
    pub fn on_silence(&mut self)
        requires { IsSome (awaited self.old) }
        ensures { self.new ≡ after_silence self.old }
    {
        match self.first_open() {
            Some(work) => self.put(silent(work)),
            None => {}
        }
    }

    /// Whether each of a host's parts was acknowledged. The mapper has none.
    pub fn acked(&self, host: u16) -> bool
        ensures { result ≡ acked_of self.now host }
    {
        self.works
            .iter()
            .all(|work| work.host != host || work.acked >= work.parts)
    }

    // The first work that isn't done.
    fn first_open(&self) -> Option<Work>
        ensures value { result ≡ first_open self.now }
        ensures room { IfSome result (λ w. (w.acked < w.parts) × (w.silences < 8)) }
    {
        work_at(&self.works, self.at)
    }

    // Puts a work in the place of the first that isn't done.
    fn put(&mut self, work: Work)
        requires { IsSome (first_open self.old) }
        ensures { self.new ≡ record self.old { works = changed (is_done self.old.tries) (λ w. work) self.old.works } }
    {
        set_at(&mut self.works, self.at, work);
        if is_done(self.tries, work) {
            self.at += 1;
        }
    }
}

// The work for all hosts but the mapper, each of whose tables has so many parts.
fn works_for(alloc: Global, mapper: u16, hosts: &[u16], parts: u8) -> Result<Vec<Work>, AllocError>
    ensures { IfOk result (λ works.
        works.items ≡ map (new_work parts) (filter (λ h. not (nat_eq h mapper)) hosts.now)) }
{
    let mut works = Vec::with_capacity(alloc, hosts.len())?;
    for host in hosts {
        if *host != mapper {
            works.push(Work::new(*host, parts))?;
        }
    }
    Ok(works)
}

// The work at a place.
fn work_at(works: &[Work], at: usize) -> Option<Work>
    ensures { result ≡ slice_get works.now at }
{
    works.get(at).copied()
}

// Puts a work at a place.
fn set_at(works: &mut Vec<Work>, at: usize, work: Work)
    requires { at < length works.old.items }
    ensures { works.new.items ≡ slice_set works.old.items at work }
{
    works[at] = work;
}

// Whether a work is done, with so many tries of a part.
fn is_done(tries: u8, work: Work) -> bool
    ensures { result ≡ is_done tries work }
{
    work.acked >= work.parts || work.silences >= tries
}

// A work whose part was acknowledged.
fn acknowledged(work: Work) -> Work
    requires { work.acked < work.parts }
    ensures { result ≡ one_acked work }
{
    Work {
        acked: work.acked + 1,
        silences: 0,
        ..work
    }
}

// A work whose part met silence.
fn silent(work: Work) -> Work
    requires { work.silences < 8 }
    ensures { result ≡ one_silent work }
{
    Work {
        silences: work.silences + 1,
        ..work
    }
}

//! The world.

ghost use Rattle.std.specs.Prelude.{◌≡◌, ◌≢◌, ◌≤◌, ℕ, length, true, option_map, IfOk};
ghost use Rattle.std.specs.Prelude.{false, is_some, option_copied, IfSome, IfNone, OnOk, OnErr};
ghost use Rattle.world_defs.specs.History.{fabric_at};
ghost use Rattle.world_defs.specs.Later.{OnlyPulled, IsLater};
ghost use Rattle.world_defs.specs.declared.moved.Moved.TheVariants.{To};
ghost use Rattle.world_defs.specs.Advance.{advance};
ghost use Rattle.link_model.specs.FullSlots.{IsLone};
ghost use Rattle.port_graph.specs.Routes.{HandsBack};
ghost use Rattle.world_defs.specs.Traffic.{IsHonestTraffic};
ghost use Rattle.world_defs.specs.World.{fabric_of, host_count, new_world, planned, adopted_by, epoch_of, standing_of};
ghost use Rattle.world_defs.specs.declared.event.Event.TheVariants.{Ask, Inject, Advance};
ghost use Rattle.world_defs.specs.Step.{step};
ghost use Rattle.world_defs.specs.Acts.{IsReached};
ghost use Rattle.message_laws.specs.Untouched.{HandsBackBy};
ghost use Rattle.message_laws.specs.Windows.{HasWindows};
ghost use Rattle.message_laws.specs.Filling.{HasTiedParts};
ghost use Rattle.world_defs.specs.Sound.{IsSound};
ghost use Rattle.adopted_routes.specs.Adopting.{IsAdoptable, adopt_refusal, part_count_for};
ghost use Rattle.fab_world.specs.Events.{IsHostOf, IsChannelOf, IsGiven, takes_memory};
ghost use Rattle.fab_world.specs.Held.{IsMoment, IsOfHosts, is_refusal};
ghost use Rattle.fab_world.specs.Carried.{IsCarriedIn, clear_way};
ghost use Rattle.fab_world.specs.Hop.{IsHopIn, IsRunIn};
ghost use Rattle.fab_world.specs.Moments.{AreBuffersUntouched, AreQueuesUnfinished};

mod reading;

use crate::changing;
use crate::eight_bits::{flips_have_a_byte, pattern_is_a_byte};
use crate::machine::{Machine, Probed};
use adopted_routes::AdoptRefusal;
use client_host::Packet;
use faulty_links::{Hop, Run};
use net_defs::Walk;
use port_graph::{Fabric, RouteSet};
use std::alloc::{AllocError, Global};
use std::marker::Model;
use world_defs::{Effect, Event, Fault};

/// The world of a fabric: its links and what they hold, its hosts with their clients, the routes that are adopted,
/// the plan of faults, and the counts. Hosts and channels in arguments are there, and a host has eight ports. Cables
/// come and go; the numbers of channels are for life.
///
/// It must be spent, by [`World::end`].
pub struct World {
    fabric: Fabric,
    pub(crate) machine: Machine,
}

impl Model for World {
    ghost use Rattle.std.specs.Prelude.{◌≡◌};
    ghost use Rattle.world_defs.specs.History.{fabric_at};
    ghost use Rattle.world_defs.specs.World.{WorldState, fabric_of};
    ghost use Rattle.world_defs.specs.Acts.{IsReached};
    ghost use Rattle.fab_world.specs.Held.{IsMoment};

    ghost Value = { WorldState };

    ghost view = { λ w. w.machine };

    ghost invariant = { λ w. IsMoment w.machine × (w.fabric ≡ fabric_of w.machine)
        × IsReached (fabric_at w.machine.links.cables 0) w.machine };
}

impl World {
    /// The world of a fabric before anything happened: empty, and without faults.
    pub fn new(alloc: Global, fabric: Fabric) -> Result<World, AllocError>
        ensures new { IfOk result (λ w. w ≡ new_world fabric) }
        ensures fabric { IfOk result (λ w. fabric_of w ≡ fabric) }
    {
        match Machine::new(alloc, &fabric) {
            Ok(machine) => Ok(World { fabric, machine }),
            Err(wanting) => {
                end_fabric(fabric);
                Err(wanting)
            }
        }
    }

    /// One event: its effect, and the world after it. A close that says how many buffers it hands back hands back each
    /// provided token with its buffer as it was provided, and each other token is with the client. Running out of
    /// memory changes nothing, and hides no refusal: a client's call that runs out of memory isn't refused. A loss, a
    /// reset, a replay, a pull, an expiry, a close and a poll take no memory, nor does a host that gives up.
    pub fn step(&mut self, alloc: Global, e: Event) -> Result<Effect, AllocError>
        requires { IsGiven self.old e }
        ensures ok { IfOk result (λ x. step self.old e ≡ (x, self.new)) }
        ensures host { IfOk result (IsOfHosts (host_count self.old)) }
        ensures back { IfOk result (HandsBackBy self.old e) }
        ensures wanting { OnErr result (is_refusal (step self.old e).0 ≡ false) }
        ensures memory { OnErr result (takes_memory e ≡ true) }
        ensures err { OnErr result (self.new ≡ self.old) }
        ensures cables { IsLater self.old.links.cables self.new.links.cables }
        ensures hosts { host_count self.new ≡ host_count self.old }
        ensures channels { length self.old.links.channels ≤ length self.new.links.channels }
        ensures adopted { self.new.adopted ≡ self.old.adopted }
    {
        flips_have_a_byte(&e);
        changing::step(&mut self.fabric, &mut self.machine, alloc, &e)
    }

    /// A host stages a probe by a walk and puts it into its channel, and the packet goes to its end, all at once:
    /// [`World::step`] of [`Event::Ask`], of [`Event::Inject`], and of the advances of the packet. None exactly where
    /// another packet is in the links, a fault is planned for this one, no injection is left, or the host has no
    /// channel or something staged; then nothing has happened. The packet is written into the buffer of the one given,
    /// and stands in no channel on its way. Running out of memory changes nothing.
    #[inline(always)]
    pub fn probe(
        &mut self,
        alloc: Global,
        host: u16,
        walk: &Walk,
        looped: bool,
        packet: &mut Packet,
    ) -> Result<Option<Probed>, AllocError>
        requires there { IsHostOf self.old host }
        requires short { looped ≡ true → length walk.now ≤ 31 }
        ensures carried { IfOk result (λ o. IfSome o (λ p. IsCarriedIn
            (step self.old (Ask host walk.now looped)).1 host p.number p.hops p.effect self.new)) }
        ensures none { IfOk result (λ o. IfNone o (self.new ≡ self.old)) }
        ensures exactly { IfOk result (λ o. is_some o ≡ is_some (clear_way self.old host)) }
        ensures err { OnErr result (self.new ≡ self.old) }
        ensures cables { self.new.links.cables ≡ self.old.links.cables }
        ensures hosts { host_count self.new ≡ host_count self.old }
    {
        self.machine.probe(alloc, host, walk, looped, packet)
    }

    /// [`World::step`] of [`Event::Inject`]. Running out of memory changes nothing.
    pub fn inject(&mut self, alloc: Global, host: u16) -> Result<Effect, AllocError>
        requires { IsHostOf self.old host }
        ensures ok { IfOk result (λ x. step self.old (Inject host) ≡ (x, self.new)) }
        ensures err { OnErr result (self.new ≡ self.old) }
        ensures cables { OnlyPulled self.old.links.cables self.new.links.cables }
        ensures hosts { host_count self.new ≡ host_count self.old }
        ensures channels { length self.new.links.channels ≡ length self.old.links.channels }
        ensures adopted { self.new.adopted ≡ self.old.adopted }
    {
        changing::inject(&mut self.fabric, &mut self.machine, alloc, host)
    }

    /// [`World::step`] of [`Event::Advance`]. Running out of memory changes nothing. It stands in its callers with all
    /// but the host that hears the packet: most packets of a mapper are dropped at a switch.
    #[inline(always)]
    pub fn advance(&mut self, alloc: Global, c: u16) -> Result<Effect, AllocError>
        requires { IsChannelOf self.old c }
        ensures ok { IfOk result (λ x. step self.old (Advance c) ≡ (x, self.new)) }
        ensures host { IfOk result (IsOfHosts (host_count self.old)) }
        ensures err { OnErr result (self.new ≡ self.old) }
        ensures cables { self.new.links.cables ≡ self.old.links.cables }
        ensures fabric { fabric_of self.new ≡ fabric_of self.old }
        ensures hosts { host_count self.new ≡ host_count self.old }
        ensures channels { length self.new.links.channels ≡ length self.old.links.channels }
        ensures adopted { self.new.adopted ≡ self.old.adopted }
    {
        self.machine.advance(alloc, c)
    }

    /// An advance of a channel into the next one, or one that is blocked. It is left untried, and to the event itself,
    /// exactly where the advance is anything else: the event may hand out any effect, which is slower.
    pub fn hop(&mut self, c: u16) -> Hop
        requires { IsChannelOf self.old c }
        ensures hop { IsHopIn self.old c result self.new }
        ensures cables { self.new.links.cables ≡ self.old.links.cables }
        ensures fabric { fabric_of self.new ≡ fabric_of self.old }
        ensures hosts { host_count self.new ≡ host_count self.old }
        ensures channels { length self.new.links.channels ≡ length self.old.links.channels }
    {
        self.machine.hop(c)
    }

    /// The only packet in the channels goes on from channel to channel, until its next advance leads into none: how
    /// far. It is in this channel.
    pub fn run(&mut self, c: u16) -> Run
        requires { IsLone self.old.links.channels c }
        ensures run { IsRunIn self.old c result.hops result.at self.new }
        ensures lone { IsLone self.new.links.channels result.at }
        ensures last { (next : ℕ) → (advance self.new.links result.at).0 ≢ To next }
        ensures few { result.hops ≤ 1107 }
        ensures cables { self.new.links.cables ≡ self.old.links.cables }
        ensures fabric { fabric_of self.new ≡ fabric_of self.old }
        ensures hosts { host_count self.new ≡ host_count self.old }
    {
        self.machine.run(c)
    }

    /// Adopts routes: a host is their adopter from now on, and its table is theirs at once. Where they are the adopted
    /// ones, no host gave their epoch up, and no cable came or went since that began, it is kept, and nothing else
    /// changes. Else the next begins, and no cable is new any more.
    ///
    /// Refused routes are handed back, and nothing has changed: `Unrevoked` and `Epochs` exactly where the epoch isn't
    /// kept and, in this order, some host hasn't given it up, or it is the last.
    pub fn adopt(
        &mut self,
        alloc: Global,
        mapper: u16,
        set: RouteSet,
    ) -> Result<(), (RouteSet, AdoptRefusal)>
        requires there { IsHostOf self.old mapper }
        requires adoptable { IsAdoptable (fabric_of self.old) mapper set }
        ensures adopted { OnOk result (self.new ≡ adopted_by self.old mapper set) }
        ensures refused { HandsBack (adopt_refusal (standing_of self.old) set self.old.adopted)
            AdoptRefusal.NoMemory set result }
        ensures unchanged { OnErr result (self.new ≡ self.old) }
        ensures fabric { fabric_of self.new ≡ fabric_of self.old }
        ensures hosts { host_count self.new ≡ host_count self.old }
        ensures channels { length self.new.links.channels ≡ length self.old.links.channels }
    {
        let _rising = set.list();
        self.machine.adopt(alloc, mapper, set)
    }

    /// Why [`World::adopt`] refuses routes, unless memory runs out. It takes no memory.
    pub fn adopt_refusal(&self, set: &RouteSet) -> Option<AdoptRefusal>
        ensures { result ≡ adopt_refusal (standing_of self.now) set.now self.now.adopted }
    {
        self.machine.adopted.refusal(set, self.machine.standing())
    }

    /// The adopted routes. None exactly where none are adopted.
    pub fn adopted(&self) -> Option<&RouteSet>
        ensures { option_copied result ≡ option_map (λ a. a.routes) self.now.adopted }
    {
        self.machine.adopted.routes()
    }

    /// The epoch of the adopted routes, 0 before the first.
    pub fn epoch(&self) -> u32
        ensures { result ≡ epoch_of self.now }
    {
        self.machine.adopted.epoch()
    }

    /// How many changes of cables there had been when the epoch of the adopted routes began. None exactly where none
    /// are adopted.
    pub fn adopted_at(&self) -> Option<u64>
        ensures { result ≡ option_map (λ a. a.at) self.now.adopted }
    {
        match self.machine.adopted.adopted_at() {
            Some(at) => Some(u64::from(at)),
            None => None,
        }
    }

    /// How many times a cable was pulled or plugged.
    pub fn changes(&self) -> u64
        ensures { result ≡ self.now.links.cables.changes }
    {
        u64::from(self.machine.links.changes())
    }

    /// The adopter of the adopted routes. None exactly where none are adopted.
    pub fn adopter(&self) -> Option<u16>
        ensures { result ≡ option_map (λ a. a.mapper) self.now.adopted }
    {
        self.machine.adopted.adopter()
    }

    /// How many parts the adopted routes have for a host's table: none for their adopter's, and none where no routes
    /// are adopted.
    pub fn part_count(&self, dst: u16) -> u8
        ensures { result ≡ part_count_for self.now.adopted dst }
    {
        self.machine.adopted.part_count(dst)
    }

    /// Plans a fault for the injection so far ahead, in the place of an earlier one, and answers that injection's
    /// number.
    pub fn plan(&mut self, ahead: u64, fault: Fault) -> Result<u128, AllocError>
        requires { 1 ≤ ahead }
        ensures ok { IfOk result (λ number. planned self.old ahead fault ≡ (number, self.new)) }
        ensures err { OnErr result (self.new ≡ self.old) }
    {
        pattern_is_a_byte(fault);
        self.machine.plan(ahead, fault)
    }

    /// Its fabric, as it stands.
    pub fn fabric(&self) -> &Fabric
        ensures { result.now ≡ fabric_of self.now }
    {
        &self.fabric
    }

    /// What holds of it at every moment. It is sound: no cycle among the installed routes, what was got on each
    /// connection a prefix of what was sent, one owner for each token. Each connection has its window, and its packets
    /// that no flip has met are honest. A send waits in its port's queue exactly while its message isn't acknowledged,
    /// a provided buffer is untouched but for what came of a message in part, and that stands in one buffer.
    pub fn moment(&self)
        ensures kept { IsMoment self.now }
        ensures sound { IsSound self.now }
        ensures windows { HasWindows self.now }
        ensures honest { IsHonestTraffic self.now }
        ensures unfinished { AreQueuesUnfinished self.now }
        ensures untouched { AreBuffersUntouched self.now }
        ensures parts { HasTiedParts self.now }
    {
        let _ = &self.machine;
    }

    /// Acts that may happen led to it from the new world of its fabric as that was before any change: so what holds of
    /// every world that is reached holds of it.
    pub fn reached(&self)
        ensures { IsReached (fabric_at self.now.links.cables 0) self.now }
    {
        let _ = &self.machine;
    }

    /// From now on, until the host changes, [`World::next_busy`] passes it by where it is silent, and
    /// [`World::next_awake`] where it is at rest.
    pub fn rest(&mut self, host: u16)
        requires { IsHostOf self.old host }
        ensures { self.new ≡ self.old }
    {
        self.machine.rest(host);
    }

    /// Spends it, with whatever its ports hold. Takes no memory.
    pub fn end(self) {
        let World { fabric, machine } = self;
        end_fabric(fabric);
        machine.end();
    }
}

// A fabric ends here alone: a proof goes through its parts wherever it ends.
fn end_fabric(_fabric: Fabric) {}

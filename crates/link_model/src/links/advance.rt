//! One step of a channel.

ghost use Rattle.std.specs.Prelude.{◌≡◌, ◌≢◌, ◌<◌, ◌≤◌, ℕ, length, true, Some, IsSome, option_map, option_and_then};
ghost use Rattle.std.specs.Prelude.{if◌then◌else◌};
ghost use Rattle.world_defs.specs.Links.{packet_in, emptied, is_idle};
ghost use Rattle.world_defs.specs.Advance.{advance, course};
ghost use Rattle.link_model.specs.FullSlots.{IsLone};
ghost use Rattle.link_model.specs.Hop.{IsHop, IsRun, entered_by};
ghost use Rattle.link_model.specs.Carried.{IsCarried, course_to};

use super::Links;
use crate::Slot;
use crate::course::{course, follow, next_channel, turned, without_turn};
use crate::hop::{Carried, Hop, Run};
use myri_packet::Packet;
use world_defs::{Course, Moved, Why};

impl Links {
    /// One step of a channel: its packet goes on through a switch, to its host, or nowhere. `Blocked` where the next
    /// channel holds another packet; the next channel may be the channel itself. It takes no memory. With its parts it
    /// stands in its callers, where no packet is made ready to be handed out that they don't take.
    #[inline(always)]
    pub fn advance(&mut self, c: u16) -> Moved<Packet>
        requires { c < length self.old.channels }
        ensures moved { result ≡ (advance self.old c).0 }
        ensures links { self.new ≡ (advance self.old c).1 }
    {
        match self.course_of(c) {
            Some(course) => self.go(c, course),
            None => Moved::Empty,
        }
    }

    /// An advance that hands no packet out: one into the next channel, or one that is blocked. It is left untried, and
    /// to [`Links::advance`], exactly where the advance is anything else.
    pub fn hop(&mut self, c: u16) -> Hop
        requires { c < length self.old.channels }
        ensures { IsHop self.old c result self.new }
    {
        match self.next_of(c) {
            Some(next) => {
                if self.pass(c, next) {
                    Hop::Moved(next)
                } else {
                    Hop::Blocked(next)
                }
            }
            None => Hop::Untried,
        }
    }

    /// The only packet in the channels goes on from channel to channel, until its next advance leads into none: how
    /// far. It is in this channel. It takes no memory: the packet is taken out once, and put down where it comes to.
    pub fn run(&mut self, c: u16) -> Run
        requires { IsLone self.old.channels c }
        ensures run { IsRun self.old c result.hops result.at self.new }
        ensures lone { IsLone self.new.channels result.at }
        ensures last { (next : ℕ) → (advance self.new result.at).0 ≢ Moved.To next }
        ensures few { result.hops ≤ 1107 }
    {
        let slot = self.slots.take(usize::from(c)).unwrap();
        let (mut packet, marked, born) = slot.into_parts();
        let run = follow(&self.wiring, c, &mut packet);
        let slot = Slot::from_parts(packet, marked, born);
        self.slots.put(usize::from(run.at), slot);
        run
    }

    /// How a packet would go that was put into a channel of idle links: from channel to channel, to a host or to a
    /// switch that drops it. It stands in no channel on its way, and each switch strips the turn that it takes.
    #[inline(always)]
    pub fn carry(&self, c: u16, packet: &mut Packet) -> Carried
        requires there { c < length self.now.channels }
        requires idle { is_idle self.now ≡ true }
        ensures { IsCarried self.now c packet.old result.hops result.end packet.new }
    {
        let run = follow(&self.wiring, c, packet);
        Carried {
            hops: run.hops,
            end: end_of(course(&self.wiring, run.at, packet)),
        }
    }

    // Where a channel's packet goes.
    #[inline(always)]
    fn course_of(&self, c: u16) -> Option<Course>
        requires { c < length self.now.channels }
        ensures { result ≡ option_map (λ held. course self.now.cables c held.wire) (packet_in self.now c) }
    {
        match self.slots.peek(usize::from(c)) {
            Some(slot) => Some(course(&self.wiring, c, slot.packet())),
            None => None,
        }
    }

    // The channel that a channel's packet goes into, if it goes into one.
    fn next_of(&self, c: u16) -> Option<u16>
        requires { c < length self.now.channels }
        ensures { result
            ≡ option_and_then (λ held. entered_by (course self.now.cables c held.wire)) (packet_in self.now c) }
    {
        match self.slots.peek(usize::from(c)) {
            Some(slot) => next_channel::<true>(&self.wiring, c, slot.packet()),
            None => None,
        }
    }

    // A channel's packet goes there.
    #[inline(always)]
    fn go(&mut self, c: u16, to: Course) -> Moved<Packet>
        requires there { c < length self.old.channels }
        requires course { option_map (λ held. course self.old.cables c held.wire) (packet_in self.old c) ≡ Some to }
        ensures moved { result ≡ (advance self.old c).0 }
        ensures links { self.new ≡ (advance self.old c).1 }
    {
        match to {
            Course::Enters(next) => {
                if self.enter(c, next) {
                    Moved::To(next)
                } else {
                    Moved::Blocked(next)
                }
            }
            Course::Arrives(h) => Moved::AtHost(h, self.taken(c).into_packet()),
            Course::Drops(why) => {
                let _ = self.taken(c);
                Moved::Dropped(why)
            }
        }
    }

    // A channel's packet enters the next channel, if that is empty or the channel itself: whether it did. The switch
    // turns it only then, since a packet that waits is as it came.
    fn enter(&mut self, c: u16, next: u16) -> bool
        requires there { c < length self.old.channels }
        requires course { option_map (λ held. course self.old.cables c held.wire) (packet_in self.old c)
            ≡ Some (Course.Enters next) }
        ensures { advance self.old c ≡ (if result then Moved.To next else Moved.Blocked next, self.new) }
    {
        if next != c && self.slots.is_full(usize::from(next)) {
            return false;
        }
        let slot = self.slots.take(usize::from(c)).unwrap();
        let slot = turned(&self.wiring, c, slot);
        self.slots.put(usize::from(next), slot);
        true
    }

    // The same of a packet whose next channel was found by its front turn, which is stripped without being aimed anew.
    fn pass(&mut self, c: u16, next: u16) -> bool
        requires there { c < length self.old.channels }
        requires course { option_map (λ held. course self.old.cables c held.wire) (packet_in self.old c)
            ≡ Some (Course.Enters next) }
        ensures { advance self.old c ≡ (if result then Moved.To next else Moved.Blocked next, self.new) }
    {
        if self.slots.is_full(usize::from(next)) && next != c {
            return false;
        }
        let slot = self.slots.take(usize::from(c)).unwrap();
        let slot = without_turn(slot);
        self.slots.put(usize::from(next), slot);
        true
    }

    // Takes the packet of a full channel.
    fn taken(&mut self, c: u16) -> Slot
        requires there { c < length self.old.channels }
        requires full { IsSome (packet_in self.old c) }
        ensures slot { packet_in self.old c ≡ Some result }
        ensures links { self.new ≡ emptied self.old c }
    {
        self.slots.take(usize::from(c)).unwrap()
    }
}

// The end of a packet that enters no further channel.
fn end_of(to: Course) -> Result<u16, Why>
    requires { (next : ℕ) → to ≢ Course.Enters next }
    ensures { course_to result ≡ to }
{
    match to {
        Course::Arrives(h) => Ok(h),
        Course::Drops(why) => Err(why),
        Course::Enters(_) => unreachable!(),
    }
}

//! What a host sends next.

ghost use Rattle.std.specs.Prelude.{◌≡◌, ◌<◌, ◌+◌, length, is_some, option_and_then, true, IfSome};
ghost use Rattle.std.specs.Option.{option_copied};
ghost use Rattle.world_defs.specs.Table.{table_route};
ghost use Rattle.world_defs.specs.Node.{lane_route, owed_on, due_on, first_some, lanes_of, to_send};
ghost use Rattle.nic_node.specs.Sending.{chosen};

use crate::node::NicNode;
use net_defs::Walk;

/// Which of the things that a host has to send goes first.
#[derive(Clone, Copy, Debug)]
pub enum NextSend {
    /// The first of the staged items.
    Item,
    /// The acknowledgement that a lane owes.
    Answer(u32),
    /// The fragment that is due on a lane.
    Fragment(u32),
}

impl NicNode {
    /// What it sends first. None exactly where it has nothing to send.
    pub fn next_send(&self) -> Option<NextSend>
        ensures first { option_and_then (chosen self.now.host self.now.state) result
            ≡ to_send self.now.host self.now.state }
        ensures there { IfSome result (λ next. is_some (chosen self.now.host self.now.state next) ≡ true) }
    {
        if self.items.has_staged() {
            return Some(NextSend::Item);
        }
        match self.next_answer() {
            Some(lane) => Some(NextSend::Answer(lane)),
            None => match self.next_fragment() {
                Some(lane) => Some(NextSend::Fragment(lane)),
                None => None,
            },
        }
    }

    // The least lane that owes an acknowledgement, and to whose peer the table has a route.
    fn next_answer(&self) -> Option<u32>
        ensures first { option_and_then (owed_on self.now.state) result
            ≡ first_some (owed_on self.now.state) (lanes_of self.now.state) }
        ensures there { IfSome result (λ lane. is_some (owed_on self.now.state lane) ≡ true) }
    {
        let mut from = 0;
        while let Some(owed) = self.lanes.next_owing(from) {
            if self.leads(owed) {
                return Some(owed);
            }
            from = self.after(owed);
        }
        None
    }

    // The least lane on which a fragment is due, and to whose peer the table has a route.
    fn next_fragment(&self) -> Option<u32>
        ensures first { option_and_then (due_on self.now.host self.now.state) result
            ≡ first_some (due_on self.now.host self.now.state) (lanes_of self.now.state) }
        ensures there { IfSome result (λ lane. is_some (due_on self.now.host self.now.state lane) ≡ true) }
    {
        let mut from = 0;
        while let Some(due) = self.lanes.next_due(from) {
            if self.leads(due) {
                return Some(due);
            }
            from = self.after(due);
        }
        None
    }

    /// Whether the table has a route to a host.
    pub(crate) fn has_route(&self, to: u16) -> bool
        ensures { result ≡ is_some (table_route self.now.state.table to) }
    {
        self.table.route(to).is_some()
    }

    /// The route to the peer of a lane, by the active table.
    pub(crate) fn lane_route(&self, lane: u32) -> Option<&Walk>
        requires { lane < length self.now.state.lanes }
        ensures { option_copied result ≡ lane_route self.now.state lane }
    {
        self.table.route(self.lanes.at(lane).peer())
    }

    // Whether the table has a route to the peer of a lane.
    fn leads(&self, lane: u32) -> bool
        requires { lane < length self.now.state.lanes }
        ensures { result ≡ is_some (lane_route self.now.state lane) }
    {
        self.lane_route(lane).is_some()
    }

    // The number after a lane's. There is one, since the number of lanes is one too.
    fn after(&self, lane: u32) -> u32
        requires { lane < length self.now.state.lanes }
        ensures { result ≡ lane + 1 }
    {
        let count = self.lanes.count();
        prove!(lane < count);
        lane + 1
    }
}

//! To which peers something isn't acknowledged.

ghost use Rattle.std.specs.Prelude.{◌≡◌, ◌≤◌, ℕ, IfSome, IfNone};
ghost use Rattle.world_defs.specs.Node.{unacknowledged_to};
ghost use Rattle.nic_node.specs.Waiting.{IsNextUnacked};

use crate::node::NicNode;

impl NicNode {
    /// The least peer that isn't below an address and to which something isn't acknowledged, sent or not, if there is
    /// one. No lane is looked at for it.
    pub fn next_unacked(&self, from: u16) -> Option<u16>
        ensures found { IfSome result (IsNextUnacked self.now.state self.now.hosts from) }
        ensures none { IfNone result ((peer : ℕ) → from ≤ peer → unacknowledged_to self.now.state peer ≡ 0) }
    {
        // That there are two lanes for each peer is known where the peers are counted.
        let _hosts = self.lanes.hosts();
        match self.lanes.next_unacked(2 * u32::from(from)) {
            Some(lane) => Some((lane / 2) as u16),
            None => None,
        }
    }
}

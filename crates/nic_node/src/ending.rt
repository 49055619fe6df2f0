//! A port is ended, whatever it holds.
//!
//! Its unfinished sends go with it, and their tickets may stand on any lane, before and after those of other ports. So
//! the lanes forget all that they sent and took: the host has no fragment due, and stays one on which every call can be
//! made. The peers aren't told. The sends of other ports stay in their queues, until their ports end too.

ghost use Rattle.std.specs.Prelude.{◌≡◌, ◌<◌, map, is_some, IfSome, OnSome, IfNone};
ghost use Rattle.gm_port.specs.Held.{send_at, receive_at, event_at};
ghost use Rattle.world_defs.specs.Node.{port_at};
ghost use Rattle.nic_node.specs.Ending.{abandoned};

use crate::node::NicNode;
use host_ports::Wreck;

impl NicNode {
    /// Ends a port, whatever it holds, and hands all of it back; the lanes are as before anything was sent. None
    /// exactly where the port isn't open, and then nothing changes. Takes no memory.
    pub fn abandon(&mut self, port: u8) -> Option<Wreck>
        requires { port < 8 }
        ensures open { is_some result ≡ is_some (port_at self.old.state port) }
        ensures sending { IfSome result (λ w. IfSome (port_at self.old.state port) (λ p.
            w.sending.items ≡ map (send_at self.old.host port) p.queue)) }
        ensures provided { IfSome result (λ w. IfSome (port_at self.old.state port) (λ p.
            w.provided.items ≡ map (receive_at self.old.host port) p.provided)) }
        ensures events { IfSome result (λ w. IfSome (port_at self.old.state port) (λ p.
            w.events.items ≡ map (event_at self.old.host port) p.events)) }
        ensures ended { OnSome result (self.new ≡ abandoned self.old port) }
        ensures unchanged { IfNone result (self.new ≡ self.old) }
    {
        match self.ports.abandon(port) {
            Some(wreck) => {
                self.lanes.forget();
                Some(wreck)
            }
            None => None,
        }
    }
}

//! Taking a cable out of a fabric.

ghost use Rattle.std.specs.Prelude.{◌≡◌};
ghost use Rattle.port_graph.specs.Removing.{without_cable};

use super::Fabric;
use net_defs::End;

impl Fabric {
    /// Takes away the cable that ends at a port, if there is one: the cables after it move up by one number. It takes
    /// no memory.
    pub fn remove_cable(&mut self, e: End)
        ensures { self.new ≡ without_cable self.old e }
    {
        self.cabling.remove(e);
    }
}

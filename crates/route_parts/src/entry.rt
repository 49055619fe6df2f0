//! Entries of a table: the routes to hosts.

ghost use Rattle.std.specs.Prelude.{◌≡◌};

use net_defs::Walk;
use std::marker::Model;

/// An entry of a table: the route to a host. Contracts see the entry of the definitions.
#[derive(Debug, Drop)]
pub struct TableEntry {
    /// The address of the host to which the route leads.
    pub to: u16,
    /// The turns from the table's host to it.
    pub walk: Walk,
}

impl Model for TableEntry {
    ghost use Rattle.world_defs.specs.Mapping.{RouteEntry};

    ghost Value = { RouteEntry };

    ghost view = { λ e. record { to = e.to; walk = e.walk } };
}

/// Entries of a table. Contracts see the list of them.
#[derive(Debug, Drop)]
pub struct EntryList {
    entries: Vec<TableEntry>,
}

impl Model for EntryList {
    ghost use Rattle.std.specs.Prelude.{List};
    ghost use Rattle.world_defs.specs.Mapping.{RouteEntry};

    ghost Value = { List RouteEntry };

    ghost view = { λ l. l.entries.items };
}

impl EntryList {
    /// These entries.
    pub fn new(entries: Vec<TableEntry>) -> EntryList
        ensures { result ≡ entries.items }
    {
        EntryList { entries }
    }

    /// The entries in their order.
    pub fn list(&self) -> &[TableEntry]
        ensures { result.now ≡ self.now }
    {
        &self.entries
    }
}

//! What a mapping finds and leaves: `specs/Laws.antt` has the statements.

ghost use Rattle.mapping_laws.specs.Laws.{FoundIsThere, UndrownedIsTrue, MadeMapIsMap, MadeMapIsConnected};
ghost use Rattle.mapping_laws.specs.Laws.{MadeMapIsRight, MappingKeeps, DeepMapIsComplete};
ghost use Rattle.mapping_laws.specs.Laws.{DoubtfulWasHarmed};
ghost use Rattle.mapping_laws.specs.Asked.{AskedJournalExists, MappingExists};

/// Whatever a mapping found was there when it began, its map is a map and connected, and where it is called complete it
/// is the mapper's part of the fabric as it stood then.
pub fn made_maps()
    ensures found { FoundIsThere }
    ensures undrowned { UndrownedIsTrue }
    ensures rules { MadeMapIsMap }
    ensures connected { MadeMapIsConnected }
    ensures complete { MadeMapIsRight }
{}

/// A mapping leaves what asks leave, and its host can map again.
pub fn kept_by_mappings()
    ensures { MappingKeeps }
{}

/// On a quiet fabric a map that is deep enough is called complete.
pub fn deep_maps()
    ensures { DeepMapIsComplete }
{}

/// A map is called doubtful only where a planned fault met a packet of it, or a cable went, while injections are left.
pub fn doubtful_maps()
    ensures { DoubtfulWasHarmed }
{}

/// Wherever a map can be made, whatever is planned, a journal of asks that has grown to its depth exists, and a
/// mapping by it: its map, and the words that hold of it.
pub fn mappings_exist()
    ensures journal { AskedJournalExists }
    ensures mapping { MappingExists }
{}

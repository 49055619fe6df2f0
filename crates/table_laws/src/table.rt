//! The tables of every reached world: `specs/Acts.antt` has the statements.

ghost use Rattle.table_laws.specs.Acts.{TablesAreOfSet, ActiveIsOfSet, AdoptedIsAdoptable, PartsAreOfSet};
ghost use Rattle.table_laws.specs.Acts.{CablesAreHistory, LinksAreOfEpoch, InstalledHasNoCycle, WidePatternIsUnseen};

/// Each table is of the adopted set, whatever happens, and so is each part on its way, or of an epoch before it.
pub fn tables_of_set()
    ensures tables { TablesAreOfSet }
    ensures active { ActiveIsOfSet }
    ensures adopted { AdoptedIsAdoptable }
    ensures cables { CablesAreHistory }
    ensures epoch { LinksAreOfEpoch }
    ensures parts { PartsAreOfSet }
{}

/// The dependencies of the installed channels have no cycle, whatever happens.
pub fn channels_without_cycle()
    ensures no_cycle { InstalledHasNoCycle }
{}

/// A pattern of nine bits can turn a packet another way unseen: so the laws ask that patterns have eight.
pub fn wide_patterns()
    ensures unseen { WidePatternIsUnseen }
{}

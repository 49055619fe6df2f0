//! Which hosts are counted: `specs/Cause.antt` and `specs/Counts.antt` have the statements.

ghost use Rattle.install_laws.specs.Cause.{MissedHostsWereHarmed};
ghost use Rattle.install_laws.specs.Counts.{CountsAtMostAll, CountsAllWhereAcknowledged, EachMissCostsFaults};
ghost use Rattle.install_laws.specs.Counts.{UnharmedCountsAll, UnplannedCountsAll, InstallingTellsCause};
ghost use Rattle.install_laws.specs.Tables.{CountedHostsHaveTables, CountsTables};

/// Each host that an installation doesn't count has a part each of whose tries met a planned fault, on the part or on
/// its acknowledgement, or ended with a cable of its routes pulled.
pub fn missed_hosts()
    ensures harmed { MissedHostsWereHarmed }
    ensures cost { EachMissCostsFaults }
{}

/// At most all hosts are counted; all exactly where each part was acknowledged, and so where no planned fault harms and
/// no cable goes. A count shows the cause of each host that isn't counted, and this.
pub fn counted_hosts()
    ensures at_most { CountsAtMostAll }
    ensures acknowledged { CountsAllWhereAcknowledged }
    ensures unharmed { UnharmedCountsAll }
    ensures unplanned { UnplannedCountsAll }
    ensures cause { InstallingTellsCause }
{}

/// Each host that is counted has an active table after the installation, where the adopter had one before; so no more
/// are counted than have one.
pub fn counted_tables()
    ensures tables { CountedHostsHaveTables }
    ensures counts { CountsTables }
{}

//! Where packets come from: `specs/Provenance.antt` has the statements.

ghost use Rattle.table_laws.specs.Provenance.{ChannelsHoldWhatWasBuilt, LimboHoldsWhatWasBuilt, FlippedIsDropped};

/// Each packet was built by a host, or is dropped for its CRC.
pub fn packets_of_hosts()
    ensures channels { ChannelsHoldWhatWasBuilt }
    ensures limbo { LimboHoldsWhatWasBuilt }
    ensures flipped { FlippedIsDropped }
{}

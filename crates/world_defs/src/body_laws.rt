//! What holds of every body: the function's contract is the law, and its body is empty.

ghost use Rattle.world_defs.specs.BodyLaws.{MappingIsRead, MappingWasWritten};

/// Bytes that were written are read as what they are, and bytes that are read were written so.
pub fn mapping_is_read()
    ensures read { MappingIsRead }
    ensures written { MappingWasWritten }
{}

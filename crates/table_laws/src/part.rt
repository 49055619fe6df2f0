//! Parts of the adopted set: `specs/Laws.antt` has the statements.

ghost use Rattle.table_laws.specs.Laws.{JoinedIsWhole, PartKeepsTable, PartIsReadAsWritten};

/// Parts of the adopted set make tables of it.
pub fn tables_of_parts()
    ensures whole { JoinedIsWhole }
    ensures part { PartKeepsTable }
{}

/// A part is read as it was written, or not at all.
pub fn parts_as_read()
    ensures part { PartIsReadAsWritten }
{}

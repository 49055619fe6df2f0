//! What each line of a report is: a table with one row for each kind of line, and one for the lines of a map.
//!
//! It holds definitions and laws, and runs nothing.
//!
//! | file of `specs/` | says |
//! |---|---|
//! | `Table` | the row of each kind: its form; in a table of its own those of a map's lines |
//! | `Form` | what a form is, and the words of a line of a form with these values |
//! | `Texts` | the word of a single value |
//! | `Fits` | which values a line of a form may have |
//! | `Said`, `Matching` | what a single word says, and the values that words of a form say |
//! | `Apart` | forms that share no line, and forms whose words separate nothing and begin no comment |
//! | `Laws` | what is proved of all forms |
#![tactic(auto)]

ghost use Rattle.std.specs.Prelude.{◌≡◌, ◌∷◌, [], Some, codes, pos, negsuc};
ghost use Rattle.net_defs.specs.Network.{empty_network};
ghost use Rattle.map_defs.specs.declared.vertex.MapVertex.TheVariants.{Switch};
ghost use Rattle.line_table.specs.Form.{Number, TurnBy, VertexAt, Word, fill};
ghost use Rattle.line_table.specs.Laws.{FilledIsMatched, ApartIsUnmatched, LinesArePlain, LinesAreSpoken};
ghost use Rattle.line_table.specs.Laws.{MapLinesArePlain, MapLinesAreSpoken, MapLinesAreApart};
ghost use Rattle.line_table.specs.Matching.{matched};
ghost use Rattle.line_table.specs.Table.{form_of, map_form};

mod kind;

pub use kind::{LineKind, MapLineKind};

/// What was filled in is matched as the values that it was filled with; a form that is apart from that of a line isn't
/// matched by it; the words of a line have no blank in them, and are no comment.
pub fn laws_of_forms()
    ensures matched { FilledIsMatched }
    ensures apart { ApartIsUnmatched }
    ensures plain { LinesArePlain }
    ensures spoken { LinesAreSpoken }
{}

/// The lines of a map are plain and spoken too, and those of one kind have the form of no other.
pub fn laws_of_map_lines()
    ensures plain { MapLinesArePlain }
    ensures spoken { MapLinesAreSpoken }
    ensures apart { MapLinesAreApart }
{}

/// Three lines: words that were filled in, and values that were matched.
pub fn three_lines()
    ensures settled { fill empty_network (form_of LineKind.Settle)
        (Word (codes "2") ∷ Word (codes "0") ∷ Word (codes "5") ∷ [])
        ≡ codes "settle" ∷ codes "rounds" ∷ codes "2" ∷ codes "resets" ∷ codes "0" ∷ codes "unacked" ∷ codes "5" ∷ [] }
    ensures ranked { matched empty_network (form_of LineKind.Rank)
        (codes "rank" ∷ codes "#3" ∷ codes "-2" ∷ codes "7" ∷ [])
        ≡ Some (VertexAt (Switch 3) ∷ TurnBy (negsuc 1) ∷ Number 7 ∷ []) }
    ensures cabled { matched empty_network (map_form MapLineKind.Cable)
        (codes "cable" ∷ codes "#0" ∷ codes "+3" ∷ codes "#1" ∷ codes "-2" ∷ [])
        ≡ Some (VertexAt (Switch 0) ∷ TurnBy (pos 3) ∷ VertexAt (Switch 1) ∷ TurnBy (negsuc 1) ∷ []) }
{}

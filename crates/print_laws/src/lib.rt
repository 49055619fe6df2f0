//! What is proved of printed maps and routes: every map that a run prints is read back from its lines as the map that
//! was printed, each vertex and cable that it shows was there before its command, and the printed routes led where they
//! say when their map began.
//!
//! It reads and prints nothing: that is `map_canon`; that a complete map is right is a law of `mapping_laws`.
//!
//! | file of `specs/` | says |
//! |---|---|
//! | `Printed` | that printed maps are read back |
//! | `Standing` | what it means that each vertex and cable that a map shows is there |
//! | `Alike` | when two fabrics stand alike, whichever numbers their cables have |
//! | `Shown` | that it is so of every printed map, and that complete ones of one host over one fabric are one map |
//! | `Marks` | that a complete map's marks are those of the fabric before its command |
//! | `Routes` | that printed routes are those of a right map, led there, and that ranks rise along them |
#![tactic(auto)]

ghost use Rattle.print_laws.specs.Printed.{MadeMapIsPrintable, CircuitMapIsPrintable, PrintableIsReadAgain};
ghost use Rattle.print_laws.specs.Printed.{MapsOfRunsReadBack, CompleteMapsReadBack, CircuitMapsReadBack};
ghost use Rattle.print_laws.specs.Shown.{PrintedMapsStand, CompleteMapsAreOne};
ghost use Rattle.print_laws.specs.Marks.{OutsideIsCutOff, MarksAreRight};
ghost use Rattle.print_laws.specs.Routes.{PrintedRoutesAreRight};

/// A map that was made can be printed, and its lines are read as that map.
pub fn printable_maps()
    ensures made { MadeMapIsPrintable }
    ensures circuit { CircuitMapIsPrintable }
    ensures read { PrintableIsReadAgain }
{}

/// Every map that a run prints is read back from its lines.
pub fn printed_maps()
    ensures any { MapsOfRunsReadBack }
    ensures complete { CompleteMapsReadBack }
    ensures circuit { CircuitMapsReadBack }
{}

/// Each map that a run prints, under whatever words, stands over the fabric as it stood before its command; and two
/// complete maps of one host are one map if the fabric was the same before both, whatever depths, tries and planned
/// faults there were.
pub fn shown_maps()
    ensures stand { PrintedMapsStand }
    ensures one { CompleteMapsAreOne }
{}

/// A complete map marks a vertex as outside exactly where a cable between two switches of the fabric before its command
/// cuts the vertex that it stands for off from all hosts.
pub fn marks_of_maps()
    ensures outside { OutsideIsCutOff }
    ensures printed { MarksAreRight }
{}

/// The routes that a run prints are those of a right map, one for each two hosts; they led there in the fabric as it
/// stood when the map began, and the ranks that are printed with them rise along each.
pub fn printed_routes()
    ensures { PrintedRoutesAreRight }
{}

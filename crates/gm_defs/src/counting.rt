//! Bytes that count up. They lie in the program, where those of a message are a part of them.

ghost use Rattle.std.specs.Prelude.{◌≡◌, ◌≤◌, ◌+◌, ◌++◌, length, bytes_eq, IfSome};
ghost use Rattle.gm_defs.specs.Blob.{counted};

// The most bytes that count up and take no memory: from any first one on.
const MOST_COUNTED: usize = 65_536;

// The numbers below twice as many as there are, with each number more: row b has b.
macro_rules! numbers {
    ([$($row:expr),*]) => {
        [$($row),*]
    };
    ([$($row:expr),*] $next:literal $($more:literal)*) => {
        numbers!([$($row),*, $($row + $next),*] $($more)*)
    };
}

static ROUNDS: [[u8; 256]; 257] = [numbers!([0] 1 2 4 8 16 32 64 128); 257];

/// So many bytes that count up from one.
pub fn counted_bytes(first: u8, len: usize) -> &'static [u8]
    requires { len ≤ 65536 }
    ensures { result.now ≡ counted first len }
{
    let first = usize::from(first);
    &ROUNDS.as_flattened()[first..first + len]
}

/// From which byte on all count up, where these come after so many that count up from one. None where they don't go
/// on, or are too many; none came before a first one.
pub(crate) fn goes_on(first: u8, len: usize, part: &[u8]) -> Option<u8>
    requires { len ≤ 65536 }
    ensures bytes { IfSome result (λ f. counted first len ++ part.now ≡ counted f (len + length part.now)) }
    ensures few { IfSome result (λ f. len + length part.now ≤ 65536) }
{
    let start = start_of(first, len, part);
    let due = ((usize::from(start) + len) % 256) as u8;
    if part.len() <= MOST_COUNTED - len && is_counted(due, part) {
        Some(start)
    } else {
        None
    }
}

// From which byte on so many count up: from the next that comes where there is none so far.
#[tactic(auto, using(crate::proofs::Rounds::none_counted))]
fn start_of(first: u8, len: usize, part: &[u8]) -> u8
    ensures { counted result len ≡ counted first len }
{
    match part.first() {
        Some(next) if len == 0 => *next,
        _ => first,
    }
}

// Whether bytes count up from one.
fn is_counted(first: u8, bytes: &[u8]) -> bool
    requires { length bytes.now ≤ 65536 }
    ensures { result ≡ bytes_eq bytes.now (counted first (length bytes.now)) }
{
    bytes == counted_bytes(first, bytes.len())
}

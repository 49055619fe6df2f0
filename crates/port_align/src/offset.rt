//! Offsets as numbers from -15 to 15.

ghost use Rattle.std.specs.Prelude.{◌≡◌, neg_ℤ};
ghost use Rattle.net_defs.specs.Turn.{IsTurn};
ghost use Rattle.port_align.specs.Offset.{composed};

// The greatest offset; the least is its negative.
const MAX_OFFSET: i8 = 15;

/// One offset after another. None exactly where their sum lies outside -15 to 15.
pub fn compose(j: i8, k: i8) -> Option<i8>
    requires first { IsTurn j }
    requires second { IsTurn k }
    ensures { result ≡ composed j k }
{
    let sum = j + k;
    if -MAX_OFFSET <= sum && sum <= MAX_OFFSET {
        Some(sum)
    } else {
        None
    }
}

/// The offset the other way round.
pub fn inverse(k: i8) -> i8
    requires { IsTurn k }
    ensures value { result ≡ neg_ℤ k }
    ensures in_range { IsTurn result }
{
    -k
}

//! The order of walks.

ghost use Rattle.std.specs.Prelude.{◌≡◌};
ghost use Rattle.journal_defs.specs.Walks.{turns_below, walk_below};

/// Whether a walk stands before another: by length, then turn by turn.
pub(crate) fn is_below(v: &[i8], w: &[i8]) -> bool
    ensures { result ≡ walk_below v.now w.now }
{
    v.len() < w.len() || (v.len() == w.len() && are_below(v, w))
}

// Whether the first turns that differ are lesser.
fn are_below(v: &[i8], w: &[i8]) -> bool
    ensures { result ≡ turns_below v.now w.now }
{
    match v {
        [] => false,
        [s, v @ ..] => match w {
            [] => false,
            [t, w @ ..] => *s < *t || (*s == *t && are_below(v, w)),
        },
    }
}

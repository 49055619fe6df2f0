//! The bytes of a client's message, compared as they come.

ghost use Rattle.std.specs.Prelude.{◌≡◌};
ghost use Rattle.port_ledgers.specs.Bytes.{counts_up};

/// Whether each byte is one more than the one before it, and the first is this, modulo 256.
pub(crate) fn counts_up(first: u8, bytes: &[u8]) -> bool
    ensures { result ≡ counts_up first bytes.now }
{
    for i in 0..bytes.len() {
        let due = (usize::from(first) + i) % 256;
        if usize::from(bytes[i]) != due {
            return false;
        }
    }
    true
}

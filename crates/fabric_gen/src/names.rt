//! The names of hosts and switches, as words of a line.

ghost use Rattle.std.specs.Prelude.{◌≡◌};
ghost use Rattle.line_writing.specs.declared.word.Word.{Word};

use line_writing::Word;

/// The name of a host, by its number.
pub(crate) fn host(number: u8) -> Word<'static>
    ensures { result ≡ Word.Marked 104 number }
{
    Word::Marked(b'h', u64::from(number))
}

/// The name of a switch, by its number.
pub(crate) fn switch(number: u8) -> Word<'static>
    ensures { result ≡ Word.Marked 115 number }
{
    Word::Marked(b's', u64::from(number))
}

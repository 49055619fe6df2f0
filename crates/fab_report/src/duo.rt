//! What one event of the two hosts that restart did.

ghost use Rattle.std.specs.Prelude.{◌≡◌, ◌++◌, ◌∷◌, [], OnOk, codes, decimal};
ghost use Rattle.fab_text.specs.Written.{spaced};
ghost use Rattle.run_defs.specs.LineRows.{duo_cause};
ghost use Rattle.net_defs.specs.Network.{Network};
ghost use Rattle.run_defs.specs.LineText.{words_in};
ghost use Rattle.run_defs.specs.declared.line.Line.TheVariants.{Duo};
ghost use Rattle.line_table.specs.Texts.{hex_text};

use crate::words::{append_numbered, bytes_word};
use line_writing::{append_bytes, append_spaced};
use run_defs::{DuoCause, DuoEffect};
use std::alloc::AllocError;

/// `duo EFFECT`, without a word made first.
pub(crate) fn duo_line(text: &mut Vec<u8>, effect: &DuoEffect) -> Result<(), AllocError>
    ensures { OnOk result ((n : Network) → text.new.items ≡ text.old.items
        ++ spaced (words_in n (Duo effect.now))) }
{
    match effect {
        DuoEffect::Token(token) => append_numbered(text, b"duo token", u64::from(*token)),
        DuoEffect::Refused(cause) => refused_line(text, *cause),
        DuoEffect::Idle => append_bytes(text, b"duo idle"),
        DuoEffect::Emitted(place) => append_numbered(text, b"duo emitted", *place),
        DuoEffect::Hello => append_bytes(text, b"duo hello"),
        DuoEffect::Stale => append_bytes(text, b"duo stale"),
        DuoEffect::Message => append_bytes(text, b"duo message"),
        DuoEffect::NotNext => append_bytes(text, b"duo notnext"),
        DuoEffect::NoToken => append_bytes(text, b"duo notoken"),
        DuoEffect::Ack => append_bytes(text, b"duo ack"),
        DuoEffect::Expired => append_bytes(text, b"duo expired"),
        DuoEffect::Nothing => append_bytes(text, b"duo nothing"),
        DuoEffect::Sent(token) => append_numbered(text, b"duo sent", u64::from(*token)),
        DuoEffect::Unsure(token) => append_numbered(text, b"duo unsure", u64::from(*token)),
        DuoEffect::Received { token, body } => received_line(text, *token, body.bytes()),
        DuoEffect::Restarted(inc) => append_numbered(text, b"duo restarted", u64::from(*inc)),
    }
}

// `duo refused CAUSE`
fn refused_line(text: &mut Vec<u8>, cause: DuoCause) -> Result<(), AllocError>
    ensures { OnOk result (text.new.items ≡ text.old.items
        ++ spaced (codes "duo" ∷ codes "refused" ∷ duo_cause cause ∷ [])) }
{
    append_bytes(text, b"duo refused ")?;
    append_bytes(text, cause_of(cause))
}

// `duo received T HEX`
fn received_line(text: &mut Vec<u8>, token: u16, body: &[u8]) -> Result<(), AllocError>
    ensures { OnOk result (text.new.items ≡ text.old.items
        ++ spaced (codes "duo" ∷ codes "received" ∷ decimal token ∷ hex_text body.now ∷ [])) }
{
    append_numbered(text, b"duo received", u64::from(token))?;
    append_spaced(text, &bytes_word(body))
}

// Why a call, or a restart, was refused, in one word.
fn cause_of(cause: DuoCause) -> &'static [u8]
    ensures { result.now ≡ duo_cause cause }
{
    match cause {
        DuoCause::NoToken => b"notoken",
        DuoCause::TooLong => b"toolong",
        DuoCause::Spent => b"spent",
        DuoCause::BadSize => b"badsize",
    }
}

//! Where the tokens of a port are.

ghost use Rattle.std.specs.Prelude.{◌≡◌, ◌++◌, ◌∷◌, [], OnOk, codes, decimal, flat_map, map};
ghost use Rattle.fab_text.specs.Written.{spaced};
ghost use Rattle.line_table.specs.Texts.{host_name};
ghost use Rattle.run_defs.specs.LineRows.{place_text, place_word};
ghost use Rattle.run_defs.specs.LineText.{words_in};
ghost use Rattle.run_defs.specs.declared.line.Line.TheVariants.{Tokens};
ghost use Rattle.fab_report.specs.There.{IsHost};
ghost use Rattle.fab_report.specs.Words.{behind};

use gm_defs::TokenPlace;
use line_writing::Word::{Entry, Number, Text};
use line_writing::{append_behind, append_spaced, append_words};
use port_graph::{Fabric, Vertex};
use run_defs::PlaceEntry;
use std::alloc::AllocError;

/// `tokens H P send T=PLACE .. recv T=PLACE ..`
pub(crate) fn tokens_line(
    text: &mut Vec<u8>,
    f: &Fabric,
    host: u16,
    port: u8,
    sends: &[PlaceEntry],
    recvs: &[PlaceEntry],
) -> Result<(), AllocError>
    requires { IsHost f.now host }
    ensures { OnOk result (text.new.items ≡ text.old.items
        ++ spaced (words_in f.now (Tokens host port sends.now recvs.now))) }
{
    begin_tokens(text, f, host, port)?;
    append_both(text, sends, recvs)
}

/// `tokens H P send`
pub(crate) fn begin_tokens(
    text: &mut Vec<u8>,
    f: &Fabric,
    host: u16,
    port: u8,
) -> Result<(), AllocError>
    requires { IsHost f.now host }
    ensures { OnOk result (text.new.items ≡ text.old.items
        ++ spaced (codes "tokens" ∷ host_name f.now host ∷ decimal port ∷ codes "send" ∷ [])) }
{
    let name = Text(f.name_of(Vertex::Host(host)));
    let port = Number(u64::from(port));
    append_words(text, &[Text(b"tokens"), name, port, Text(b"send")])
}

// The tokens to send with and those to receive with, after other words.
fn append_both(
    text: &mut Vec<u8>,
    sends: &[PlaceEntry],
    recvs: &[PlaceEntry],
) -> Result<(), AllocError>
    ensures { OnOk result (text.new.items ≡ text.old.items
        ++ behind (map place_text sends.now ++ codes "recv" ∷ map place_text recvs.now)) }
{
    append_places(text, sends)?;
    append_behind(text, &[Text(b"recv")])?;
    append_places(text, recvs)
}

// Tokens with their places, by number.
fn append_places(text: &mut Vec<u8>, places: &[PlaceEntry]) -> Result<(), AllocError>
    ensures { OnOk result (text.new.items ≡ text.old.items ++ flat_map (λ p. 32 ∷ place_text p) places.now) }
{
    for entry in places {
        append_place(text, *entry)?;
    }
    Ok(())
}

/// ` T=PLACE`
pub(crate) fn append_place(text: &mut Vec<u8>, entry: PlaceEntry) -> Result<(), AllocError>
    ensures { OnOk result (text.new.items ≡ text.old.items ++ 32 ∷ place_text entry) }
{
    let place = word_of(entry.place);
    append_spaced(text, &Entry(u64::from(entry.number), place))
}

// The word of a place; `client` where its client has the token.
fn word_of(place: Option<TokenPlace>) -> &'static [u8]
    ensures { result.now ≡ place_word place }
{
    match place {
        None => b"client",
        Some(TokenPlace::Queue) => b"queue",
        Some(TokenPlace::Provided) => b"provided",
        Some(TokenPlace::Event) => b"event",
    }
}

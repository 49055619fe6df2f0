//! What the words of a command line ask for.

ghost use Rattle.std.specs.Prelude.{◌≡◌, ◌≤◌, IfSome};
ghost use Rattle.input_texts.specs.Forms.{form_of, form_by, alone_form, gen_form, gen_of, number_from, IsInRange};

use fab_text::{Word, read_u32};

// The least and the most hosts of a generated run.
const LEAST_HOSTS: u32 = 2;

const MOST_HOSTS: u32 = 24;

// The greatest seed of a generated run.
const GREATEST_SEED: u32 = 1_000_000;

/// What is asked for.
#[derive(Clone, Copy)]
pub enum Form {
    /// The words `run`: a text is read and run.
    Run,
    /// The words `judge`: a text is read with the report that follows it, and the report is judged.
    Judge,
    /// The words `gen N SEED`: the text of a generated run is made and run.
    Gen {
        /// Its hosts, 2 to 24.
        n: u8,
        /// What its messages come from, up to 1,000,000.
        seed: u32,
    },
}

/// What words ask for; none where they are none of the forms.
pub fn form_of(words: &[Word]) -> Option<Form>
    ensures form { result ≡ form_of words.now }
    ensures range { IfSome result IsInRange }
{
    match words.split_first() {
        Some((first, others)) => form_by(first.bytes(), others),
        None => None,
    }
}

// The same by the first word.
fn form_by(first: &[u8], others: &[Word]) -> Option<Form>
    ensures form { result ≡ form_by first.now others.now }
    ensures range { IfSome result IsInRange }
{
    if first == b"run".as_slice() {
        alone_form(Form::Run, others)
    } else if first == b"judge".as_slice() {
        alone_form(Form::Judge, others)
    } else if first == b"gen".as_slice() {
        gen_form(others)
    } else {
        None
    }
}

// `run` and `judge` stand alone.
fn alone_form(form: Form, others: &[Word]) -> Option<Form>
    requires { IsInRange form }
    ensures form { result ≡ alone_form form others.now }
    ensures range { IfSome result IsInRange }
{
    if others.is_empty() { Some(form) } else { None }
}

// After `gen` stand two numbers.
fn gen_form(others: &[Word]) -> Option<Form>
    ensures form { result ≡ gen_form others.now }
    ensures range { IfSome result IsInRange }
{
    match others {
        [n, seed] => gen_of(n.bytes(), seed.bytes()),
        _ => None,
    }
}

// `gen N SEED`, where both words are numbers of their ranges.
fn gen_of(n: &[u8], seed: &[u8]) -> Option<Form>
    ensures form { result ≡ gen_of (number_from 2 24 n.now) (number_from 0 1000000 seed.now) }
    ensures range { IfSome result IsInRange }
{
    match (
        number_from(n, LEAST_HOSTS, MOST_HOSTS),
        number_from(seed, 0, GREATEST_SEED),
    ) {
        (Some(n), Some(seed)) => Some(Form::Gen { n: n as u8, seed }),
        _ => None,
    }
}

// The number that a word says, where it is one from the least to the most.
fn number_from(word: &[u8], least: u32, most: u32) -> Option<u32>
    ensures number { result ≡ number_from least most word.now }
    ensures range { IfSome result (λ k. (least ≤ k) × (k ≤ most)) }
{
    match read_u32(word) {
        Ok(number) => {
            if least <= number && number <= most {
                Some(number)
            } else {
                None
            }
        }
        Err(_) => None,
    }
}

//! Words of eight bytes that have the contents of cells: a kind below 4 in the top 2 bits, the
//! second word of the body below 2^30 in the next 30, the first one below 2^32 in the last 32.
//! Contents that do not fit, or with annotations, have one special word, which means that the cell
//! has to be read.
ghost use Rattle.std.specs.Prelude.{◌≡◌, ◌≢◌, ◌<◌, ℕ, None, IfSome};
ghost use Rattle.rx_arena.specs.Faces.{face_of, fits, word_of, ask};

use crate::{CellBody, Face, Slot};

/// The word that means that the cell has to be read.
pub const ASK: u64 = u64::MAX;

/// The number of kinds that a word can have.
const KINDS: u64 = 4;

/// The second word of a body has to be below this number.
const SECONDS: u64 = 1 << 30;

/// The first word of a body has to be below this number.
const FIRSTS: u64 = 1 << 32;

/// Returns whether these contents fit into a word.
#[inline(always)]
fn is_small(kind: u8, a: u64, b: u64, anns: Option<Slot>) -> bool
    ensures { result ≡ fits kind a b anns }
{
    match anns {
        Some(_) => false,
        None => u64::from(kind) < KINDS && a < FIRSTS && b < SECONDS,
    }
}

/// Returns the word of a body.
#[inline(always)]
pub fn word(body: CellBody) -> u64
    ensures { result ≡ word_of body }
{
    if is_small(body.kind, body.a, body.b, body.anns) {
        (u64::from(body.kind) * SECONDS + body.b) * FIRSTS + body.a
    } else {
        ASK
    }
}

/// Returns the word of a body without annotations, with a kind below 4 and a small second word.
#[inline(always)]
pub fn bare_word(kind: u8, a: u64, b: u64) -> u64
    requires kind { kind < 4 }
    requires second { b < 1073741824 }
    ensures { (hash : ℕ) → result ≡ word_of
        (record { kind = kind; a = a; b = b; anns = None; hash = hash }) }
{
    if a < FIRSTS {
        (u64::from(kind) * SECONDS + b) * FIRSTS + a
    } else {
        ASK
    }
}

/// Returns the kind of the body in a word.
#[inline(always)]
fn kind(word: u64) -> u8
    requires { word ≢ ask }
    ensures { (b : CellBody) → word ≡ word_of b → result ≡ b.kind }
{
    (word / FIRSTS / SECONDS) as u8
}

/// Returns the first word of the body in a word.
#[inline(always)]
pub(crate) fn first(word: u64) -> u64
    requires { word ≢ ask }
    ensures { (b : CellBody) → word ≡ word_of b → result ≡ b.a }
{
    word % FIRSTS
}

/// Returns the second word of the body in a word.
#[inline(always)]
pub(crate) fn second(word: u64) -> u64
    requires { word ≢ ask }
    ensures { (b : CellBody) → word ≡ word_of b → result ≡ b.b }
{
    word / FIRSTS % SECONDS
}

/// Returns the contents in a word, or `None` if the cell has to be read.
#[inline(always)]
pub fn said(word: u64) -> Option<Face>
    ensures some { (b : CellBody) → word ≡ word_of b → IfSome result (λ f. f ≡ face_of b) }
    ensures none { result ≡ None → word ≡ ask }
{
    if word == ASK {
        return None;
    }
    Some(Face {
        kind: kind(word),
        a: first(word),
        b: second(word),
        anns: None,
    })
}

// Words of a text, trimming, and what an event word loses at its end.

#![tactic(auto)]

ghost use Rattle.std.specs.Prelude.{◌≡◌, ℕ, Bool, [], ◌∷◌, ◌+◌, length, drop, MatchOption};
ghost use Rattle.definition.specs.Text as T;
ghost use Rattle.definition.specs.Text.{is_space, is_separator, body_length, stripped, event_words};
ghost use Rattle.words.specs.Next.{Tells, IsShorter, gap, next_word, as_span};

pub mod each;

use each::EventWords;
use text::{is_separator, is_space, same};

// From start up to end; both are the same where there is no word.
#[derive(Clone, Copy)]
pub struct Word {
    pub start: usize,
    pub end: usize,
}

#[derive(Clone, Copy)]
pub struct Part {
    pub off: usize,
    pub len: usize,
}

// The first place from `from` on of which the test does not hold, or the end.
fn skip<F: Fn(u8) -> bool>(v: &[u8], from: usize, test: F) -> usize
    requires { F.IsAlwaysCallable test }
    ensures { (p : ℕ → Bool) → Tells p (λ b r. F.post test b r) → result ≡ from + gap p (drop from v.now) }
{
    for i in from..v.len() {
        if !test(v[i]) {
            return i;
        }
    }
    from.max(v.len())
}

// The first word from `from` on, where the bytes of which the test holds part words.
fn next_word<F: Fn(u8) -> bool>(v: &[u8], from: usize, parts: F) -> Word
    requires { F.IsAlwaysCallable parts }
    ensures { (p : ℕ → Bool) → Tells p (λ b r. F.post parts b r) → result ≡ next_word p v.now from }
{
    let start = skip(v, from, &parts);
    let end = skip(v, start, |b| !parts(b));
    Word { start, end }
}

// Event words are parted by white space.
pub fn next_event_word(v: &[u8], from: usize) -> Word
    ensures { result ≡ next_word is_space v.now from }
{
    next_word(v, from, is_space)
}

// Targets, `initial` and namelists are parted by separators: byte 11 is none.
pub fn next_state_word(v: &[u8], from: usize) -> Word
    ensures { result ≡ next_word is_separator v.now from }
{
    next_word(v, from, is_separator)
}

// The length without white space at the end.
fn body_length(w: &[u8]) -> usize
    ensures { result ≡ body_length w.now }
{
    for i in (0..w.len()).rev() {
        if !is_space(w[i]) {
            return i + 1;
        }
    }
    0
}

pub fn trim(v: &[u8]) -> Part
    ensures { as_span result ≡ T.trim v.now }
{
    let off = skip(v, 0, is_space);
    Part {
        off,
        len: body_length(&v[off..]),
    }
}

// What is left of a word that ends in `.` or `.*`.
fn shorter(w: &[u8]) -> Option<&[u8]>
    ensures { MatchOption result (w.now ≡ stripped w.now) (λ r. IsShorter r.now w.now) }
{
    let (last, rest) = w.split_last()?;
    if *last == b'.' {
        return Some(rest);
    }
    if *last != b'*' {
        return None;
    }
    let (dot, left) = rest.split_last()?;
    if *dot == b'.' { Some(left) } else { None }
}

// What is left of an event word when it ends in neither.
fn stripped(w: &[u8]) -> &[u8]
    ensures { result.now ≡ stripped w.now }
{
    let mut rest = w;
    while let Some(left) = shorter(rest) {
        rest = left;
    }
    rest
}

// How much of an event word is left without what it loses at its end.
pub fn stripped_len(w: &[u8]) -> usize
    ensures { result ≡ length (stripped w.now) }
{
    stripped(w).len()
}

fn is_star(w: &[u8]) -> bool
    ensures { result ≡ T.same (stripped w.now) (42 ∷ []) }
{
    same(stripped(w), b"*")
}

// Whether some word of an event value is `*` in the end.
pub fn is_wildcard(v: &[u8]) -> bool
    ensures { result ≡ T.wildcard (event_words v.now) }
{
    EventWords { v, at: 0 }.any(|found| is_star(found.word))
}

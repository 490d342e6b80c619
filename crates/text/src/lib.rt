// Text: classes of bytes, equality, letter case, and the words that are read as a code.

#![tactic(auto)]

ghost use Rattle.std.specs.Prelude.{◌≡◌, ◌<◌, ◌^◌, ◌==◌, length, map, position};
ghost use Rattle.std.specs.List.{list_all, zip};
ghost use Rattle.definition.specs.Text as T;
ghost use Rattle.definition.specs.Text.{is_space, is_separator, bytes_at, lowered, is_true, place_in};
ghost use Rattle.definition.specs.Elements.{tag, key, codings, words_taken};

// White space between event words and around contents: 9 to 13 and 32. `matches!` misses the speed here and below: this is one test of bits, that a tree of comparisons.
#[tactic(auto, unfolding(definition::specs::Text::is_space))]
pub fn is_space(b: u8) -> bool
    ensures { result ≡ is_space b }
{
    ((9 <= b) & (b <= 13)) | (b == 32)
}

// What parts targets, `initial` and namelists: 9, 10, 12, 13 and 32, not 11.
#[tactic(auto, unfolding(definition::specs::Text::is_separator))]
pub fn is_separator(b: u8) -> bool
    ensures { result ≡ is_separator b }
{
    (b == 9) | (b == 10) | (b == 12) | (b == 13) | (b == 32)
}

// Whether two texts are the same bytes.
#[tactic(auto, using(crate::proofs::Laws::pointwise_same))]
pub fn same(a: &[u8], b: &[u8]) -> bool
    ensures { result ≡ T.same a.now b.now }
{
    a == b
}

// Whether the span of a text is w. Of a span that runs past the end only what lies in the text is compared.
pub fn same_at(t: &[u8], off: usize, len: usize, w: &[u8]) -> bool
    ensures { result ≡ T.same (bytes_at t.now (record { off = off; len = len })) w.now }
{
    let tail = &t[off.min(t.len())..];
    same(&tail[..len.min(tail.len())], w)
}

// A letter in its small form.
#[tactic(auto, unfolding(definition::specs::Text::lower))]
pub fn lower(b: u8) -> u8
    ensures { result ≡ T.lower b }
{
    b.to_ascii_lowercase()
}

// Whether the bytes of w are those of v in small letters, as far as both go.
fn agrees(w: &[u8], v: &[u8]) -> bool
    ensures { result ≡ list_all (λ p. p.0 == T.lower p.1) (zip w.now v.now) }
{
    w.iter().zip(v).all(|(x, y)| *x == lower(*y))
}

// Whether v, in small letters, is w.
pub fn same_lowered(w: &[u8], v: &[u8]) -> bool
    ensures { result ≡ T.same w.now (lowered v.now) }
{
    w.len() == v.len() && agrees(w, v)
}

#[tactic(auto, using(crate::proofs::Laws::same_sym), unfolding(definition::specs::Text::str, definition::specs::Text::is_true))]
pub fn is_true(v: &[u8]) -> bool
    ensures { result ≡ is_true v.now }
{
    same_lowered(b"true", v)
}

// The place of a value, in small letters, among words.
fn place_in(words: &[&[u8]], v: &[u8]) -> Option<usize>
    ensures { result ≡ position (λ w. T.same w.now (lowered v.now)) words.now }
{
    words.iter().position(|w| same_lowered(w, v))
}

// That place; the number of words where the value is none of them.
fn code_in(words: &[&[u8]], v: &[u8]) -> u32
    requires { length words.now < 2 ^ 32 }
    ensures { result ≡ place_in (map (λ w. w.now) words.now) (lowered v.now) }
{
    place_in(words, v).unwrap_or(words.len()) as u32
}

// The codes of type words: a word's place, or the number of words where the value is none of them.
#[tactic(auto, unfolding(definition::specs::Text::str, definition::specs::Elements::codings, definition::specs::Elements::words_taken))]
pub fn binding_code(v: &[u8]) -> u32
    ensures { result ≡ place_in (words_taken codings tag.scxml key.binding) (lowered v.now) }
{
    code_in(&[b"early", b"late"], v)
}

// Three lists of words; each function is its list, and what they share is `code_in`.
#[tactic(auto, unfolding(definition::specs::Text::str, definition::specs::Elements::codings, definition::specs::Elements::words_taken))]
pub fn history_code(v: &[u8]) -> u32
    ensures { result ≡ place_in (words_taken codings tag.history key.type) (lowered v.now) }
{
    code_in(&[b"", b"shallow", b"deep"], v)
}

#[tactic(auto, unfolding(definition::specs::Text::str, definition::specs::Elements::codings, definition::specs::Elements::words_taken))]
pub fn transition_code(v: &[u8]) -> u32
    ensures { result ≡ place_in (words_taken codings tag.transition key.type) (lowered v.now) }
{
    code_in(&[b"external", b"internal", b""], v)
}

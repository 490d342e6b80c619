// The parts of an event as its lines bring them.

#![tactic(auto)]

ghost use Rattle.std.specs.Prelude.{◌≡◌, ◌^◌, ◌<◌, ◌≤◌, length};
ghost use Rattle.definition.specs.Codes.{kind_code, key_code};
ghost use Rattle.definition.specs.Text.{place_in};
ghost use Rattle.definition.specs.Event.{kind_names};
ghost use Rattle.parts.specs.Parts.{part_at, no_pair, no_pairs, pair_of, pairs_of, at_most16};

use definition::codes::{Key, Kind, Tag};
use text::same;

// A part of an event: where it is written, in how many bytes, and its unescaped length. Small, since descriptions go by value.
#[derive(Clone, Copy)]
pub struct Part {
    pub at: u16,
    pub len: u16,
    pub size: u16,
}

// An attribute: its key, where it is known, and both parts.
#[derive(Clone, Copy)]
pub struct Pair {
    pub code: Option<Key>,
    pub key: Part,
    pub value: Part,
}

impl Pair {
    #[tactic(auto, unfolding(crate::specs::Parts::pair_of))]
    pub fn new(code: Option<Key>, key: Part, value: Part) -> Pair
        ensures { pair_of result ≡ record { code = key_code code; key = key; value = value } }
    {
        Pair { code, key, value }
    }
}

// What all lines of an event in form have brought but the attributes: those stand in a slice that is lent, since as a part of this they would be copied from
// stage to stage. The first `count` of them are the attributes, in order. `kind` is there where its word names one.
#[derive(Clone, Copy)]
pub struct Heading {
    pub kind: Option<Kind>,
    pub tag: Tag,
    pub name: Part,
    pub count: usize,
    pub text: Option<Part>,
}

// The kind that a word names.
#[tactic(auto, unfolding(definition::specs::Text::place_in, definition::specs::Text::str, definition::specs::Event::kind_names))]
pub fn kind_of(word: &[u8]) -> Option<Kind>
    ensures { kind_code result ≡ place_in kind_names word.now }
{
    if same(b"open", word) {
        Some(Kind::Open)
    } else if same(b"empty", word) {
        Some(Kind::Empty)
    } else if same(b"whole", word) {
        Some(Kind::Whole)
    } else if same(b"end", word) {
        Some(Kind::End)
    } else {
        None
    }
}

// A place or a length in an event.
pub fn place(x: u16) -> usize
    ensures value { result ≡ x }
    ensures upper_bound { result < 2 ^ 16 }
{
    usize::from(x)
}

pub fn no_part() -> Part
    ensures { result ≡ part_at 0 0 0 }
{
    Part {
        at: 0,
        len: 0,
        size: 0,
    }
}

// No attribute.
pub fn no_pair() -> Pair
    ensures { pair_of result ≡ no_pair }
{
    Pair::new(None, no_part(), no_part())
}

// No attribute in any of the 16 places.
pub fn clear(pairs: &mut [Pair; 16])
    ensures { pairs_of pairs.new ≡ no_pairs }
{
    *pairs = [no_pair(); 16];
}

// How many of an event's 16 places a loop goes through. It is computed before the loop, since the compiler writes a loop to 16, with an exit at the count, out
// sixteen times.
pub fn at_most_16(count: usize) -> usize
    ensures value { result ≡ at_most16 count }
    ensures upper_bound { result ≤ 16 }
{
    count.min(16)
}

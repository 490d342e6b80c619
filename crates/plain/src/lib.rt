// An event's parts as they are read: each stands unescaped in one slice, the event's own bytes or a copy.

#![tactic(auto)]

ghost use Rattle.std.specs.Prelude.{◌≡◌, ◌+◌, ◌-◌, ◌<◌, ◌≤◌, ◌++◌, length, take, drop, []};
ghost use Rattle.definition.specs.Codes.{kind_number, key_code};
ghost use Rattle.parts.specs.Parts.{text_of as text_in};
ghost use Rattle.event.specs.Described.{read, described_by};
ghost use Rattle.plain.specs.Plain.{is_plain, plainly, span_of, span_in, PlainOf, text_part, slot_bytes, slots_of, parsed_in, parsed_raw, Space};
ghost use Rattle.plain.specs.Keyed.{key_place, keyed_of};

pub mod indexed;

use definition::codes::{Key, Kind, Tag};
use event::Head;
use indexed::Indexed;
use lines::{part_of, unescape};
use parts::{Pair, Part, at_most_16, no_part};

/// A part: its key, where it has one that is known, and where it stands.
#[derive(Clone, Copy)]
pub struct Slot {
    pub code: Option<Key>,
    pub at: u16,
    pub len: u16,
}

impl Slot {
    /// Its key's number; 0 without a known key.
    pub fn number(self) -> u32
        ensures { result ≡ key_code self.code }
    {
        match self.code {
            Some(key) => key.number(),
            None => 0,
        }
    }
}

/// An event: the first `count` of `slots` are its values, in order. Of a `whole` event `text` is the text.
#[derive(Clone, Copy)]
pub struct Plain {
    pub count: usize,
    pub kind: Kind,
    pub tag: Tag,
    pub name: Slot,
    pub text: Slot,
    pub slots: [Slot; Plain::SLOTS],
}

/// An event's parts where they are written, and whether no part has an escape, so that what is written is what is read.
#[derive(Clone, Copy)]
pub struct Placed {
    pub plain: bool,
    pub parts: Plain,
}

impl Plain {
    /// The most values that an event in form has.
    pub const SLOTS: usize = 16;

    /// Places by key: one for each number of a key, 0 for other keys, the last for numbers that no key has.
    pub const KEYS: usize = 32;

    /// Room for the parts of any event in form: its name, its values and its text.
    pub const COPY: usize = 20_544;

    /// Its values, in order.
    pub fn values(&self) -> &[Slot]
        ensures { result.now ≡ slots_of self.now }
    {
        &self.slots[..self.count.min(Plain::SLOTS)]
    }
}

/// The first value of each key, by the key's number: 1 where it is there, and where it stands; zeros where it is not. Three arrays of numbers, since they are
/// zeroed for each event, and optional slots are more than twice as long.
#[derive(Clone, Copy)]
pub struct Keyed {
    pub there: [u8; Plain::KEYS],
    pub at: [u16; Plain::KEYS],
    pub len: [u16; Plain::KEYS],
}

impl Keyed {
    /// No value of any key.
    #[tactic(auto, unfolding(crate::specs::Keyed::keyed_of, crate::specs::Keyed::by_key))]
    pub fn none() -> Keyed
        ensures { result ≡ keyed_of [] }
    {
        Keyed {
            there: [0; Plain::KEYS],
            at: [0; Plain::KEYS],
            len: [0; Plain::KEYS],
        }
    }
}

#[tactic(auto, unfolding(crate::specs::Plain::is_plain))]
fn is_plain_part(p: Part) -> bool
    ensures { result ≡ is_plain p }
{
    p.len == p.size
}

#[tactic(auto, unfolding(crate::specs::Plain::span_of, crate::specs::Plain::span_in))]
fn slot_of(code: Option<Key>, p: Part) -> Slot
    ensures { span_in result ≡ span_of (key_code code) p }
{
    Slot {
        code,
        at: p.at,
        len: p.len,
    }
}

pub fn plain_of(d: Head, pairs: &[Pair; 16]) -> Placed
    ensures plain { result.plain ≡ plainly (described_by d pairs.now) }
    ensures parts { PlainOf (described_by d pairs.now) result.parts }
{
    let given = d.text.unwrap_or(no_part());
    let name = slot_of(None, d.name);
    let mut slots = [name; Plain::SLOTS];
    let mut plain = is_plain_part(d.name) & is_plain_part(given);
    for i in 0..at_most_16(d.count) {
        let p = pairs[i];
        slots[i] = slot_of(p.code, p.value);
        plain = plain & is_plain_part(p.value);
    }
    Placed {
        plain,
        parts: Plain {
            kind: d.kind,
            tag: d.tag,
            count: d.count,
            name,
            text: slot_of(None, given),
            slots,
        },
    }
}

// Unescapes a part into the copy at `pos`; where it ends there.
fn copy_part(out: &mut [u8], pos: usize, raw: &[u8], p: Part) -> usize
    requires { pos + length (read raw.now p) ≤ length out.old }
    ensures value { result ≡ pos + length (read raw.now p) }
    ensures out_after { out.new ≡ take pos out.old ++ (read raw.now p ++ drop (pos + length (read raw.now p)) out.old) }
{
    pos + unescape(
        part_of(raw, usize::from(p.at), usize::from(p.len)),
        &mut out[pos..],
    )
}

fn slot_at(code: Option<Key>, start: usize, end: usize) -> Slot
    requires { (start ≤ end) × (end < 65536) }
    ensures { result ≡ record { code = code; at = start; len = end - start } }
{
    Slot {
        code,
        at: start as u16,
        len: (end - start) as u16,
    }
}

// A text only where the event has one.
#[tactic(auto, unfolding(crate::specs::Plain::text_part))]
fn text_of(kind: Kind, given: Option<Part>) -> Part
    ensures { result ≡ text_part (kind_number kind) (text_in given) }
{
    match (kind, given) {
        (Kind::Whole, Some(text)) => text,
        _ => no_part(),
    }
}

// The parts unescaped into a copy.
pub fn unescape_all(out: &mut [u8], raw: &[u8], d: Head, pairs: &[Pair; 16]) -> Plain
    requires { Space raw.now (described_by d pairs.now) (length out.old) }
    ensures { parsed_in out.new result ≡ parsed_raw raw.now (described_by d pairs.now) }
{
    let dt = text_of(d.kind, d.text);
    let first = copy_part(out, 0, raw, d.name);
    let name = slot_at(None, 0, first);
    let second = copy_part(out, first, raw, dt);
    let text = slot_at(None, first, second);
    let mut slots = [name; Plain::SLOTS];
    let mut pos = second;
    for i in 0..at_most_16(d.count) {
        let p = pairs[i];
        let end = copy_part(out, pos, raw, p.value);
        slots[i] = slot_at(p.code, pos, end);
        pos = end;
    }
    Plain {
        kind: d.kind,
        tag: d.tag,
        count: d.count,
        name,
        text,
        slots,
    }
}

// The place of a part's key in the index: its number, below the last place.
fn place_of(slot: Slot) -> usize
    ensures value { result ≡ key_place (key_code slot.code) }
    ensures upper_bound { result < 32 }
{
    slot.number() as usize
}

// From the last value to the first, so that the first one of a key stays.
pub fn index<'a>(src: &'a [u8], p: &'a Plain, keys: &'a mut Keyed) -> Indexed<'a>
    ensures src_value { result.src.now ≡ src.now }
    ensures plain_value { result.plain.now ≡ p.now }
{
    *keys = Keyed::none();
    let mut total = 0;
    for i in (0..at_most_16(p.count)).rev() {
        let s = p.slots[i];
        let k = place_of(s);
        keys.there[k] = 1;
        keys.at[k] = s.at;
        keys.len[k] = s.len;
        total += bytes_of(src, s).len();
    }
    Indexed {
        src,
        plain: p,
        keys,
        total,
    }
}

/// The bytes of a part.
pub fn bytes_of(src: &[u8], s: Slot) -> &[u8]
    ensures result_value { result.now ≡ slot_bytes src.now s }
    ensures result_len_bound { length result.now < 65536 }
{
    part_of(src, usize::from(s.at), usize::from(s.len))
}

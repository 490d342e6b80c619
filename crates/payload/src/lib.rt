// What an accepted event adds to the text, behind what is in use: its values, its text, a generated name; and what they are charged.

#![tactic(auto)]

ghost use Rattle.std.specs.Prelude.{◌≡◌, ◌+◌, ◌≤◌, suc, ◌<◌, length};
ghost use Rattle.definition.specs.Limits.{limits01};
ghost use Rattle.definition.specs.Codes.{tag_number};
ghost use Rattle.definition.specs.Look.{payload, text_loads, name_loads, text_charge};
ghost use Rattle.plain.specs.Plain.{slots_of, loads_in, parsed_in};
ghost use Rattle.payload.specs.Laid.{laid};
ghost use Rattle.definition.specs.Text.{quoted, generated_name};
ghost use Rattle.payload.specs.Payload.{text_bytes, made_in, payload_in, charge_in, ends_in};

use definition::codes::{Key, Kind, Tag};
use nesting::names_state;
use plain::indexed::Indexed;
use plain::{Plain, Slot, bytes_of};
use written::{put_generated, put_quoted};

// A loop, since copying between slices calls `memmove`, which the library asks of nobody (include/chartreader.h).
pub fn put_bytes(text: &mut [u8], at: usize, v: &[u8])
    requires { at + length v.now ≤ length text.old }
    ensures { text.new ≡ laid text.old at v.now }
{
    for i in 0..v.len() {
        text[at + i] = v[i];
    }
}

// Values, in order; where they end.
fn append_slots(text: &mut [u8], used: usize, src: &[u8], slots: &[Slot]) -> usize
    requires { used + length (payload (loads_in src.now slots.now)) ≤ length text.old }
    ensures value { result ≡ used + length (payload (loads_in src.now slots.now)) }
    ensures text_after { text.new ≡ laid text.old used (payload (loads_in src.now slots.now)) }
{
    let mut pos = used;
    for slot in slots {
        let v = bytes_of(src, *slot);
        put_bytes(text, pos, v);
        pos += v.len();
    }
    pos
}

// All values, in order; where they end.
pub fn append_values(text: &mut [u8], used: usize, src: &[u8], p: &Plain) -> usize
    requires { used + length (payload (loads_in src.now (slots_of p.now))) ≤ length text.old }
    ensures value { result ≡ used + length (payload (loads_in src.now (slots_of p.now))) }
    ensures text_after { text.new ≡ laid text.old used (payload (loads_in src.now (slots_of p.now))) }
{
    append_slots(text, used, src, p.values())
}

fn put_quoted_at(text: &mut [u8], pos: usize, v: &[u8]) -> usize
    requires { pos + length (quoted v.now) ≤ length text.old }
    ensures value { result ≡ pos + length (quoted v.now) }
    ensures text_after { text.new ≡ laid text.old pos (quoted v.now) }
{
    pos + put_quoted(&mut text[pos..], v)
}

fn put_name_at(text: &mut [u8], pos: usize, number: u32) -> usize
    requires { pos + length (generated_name number) ≤ length text.old }
    ensures value { result ≡ pos + length (generated_name number) }
    ensures text_after { text.new ≡ laid text.old pos (generated_name number) }
{
    pos + put_generated(&mut text[pos..], number)
}

// An assign's text in its quoted form.
fn put_text(text: &mut [u8], pos: usize, tag: Tag, v: &[u8]) -> usize
    requires { pos + length (text_bytes (tag_number tag) v.now) ≤ length text.old }
    ensures value { result ≡ pos + length (text_bytes (tag_number tag) v.now) }
    ensures text_after { text.new ≡ laid text.old pos (text_bytes (tag_number tag) v.now) }
{
    if tag == Tag::Assign {
        return put_quoted_at(text, pos, v);
    }
    put_bytes(text, pos, v);
    pos + v.len()
}

fn append_text(text: &mut [u8], pos: usize, src: &[u8], p: &Plain) -> usize
    requires { pos + length (payload (text_loads (tag_number p.now.tag) (parsed_in src.now p.now).text)) ≤ length text.old }
    ensures value { result ≡ pos + length (payload (text_loads (tag_number p.now.tag) (parsed_in src.now p.now).text)) }
    ensures text_after { text.new ≡ laid text.old pos (payload (text_loads (tag_number p.now.tag) (parsed_in src.now p.now).text)) }
{
    if p.kind != Kind::Whole {
        return pos;
    }
    put_text(text, pos, p.tag, bytes_of(src, p.text))
}

fn append_name(text: &mut [u8], pos: usize, made: bool, drawn: u32) -> usize
    requires { (drawn ≤ limits01.drawn) × (pos + length (payload (name_loads made (suc drawn))) ≤ length text.old) }
    ensures value { result ≡ pos + length (payload (name_loads made (suc drawn))) }
    ensures text_after { text.new ≡ laid text.old pos (payload (name_loads made (suc drawn))) }
{
    if made {
        return put_name_at(text, pos, drawn + 1);
    }
    pos
}

// Whether the event draws a name.
pub fn is_made(event: &Indexed<'_>) -> bool
    ensures { result ≡ made_in (parsed_in event.now.src.now event.now.plain.now) }
{
    if event.plain.kind == Kind::End {
        return false;
    }
    names_state(event.plain.tag.number()) && !event.has(Key::Id)
}

// Where the values, the text and a generated name end.
#[derive(Clone, Copy)]
pub struct Ends {
    pub values: usize,
    pub text: usize,
    pub all: usize,
}

// All that an accepted event adds to the text; where its parts end.
pub fn append_event(
    text: &mut [u8],
    used: usize,
    src: &[u8],
    p: &Plain,
    made: bool,
    drawn: u32,
) -> Ends
    requires drawn_le_drawn { (drawn ≤ limits01.drawn) × (made ≡ made_in (parsed_in src.now p.now)) }
    requires drawn_in_bounds { used + length (payload_in (parsed_in src.now p.now) drawn) ≤ length text.old }
    ensures value { result ≡ ends_in used (parsed_in src.now p.now) drawn }
    ensures text_after { text.new ≡ laid text.old used (payload_in (parsed_in src.now p.now) drawn) }
{
    let values = append_values(text, used, src, p);
    let end = append_text(text, values, src, p);
    Ends {
        values,
        text: end,
        all: append_name(text, end, made, drawn),
    }
}

// "texts (assign: twice and two more)"
fn text_charge(src: &[u8], p: &Plain) -> usize
    ensures value { result ≡ text_charge (tag_number p.now.tag) (parsed_in src.now p.now).text }
    ensures upper_bound { result ≤ 131072 }
{
    if p.kind != Kind::Whole {
        return 0;
    }
    let v = bytes_of(src, p.text);
    if p.tag == Tag::Assign {
        return 2 * v.len() + 2;
    }
    v.len()
}

fn name_charge(made: bool, drawn: u32) -> usize
    requires { drawn ≤ limits01.drawn }
    ensures value { result ≡ length (payload (name_loads made (suc drawn))) }
    ensures upper_bound { result ≤ 24 }
{
    if !made {
        return 0;
    }
    put_generated(&mut [0u8; 24], drawn + 1)
}

pub fn charge(event: &Indexed<'_>, made: bool, drawn: u32) -> usize
    requires drawn_le_drawn { (drawn ≤ limits01.drawn) × (made ≡ made_in (parsed_in event.now.src.now event.now.plain.now)) }
    ensures value { result ≡ charge_in (parsed_in event.now.src.now event.now.plain.now) drawn }
    ensures upper_bound { result < 2097152 }
{
    event.total + text_charge(event.src, event.plain) + name_charge(made, drawn)
}

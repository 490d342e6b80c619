// The table of an event's texts: for each key where its value lies in the text after the event, and where the event's own text does.

#![tactic(auto)]

ghost use Rattle.std.specs.Prelude.{◌≡◌, ◌+◌, ◌-◌, ◌≤◌, length, replicate, take};
ghost use Rattle.definition.specs.Codes.{kind_number, tag_number};
ghost use Rattle.definition.specs.Rows.{cell_at};
ghost use Rattle.definition.specs.Look.{payload, text_loads};
ghost use Rattle.plain.specs.Plain.{loads_in, parsed_in, text_if};
ghost use Rattle.fill.specs.Fill.{cell, as_cell};
ghost use Rattle.texts.specs.Texts.{text_put, texts_in, closed};
ghost use Rattle.texts.specs.EventTexts.{trimmed_of, quoted_of, Ended, Named, Texts};

use definition::codes::{Kind, Tag};
use fill::{TextCell, cell_in, put_cell};
use payload::Ends;
use plain::{Plain, Slot, bytes_of};
use words::trim;

// Places in the table of texts, and no kinds. Keys of texts that the code puts in itself: a generated name is an id; the event's own text, and an assign's in quotes, have numbers after those of the keys.
const ID: u32 = 1;

const TEXT: u32 = 29;

const QUOTED: u32 = 30;

// Where cells stand in the table, two numbers a key: none, the trimmed text, an assign's in quotes, and a text that is there even if it has no bytes.
const NONE_AT: usize = 0;

const TEXT_AT: usize = 58;

const QUOTED_AT: usize = 60;

const CONTENT_AT: usize = 62;

// The bytes from `at` to `end`, as a text.
#[tactic(auto, unfolding(fill::specs::Fill::as_cell))]
fn text_between(at: usize, end: usize) -> TextCell
    requires { (at ≤ end) × (end ≤ 65535) }
    ensures { as_cell result ≡ cell (at + 1) (end - at) }
{
    TextCell {
        at: (at + 1) as u32,
        len: (end - at) as u32,
    }
}

// A key's text, unless it has one.
#[tactic(auto, using(crate::proofs::Laws::put_none))]
fn put_text(t: &mut [u32], key: u32, text: TextCell)
    ensures { t.new ≡ text_put key (as_cell text) t.old }
{
    if 32 <= key {
        return;
    }
    let i = key as usize;
    if cell_in(t, i + i).at == 0 {
        put_cell(t, i + i, text);
    }
}

// Values, in order; the payload begins at `base`.
fn slot_texts(t: &mut [u32], src: &[u8], slots: &[Slot], base: usize)
    requires { base + length (payload (loads_in src.now slots.now)) ≤ 65535 }
    ensures { t.new ≡ texts_in base (loads_in src.now slots.now) t.old }
{
    let mut pos = base;
    for slot in slots {
        let end = pos + bytes_of(src, *slot).len();
        put_text(t, slot.number(), text_between(pos, end));
        pos = end;
    }
}

// All values, in order.
fn value_texts(t: &mut [u32], src: &[u8], p: &Plain, base: usize)
    requires { base + length (payload (loads_in src.now (take p.now.count p.now.slots))) ≤ 65535 }
    ensures { t.new ≡ texts_in base (loads_in src.now (take p.now.count p.now.slots)) t.old }
{
    slot_texts(t, src, p.values(), base);
}

// The event's own texts: trimmed, an assign's in quotes, and as a content.
fn close_texts(t: &mut [u32], trimmed: TextCell, quoted: TextCell, content: TextCell)
    ensures { t.new ≡ closed (as_cell trimmed) (as_cell quoted) (as_cell content) t.old }
{
    put_cell(t, NONE_AT, TextCell::NONE);
    put_cell(t, TEXT_AT, trimmed);
    put_cell(t, QUOTED_AT, quoted);
    put_cell(t, CONTENT_AT, content);
}

// The event's text at `at`, trimmed; an assign has none.
fn trimmed_cell(kind: Kind, tag: Tag, text: &[u8], at: usize, none: TextCell) -> TextCell
    requires { at + length (payload (text_loads (tag_number tag) (text_if (kind_number kind) text.now))) ≤ 65535 }
    ensures { as_cell result ≡ trimmed_of (tag_number tag) at (text_if (kind_number kind) text.now) (as_cell none) }
{
    if kind != Kind::Whole {
        return none;
    }
    if tag == Tag::Assign {
        return none;
    }
    let part = trim(text);
    TextCell {
        at: (at + part.off + 1) as u32,
        len: part.len as u32,
    }
}

// An assign's text in quotes, as it is written.
fn quoted_cell(kind: Kind, tag: Tag, text: &[u8], e: Ends) -> TextCell
    requires { (e.text ≡ e.values + length (payload (text_loads (tag_number tag) (text_if (kind_number kind) text.now)))) × (e.text ≤ 65535) }
    ensures { as_cell result ≡ quoted_of (tag_number tag) e.values (text_if (kind_number kind) text.now) }
{
    if kind != Kind::Whole {
        return TextCell::NONE;
    }
    if tag != Tag::Assign {
        return TextCell::NONE;
    }
    text_between(e.values, e.text)
}

// The event's text among the texts, by the key of texts or of quoted ones.
fn put_own(t: &mut [u32], kind: Kind, tag: Tag, text: &[u8], e: Ends)
    requires { (e.text ≡ e.values + length (payload (text_loads (tag_number tag) (text_if (kind_number kind) text.now)))) × (e.text ≤ 65535) }
    ensures { t.new ≡ texts_in e.values (text_loads (tag_number tag) (text_if (kind_number kind) text.now)) t.old }
{
    if kind != Kind::Whole {
        return;
    }
    let key = if tag == Tag::Assign { QUOTED } else { TEXT };
    put_text(t, key, text_between(e.values, e.text));
}

// A generated name among the texts, as the id.
fn put_made(t: &mut [u32], made: bool, e: Ends)
    requires { (e.text ≤ e.all) × (e.all ≤ 65535) }
    ensures { Named made e.text e.all t.old t.new }
{
    if made {
        put_text(t, ID, text_between(e.text, e.all));
    }
}

/// Where the texts of an event lie in the arena, by key, put into a table of zeros: its payload begins at `base`, and its parts end as `e` says.
pub fn texts_of(t: &mut [u32], src: &[u8], p: &Plain, base: usize, made: bool, e: Ends)
    requires { (t.old ≡ replicate 64 0) × Ended base (parsed_in src.now p.now) e }
    ensures { Texts base (parsed_in src.now p.now) made e t.new }
{
    let text = bytes_of(src, p.text);
    value_texts(t, src, p, base);
    put_own(t, p.kind, p.tag, text, e);
    put_made(t, made, e);
    let a = trimmed_cell(p.kind, p.tag, text, e.values, TextCell::NONE);
    let q = quoted_cell(p.kind, p.tag, text, e);
    let nothing = text_between(base, base);
    let c = trimmed_cell(p.kind, p.tag, text, e.values, nothing);
    close_texts(t, a, q, c);
}

/// A key's text.
pub fn key_cell(t: &[u32], k: usize) -> TextCell
    requires { k ≤ 64 }
    ensures { as_cell result ≡ cell_at t.now (k + k) }
{
    cell_in(t, k + k)
}

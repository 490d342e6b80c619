// One walk over an event's lines: each part found, measured and told by its number, or the event out of form.

#![tactic(auto)]

ghost use Rattle.std.specs.Prelude.{◌≡◌, true, false, ◌&&◌, ◌||◌, ◌+◌, ◌^◌, ◌≤◌, ◌<◌, ltb, leb, length, drop, MatchOption};
ghost use Rattle.definition.specs.Codes.{kind_code, tag_number, key_code};
ghost use Rattle.definition.specs.Text.{str};
ghost use Rattle.lines.specs.Lines.{has_head, event_length};
ghost use Rattle.lines.specs.Escapes.{scanned};
ghost use Rattle.lines.specs.Blocks.{all, is_plain};
ghost use Rattle.parts.specs.Parts.{part_at, no_pairs, broken, begun, pairs_of, with_kind, with_name, with_key, with_text, added_value, made_by, walked_by};
ghost use Rattle.walk.specs.Views.{found_of, lined, no_number, last_of};
ghost use Rattle.walk.specs.Walk.{AsWritten, found, on_event, on_name, on_key, on_value, walked};
ghost use Rattle.walk.specs.Stream.{first_event, settled, Takes, Reached, made, Closes};

use definition::Chart;
use definition::codes::{Key, Kind, Tag};
use elements::tag_of;
use keys::key_of;
use lines::{begins, line_end, next_event, scan_line, tail_of, tail_of_text};
use parts::{Heading, Pair, Part, clear, kind_of, no_part};

// A part that is in order: where it is written, in how many bytes, and its unescaped length.
fn found_at(at: usize, len: usize, size: usize) -> Part
    requires { ((at < 2 ^ 16) × (len < 2 ^ 16)) × (size < 2 ^ 16) }
    ensures { result ≡ part_at at len size }
{
    Part {
        at: at as u16,
        len: len as u16,
        size: size as u16,
    }
}

// The unescaped length of what is written, if it is legible; what is known to be plain is not scanned.
fn measure(written: &[u8], plain: bool) -> Option<usize>
    requires { plain ≡ true → all is_plain written.now ≡ true }
    ensures { result ≡ scanned written.now }
{
    if plain {
        return Some(written.len());
    }
    scan_line(written)
}

// What is written at `at`, if it is legible and of `low` to `high` bytes unescaped.
fn find_part(written: &[u8], plain: bool, at: usize, low: usize, high: u32) -> Option<Part>
    requires written_value { plain ≡ true → all is_plain written.now ≡ true }
    requires written_bound { at + length written.now < 2 ^ 16 }
    requires high_bound { high < 2 ^ 16 }
    ensures { found_of result ≡ found low high at written.now }
{
    let size = measure(written, plain)?;
    if !((low <= size) & (size <= high as usize)) {
        return None;
    }
    Some(found_at(at, written.len(), size))
}

// The part of a name or key: one that is known is legible as it is written, so it is not scanned.
fn name_part(known: bool, written: &[u8], at: usize, high: u32) -> Option<Part>
    requires written_bound { at + length written.now < 2 ^ 16 }
    requires high_bound { high < 2 ^ 16 }
    requires as_written { known ≡ true → AsWritten high written.now }
    ensures { found_of result ≡ found 1 high at written.now }
{
    if known {
        let len = written.len();
        return Some(found_at(at, len, len));
    }
    find_part(written, false, at, 1, high)
}

// A line in form: the kind, element or key that it names, its part, and where the next line begins.
#[derive(Clone, Copy)]
pub struct LineOf<T> {
    pub what: T,
    pub part: Part,
    pub next: usize,
}

// Whether a line is ended, in an event that is not too long.
fn is_ended(stream: &[u8], end: usize) -> bool
    ensures { result ≡ (ltb end (length stream.now) && ltb end 49152) }
{
    (end < stream.len()) & (end < Chart::EVENT as usize)
}

// The line that begins at `at`, by what may come, if it is in form.
fn event_line(stream: &[u8]) -> Option<LineOf<Option<Kind>>>
    ensures { Takes stream.now 0 on_event (with_kind (lined kind_code result).code) (lined kind_code result) }
{
    if !begins(stream, 0, b"event=") {
        return None;
    }
    let end = line_end(stream, 6);
    if !is_ended(stream, end) {
        return None;
    }
    Some(LineOf {
        what: kind_of(&stream[6..end]),
        part: no_part(),
        next: end + 1,
    })
}

fn name_line(stream: &[u8], at: usize) -> Option<LineOf<Tag>>
    requires { at ≤ length stream.now }
    ensures { Takes stream.now at (on_name at) (with_name (lined tag_number result).code (lined tag_number result).part) (lined tag_number result) }
{
    if !begins(stream, at, b"name=") {
        return None;
    }
    let from = at + 5;
    let end = line_end(stream, from);
    if !is_ended(stream, end) {
        return None;
    }
    let name = &stream[from..end];
    let what = tag_of(name);
    Some(LineOf {
        what,
        part: name_part(what != Tag::Unknown, name, from, Chart::NAME)?,
        next: end + 1,
    })
}

fn key_line(stream: &[u8], at: usize) -> Option<LineOf<Option<Key>>>
    requires at_in_bounds { at ≤ length stream.now }
    requires stream_value { has_head (str "key=") (drop at stream.now) ≡ true }
    ensures { Takes stream.now at (on_key at) (with_key (lined key_code result).code (lined key_code result).part) (lined key_code result) }
{
    let from = at + 4;
    let end = line_end(stream, from);
    if !is_ended(stream, end) {
        return None;
    }
    let key = &stream[from..end];
    let what = key_of(key);
    Some(LineOf {
        what,
        part: name_part(what.is_some(), key, from, Chart::KEY)?,
        next: end + 1,
    })
}

fn value_line(stream: &[u8], at: usize) -> Option<LineOf<()>>
    requires { at ≤ length stream.now }
    ensures { Takes stream.now at (on_value at) (added_value (lined no_number result).part) (lined no_number result) }
{
    if !begins(stream, at, b"value=") {
        return None;
    }
    let from = at + 6;
    let t = tail_of(stream, from);
    if !is_ended(stream, t.end) {
        return None;
    }
    Some(LineOf {
        what: (),
        part: find_part(&stream[from..t.end], t.plain, from, 0, Chart::VALUE)?,
        next: t.end + 1,
    })
}

fn text_line(stream: &[u8], at: usize) -> Option<LineOf<()>>
    requires at_in_bounds { at ≤ length stream.now }
    requires stream_value { has_head (str "text=") (drop at stream.now) ≡ true }
    ensures { Takes stream.now at (on_key at) (with_text (lined no_number result).part) (lined no_number result) }
{
    let from = at + 5;
    let t = tail_of_text(stream, from);
    if !is_ended(stream, t.end) {
        return None;
    }
    Some(LineOf {
        what: (),
        part: find_part(&stream[from..t.end], t.plain, from, 0, Chart::TEXT)?,
        next: t.end + 1,
    })
}

// The first event of a stream: what its lines have brought beside the attributes, if it is in form, and where it ends.
#[derive(Clone, Copy)]
pub struct Walk {
    pub walked: Option<Heading>,
    pub end: usize,
}

// What follows the attributes: the text, if there is one, and where the event ends.
#[derive(Clone, Copy)]
pub struct Last {
    pub text: Option<Part>,
    pub end: usize,
}

// Whether the next event begins at `at`, or nothing follows.
fn is_over(stream: &[u8], at: usize) -> bool
    requires { at ≤ length stream.now }
    ensures { result ≡ (has_head (str "event=") (drop at stream.now) || leb (length stream.now) at) }
{
    begins(stream, at, b"event=") | (stream.len() <= at)
}

// The text, and no line after it.
fn last_text(stream: &[u8], at: usize) -> Option<Last>
    requires at_in_bounds { at ≤ length stream.now }
    requires stream_value { has_head (str "text=") (drop at stream.now) ≡ true }
    ensures { Closes stream.now at (last_of result) }
{
    let t = text_line(stream, at)?;
    if !is_over(stream, t.next) {
        return None;
    }
    Some(Last {
        text: Some(t.part),
        end: t.next,
    })
}

fn last_line(stream: &[u8], at: usize) -> Option<Last>
    requires at_in_bounds { at ≤ length stream.now }
    requires at_nonzero { 0 < at }
    requires stream_value { has_head (str "key=") (drop at stream.now) ≡ false }
    ensures { Closes stream.now at (last_of result) }
{
    if begins(stream, at, b"text=") {
        return last_text(stream, at);
    }
    if !is_over(stream, at) {
        return None;
    }
    Some(Last {
        text: None,
        end: at,
    })
}

// The lines after the name `n`, if they are in form.
fn walk_pairs(
    stream: &[u8],
    kind: Option<Kind>,
    n: LineOf<Tag>,
    pairs: &mut [Pair; 16],
) -> Option<Walk>
    requires next_nonzero { 0 < n.next }
    requires reached { Reached stream.now n.next (made (kind_code kind) (tag_number n.what) n.part 0 no_pairs) }
    ensures { MatchOption result (broken begun ≡ settled (walked (first_event stream.now))) (λ w. (walked_by w.walked pairs.new ≡ settled (walked (first_event stream.now))) × (w.end ≡ event_length stream.now)) }
{
    clear(pairs);
    let mut at = n.next;
    let mut count = 0;
    while begins(stream, at, b"key=") {
        let k = key_line(stream, at)?;
        let v = value_line(stream, k.next)?;
        if count >= Chart::ATTRIBUTES as usize {
            return None;
        }
        pairs[count] = Pair::new(k.what, k.part, v.part);
        count += 1;
        at = v.next;
    }
    let l = last_line(stream, at)?;
    Some(Walk {
        walked: Some(Heading {
            kind,
            tag: n.what,
            name: n.part,
            count,
            text: l.text,
        }),
        end: l.end,
    })
}

// The lines of a stream's first event, if they are in form.
fn walk_event(stream: &[u8], pairs: &mut [Pair; 16]) -> Option<Walk>
    ensures { MatchOption result (broken begun ≡ settled (walked (first_event stream.now))) (λ w. (walked_by w.walked pairs.new ≡ settled (walked (first_event stream.now))) × (w.end ≡ event_length stream.now)) }
{
    let e = event_line(stream)?;
    let n = name_line(stream, e.next)?;
    walk_pairs(stream, e.what, n, pairs)
}

// The lines of a stream's first event, up to where it ends.
pub fn walk_lines(stream: &[u8], pairs: &mut [Pair; 16]) -> Walk
    ensures lines { walked_by result.walked pairs.new ≡ settled (walked (first_event stream.now)) }
    ensures end { result.end ≡ event_length stream.now }
{
    if let Some(w) = walk_event(stream, pairs) {
        return w;
    }
    clear(pairs);
    Walk {
        walked: None,
        end: next_event(stream, 0),
    }
}

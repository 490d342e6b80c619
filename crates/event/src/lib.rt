// The description of an event's bytes: questions 3 and 4, then what it is, and where each text stands.

#![tactic(auto)]

ghost use Rattle.std.specs.Prelude.{◌≡◌, ◌≤◌, length, take, drop, MatchResult};
ghost use Rattle.definition.specs.Codes.{kind_number, refusal_number};
ghost use Rattle.definition.specs.Text.{same};
ghost use Rattle.lines.specs.Lines.{event_length};
ghost use Rattle.parts.specs.Parts.{pair_of, pairs_of, next_of, walked_by};
ghost use Rattle.walk.specs.Walk.{walked};
ghost use Rattle.walk.specs.Stream.{settled};
ghost use Rattle.event.specs.Described.{Coded, IsCoded, blank, described_by, told_by, shape_fits, read, pair_keys, is_among, all_differ, finished, described};
ghost use Rattle.definition.specs.Codes.{outcome};
ghost use Rattle.event.specs.One.{one_event};

use definition::codes::{Kind, Refusal, Tag};
use lines::{next_event, part_of, same_text};
use nesting::holds_text;
use parts::{Heading, Pair, Part, at_most_16, clear};
use walk::walk_lines;

// An event's bytes taken apart: its kind and its element; the first `count` of the attributes that are lent beside it are its own, in order. Of kind `whole`
// `text` is the text.
#[derive(Clone, Copy)]
pub struct Head {
    pub kind: Kind,
    pub tag: Tag,
    pub name: Part,
    pub count: usize,
    pub text: Option<Part>,
}

// Whether the kind fits what came.
#[tactic(auto, using(crate::proofs::DescribeLaws::no_text_next, crate::proofs::DescribeLaws::text_next), unfolding(crate::specs::Described::shape_fits))]
fn shape_fits(kind: Kind, text: Option<Part>, count: usize, holds: bool) -> bool
    ensures { result ≡ shape_fits (kind_number kind) (next_of text) count holds }
{
    match kind {
        Kind::Open => text.is_none() & !holds,
        Kind::Empty => text.is_none(),
        Kind::Whole => text.is_some() & holds,
        Kind::End => text.is_none() & (count == 0),
    }
}

// Whether two pairs have the same key. Keys with different numbers are different, so texts are compared for unknown keys only, or where a key is repeated.
fn same_key(raw: &[u8], p: Pair, q: Pair) -> bool
    requires p_value { IsCoded raw.now (pair_of p) }
    requires q_value { IsCoded raw.now (pair_of q) }
    ensures { result ≡ same (read raw.now q.key) (read raw.now p.key) }
{
    if p.code != q.code {
        return false;
    }
    same_text(
        part_of(raw, usize::from(q.key.at), usize::from(q.key.len)),
        part_of(raw, usize::from(p.key.at), usize::from(p.key.len)),
    )
}

// Whether the key of a pair is the key of a later one.
fn key_repeats(raw: &[u8], p: Pair, later: &[Pair]) -> bool
    requires p_value { IsCoded raw.now (pair_of p) }
    requires coded { Coded raw.now (pairs_of later.now) }
    ensures { result ≡ is_among (read raw.now p.key) (pair_keys raw.now (pairs_of later.now)) }
{
    let mut rest = later;
    while let Some((q, left)) = rest.split_first() {
        if same_key(raw, p, *q) {
            return true;
        }
        rest = left;
    }
    false
}

// Whether the keys of all pairs are different.
fn keys_differ(raw: &[u8], pairs: &[Pair]) -> bool
    requires { Coded raw.now (pairs_of pairs.now) }
    ensures { result ≡ all_differ (pair_keys raw.now (pairs_of pairs.now)) }
{
    let mut rest = pairs;
    while let Some((p, later)) = rest.split_first() {
        if key_repeats(raw, *p, later) {
            return false;
        }
        rest = later;
    }
    true
}

// What the lines have brought, if the event is in form and its keys are different.
fn head_of(raw: &[u8], heading: Option<Heading>, pairs: &[Pair; 16]) -> Result<Head, Refusal>
    requires heading_value { walked_by heading pairs.now ≡ settled (walked raw.now) }
    ensures { MatchResult result (λ d. described_by d pairs.now ≡ finished raw.now (walked_by heading pairs.now)) (λ r. blank (refusal_number r) ≡ finished raw.now (walked_by heading pairs.now)) }
{
    let Some(w) = heading else {
        return Err(Refusal::NotInForm);
    };
    let Some(kind) = w.kind else {
        return Err(Refusal::NotInForm);
    };
    if !shape_fits(kind, w.text, w.count, holds_text(w.tag.number())) {
        return Err(Refusal::NotInForm);
    }
    if !keys_differ(raw, &pairs[..at_most_16(w.count)]) {
        return Err(Refusal::RepeatedKey);
    }
    Ok(Head {
        kind,
        tag: w.tag,
        name: w.name,
        count: w.count,
        text: w.text,
    })
}

// A stream's first event, or which question is answered no, and where it ends.
#[derive(Clone, Copy)]
pub struct Next {
    pub event: Result<Head, Refusal>,
    pub end: usize,
}

// The first event of a stream taken apart: it runs to the next line that begins `event=`, or to the end. A refused event has no attributes, whatever the walk
// has left beside it.
pub fn describe_next(stream: &[u8], pairs: &mut [Pair; 16]) -> Next
    ensures event { told_by result.event pairs.new ≡ described (take (event_length stream.now) stream.now) }
    ensures end { result.end ≡ event_length stream.now }
{
    let x = walk_lines(stream, pairs);
    let event = head_of(&stream[..x.end], x.walked, pairs);
    if event.is_err() {
        clear(pairs);
    }
    Next { event, end: x.end }
}

// Bytes that hold no event or more than one are out of form.
pub fn one_event(raw: &[u8]) -> Result<(), Refusal>
    ensures { outcome result ≡ one_event raw.now }
{
    if raw.is_empty() {
        return Err(Refusal::NotInForm);
    }
    if next_event(raw, 0) < raw.len() {
        return Err(Refusal::NotInForm);
    }
    Ok(())
}

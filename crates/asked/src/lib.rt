// The questions 5 to 12 of an event: the first no.

#![tactic(auto)]

ghost use Rattle.std.specs.Prelude.{◌≡◌, not, ◌&&◌, leb, MatchResult};
ghost use Rattle.definition.specs.Codes.{tag_number, key_number, refusal_number};
ghost use Rattle.definition.specs.Elements as E;
ghost use Rattle.definition.specs.Reader.{first_no};
ghost use Rattle.plain.specs.Plain.{parsed_in};
ghost use Rattle.asked.specs.Asked.{there, apart_by, trimmed_in, text_apart_in, asked_in, start_by, questions_by};

use definition::Chart;
use definition::codes::{Key, Kind, Refusal, Tag};
use nesting::parent_allowed;
use plain::indexed::Indexed;
use plain::{Plain, bytes_of};
use plan::Heard;
use words::trim;

/// Where an event stands: whether its name is the innermost open element's, how many elements are open, the tag of the innermost, a number as its row has it (C lends rows of numbers), and the root's number.
#[derive(Clone, Copy)]
pub struct Place {
    pub innermost: bool,
    pub depth: u32,
    pub parent: u32,
    pub root: u32,
}

// include; data or script with `src`; send with `delay`.
fn left_out(event: &Indexed<'_>) -> bool
    ensures { result ≡ (asked_in (parsed_in event.now.src.now event.now.plain.now)).omitted }
{
    match event.plain.tag {
        Tag::Include => true,
        Tag::Data | Tag::Script => event.has(Key::Src),
        Tag::Send => event.has(Key::Delay),
        _ => false,
    }
}

fn complete(event: &Indexed<'_>) -> bool
    ensures { result ≡ (asked_in (parsed_in event.now.src.now event.now.plain.now)).complete }
{
    match event.plain.tag {
        Tag::Data => event.has(Key::Id),
        Tag::Foreach => event.has(Key::Array) & event.has(Key::Item),
        Tag::If | Tag::Elseif => event.has(Key::Cond),
        Tag::Param => event.has(Key::Name),
        Tag::Assign => event.has(Key::Location),
        Tag::Raise => event.has(Key::Event),
        Tag::Cancel => event.has(Key::Sendid) | event.has(Key::Sendidexpr),
        _ => true,
    }
}

// Whether not both keys are there.
fn not_both(event: &Indexed<'_>, one: Key, other: Key) -> bool
    ensures { result ≡ not (there (parsed_in event.now.src.now event.now.plain.now) (key_number one) && there (parsed_in event.now.src.now event.now.plain.now) (key_number other)) }
{
    !(event.has(one) & event.has(other))
}

// Two keys of one element that exclude each other: three elements have such keys.
fn keys_apart(event: &Indexed<'_>) -> bool
    ensures { result ≡ apart_by (there (parsed_in event.now.src.now event.now.plain.now)) (tag_number event.now.plain.now.tag) }
{
    match event.plain.tag {
        Tag::Send => {
            not_both(event, Key::Event, Key::Eventexpr)
                & not_both(event, Key::Target, Key::Targetexpr)
                & not_both(event, Key::Type, Key::Typeexpr)
                & not_both(event, Key::Id, Key::Idlocation)
        }
        Tag::Cancel => not_both(event, Key::Sendid, Key::Sendidexpr),
        Tag::Param => not_both(event, Key::Expr, Key::Location),
        _ => true,
    }
}

// Whether an event has a text that is not white space alone.
fn has_text(event: &Indexed<'_>) -> bool
    ensures { result ≡ leb 1 (trimmed_in (parsed_in event.now.src.now event.now.plain.now).text) }
{
    if event.plain.kind != Kind::Whole {
        return false;
    }
    trim(bytes_of(event.src, event.plain.text)).len != 0
}

// A text beside expr: only a whole event has a text.
fn text_apart(event: &Indexed<'_>) -> bool
    ensures { result ≡ text_apart_in (parsed_in event.now.src.now event.now.plain.now) }
{
    if event.plain.kind != Kind::Whole {
        return true;
    }
    match event.plain.tag {
        Tag::Data => !(event.has(Key::Expr) && has_text(event)),
        Tag::Content => !event.has(Key::Expr),
        Tag::Assign => event.value(Key::Expr).is_empty(),
        _ => true,
    }
}

// How many words a binding and a type may be, and no kinds: one that is not taken has the code after the last.
const BINDINGS: u32 = 2;

const TYPES: u32 = 3;

// The questions 7 to 10, which an end is not asked.
fn may_start(event: &Indexed<'_>, place: Place) -> Result<(), Refusal>
    ensures { let a = asked_in (parsed_in event.now.src.now event.now.plain.now) in let no = first_no (start_by a.start a.tag a.complete place.depth place.parent place.root) in MatchResult result (λ u. no ≡ 0) (λ r. refusal_number r ≡ no) }
{
    if event.plain.kind == Kind::End {
        return Ok(());
    }
    if Chart::OPENED <= place.depth {
        return Err(Refusal::TooDeep);
    }
    if !parent_allowed(event.plain.tag.number(), place.parent) {
        return Err(Refusal::WrongParent);
    }
    if (event.plain.tag == Tag::Scxml) & (place.root != 0) {
        return Err(Refusal::SecondScxml);
    }
    if !complete(event) {
        return Err(Refusal::Missing);
    }
    Ok(())
}

// Of the questions 5 to 12, each asked only after a yes to those before it.
pub fn first_no(event: &Indexed<'_>, h: Heard, place: Place) -> Result<(), Refusal>
    ensures { let no = first_no (questions_by h (asked_in (parsed_in event.now.src.now event.now.plain.now)) place.innermost place.depth place.parent place.root) in MatchResult result (λ u. no ≡ 0) (λ r. refusal_number r ≡ no) }
{
    if (event.plain.kind == Kind::End) & !place.innermost {
        return Err(Refusal::WrongEnd);
    }
    if left_out(event) {
        return Err(Refusal::LeftOut);
    }
    may_start(event, place)?;
    if !(keys_apart(event) & text_apart(event)) {
        return Err(Refusal::Together);
    }
    if (BINDINGS <= h.binding) | (TYPES <= h.history) {
        return Err(Refusal::UnknownWord);
    }
    Ok(())
}

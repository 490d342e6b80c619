// What an event says: all that a plan needs of it.

#![tactic(auto)]

ghost use Rattle.std.specs.Prelude.{◌≡◌, ℕ, eqb, unwrap_or};
ghost use Rattle.definition.specs.Codes.{kind_number};
ghost use Rattle.definition.specs.Event.{kind};
ghost use Rattle.definition.specs.Elements.{key};
ghost use Rattle.definition.specs.Look.{code_of};
ghost use Rattle.definition.specs.Actions.{type_of};
ghost use Rattle.plain.specs.Plain.{parsed_in};
ghost use Rattle.plain.specs.Keyed.{value_in};
ghost use Rattle.heard.specs.Heard.{code_in, words_in, heard_in};

use definition::StateId;
use definition::codes::{Key, Kind, Tag};
use plain::indexed::Indexed;
use plan::Heard;
use text::{binding_code, history_code, is_true, transition_code};
use words::each::{EventWords, StateWords};
use words::is_wildcard;

// The codes and counts of keys, as numbers, since rows hold them so (C lends rows of numbers): a value is cut out only for an element that has a code of it.
fn binding_of(event: &Indexed<'_>) -> u32
    ensures { let v = parsed_in event.now.src.now event.now.plain.now in result ≡ code_in 0 v.tag key.binding v.values }
{
    if !event.has(Key::Binding) {
        return 0;
    }
    if event.plain.tag != Tag::Scxml {
        return 0;
    }
    binding_code(event.value(Key::Binding))
}

// None where no type is given.
fn type_code(event: &Indexed<'_>) -> Option<u32>
    ensures { let v = parsed_in event.now.src.now event.now.plain.now in (d : ℕ) → unwrap_or result d ≡ code_in d v.tag key.type v.values }
{
    if !event.has(Key::Type) {
        return None;
    }
    if event.plain.tag == Tag::History {
        return Some(history_code(event.value(Key::Type)));
    }
    if event.plain.tag == Tag::Transition {
        return Some(transition_code(event.value(Key::Type)));
    }
    Some(0)
}

fn wildcard_of(event: &Indexed<'_>) -> u32
    ensures { let v = parsed_in event.now.src.now event.now.plain.now in result ≡ code_of v.tag key.event (value_in key.event v.values) }
{
    if event.plain.tag != Tag::Transition {
        return 0;
    }
    u32::from(is_wildcard(event.value(Key::Event)))
}

fn forward_of(event: &Indexed<'_>) -> u32
    ensures { let v = parsed_in event.now.src.now event.now.plain.now in result ≡ code_of v.tag key.autoforward (value_in key.autoforward v.values) }
{
    u32::from(is_true(event.value(Key::Autoforward)))
}

// The number that a row has for a type: C lends rows of numbers.
fn type_of(code: u32) -> u32
    ensures { result ≡ type_of code }
{
    if code == 1 {
        return 1;
    }
    0
}

// How many event words a transition has.
fn events_of(event: &Indexed<'_>) -> u32
    ensures { let v = parsed_in event.now.src.now event.now.plain.now in result ≡ words_in v.tag key.event v.values }
{
    if event.plain.tag != Tag::Transition {
        return 0;
    }
    let v = event.value(Key::Event);
    EventWords { v, at: 0 }.count() as u32
}

// How many words the namelist of a send or an invoke has.
fn names_of(event: &Indexed<'_>) -> u32
    ensures { let v = parsed_in event.now.src.now event.now.plain.now in result ≡ words_in v.tag key.namelist v.values }
{
    if (event.plain.tag == Tag::Send) | (event.plain.tag == Tag::Invoke) {
        let v = event.value(Key::Namelist);
        return StateWords { v, at: 0 }.count() as u32;
    }
    0
}

// Of the kinds of event only `whole` has a text.
fn has_text(of: Kind) -> bool
    ensures { result ≡ eqb (kind_number of) kind.whole }
{
    of == Kind::Whole
}

pub fn heard(event: &Indexed<'_>, own: StateId, found: u32) -> Heard
    ensures { result ≡ heard_in own.0 found (parsed_in event.now.src.now event.now.plain.now) }
{
    let typed = type_code(event);
    Heard {
        whole: has_text(event.plain.kind),
        own,
        initial: event.has(Key::Initial),
        expr: event.has(Key::Expr),
        binds: event.has(Key::Binding),
        binding: binding_of(event),
        mode: type_of(typed.unwrap_or(0)),
        history: typed.unwrap_or(1),
        wildcard: wildcard_of(event),
        forward: forward_of(event),
        events: events_of(event),
        names: names_of(event),
        found,
    }
}

// State names: the row that has a name, and the names that an event brings: how many, and how many of them are new.

#![tactic(auto)]

ghost use Rattle.std.specs.Prelude.{◌≡◌, true, ◌∷◌, [], ◌<◌, ◌≤◌, length, get_or, position};
ghost use Rattle.definition.specs.Text as T;
ghost use Rattle.definition.specs.Text.{state_words};
ghost use Rattle.definition.specs.Rows.{text_at, cell_at};
ghost use Rattle.definition.specs.Limits.{limits01};
ghost use Rattle.definition.specs.Look.{find_name, name_cells};
ghost use Rattle.definition.specs.Rules.{names_lead};
ghost use Rattle.plain.specs.Plain.{parsed_in};
ghost use Rattle.names.specs.Names.{ends_so, IsLastLike, words_from, occurs, new_if, counted, state_names, names_in};

use definition::cells::StateColumn;
use definition::codes::{Key, Kind, Tag};
use nesting::names_state;
use plain::indexed::Indexed;
use text::{same, same_at};
use words::each::StateWords;
use written::put_generated;

// Whether the text of a cell is w, byte by byte.
pub fn is_at(text: &[u8], at: u32, len: u32, w: &[u8]) -> bool
    ensures { result ≡ T.same (text_at text.now (record { at = at; len = len })) w.now }
{
    if at == 0 {
        return w.len() == 0;
    }
    same_at(text, at as usize - 1, len as usize, w)
}

// Whether a name that begins at `at`, from 1, may end in these two bytes; `tail` is the text from two bytes before its length on, so that it is read by `at` alone.
fn ends_so(tail: &[u8], at: usize, before: u8, last: u8) -> bool
    ensures { result ≡ ends_so tail.now at before last }
{
    if tail.len() <= at {
        return false;
    }
    if tail[at] != last {
        return false;
    }
    if at == 0 {
        return false;
    }
    tail[at - 1] == before
}

// Whether the name of a row is w.
#[tactic(auto, unfolding(definition::specs::Rows::cell_at))]
fn is_named(row: &[u32; 24], text: &[u8], w: &[u8]) -> bool
    ensures { result ≡ T.same (text_at text.now (cell_at row.now 0)) w.now }
{
    is_at(
        text,
        row[StateColumn::NAME],
        row[StateColumn::NAME_LENGTH],
        w,
    )
}

// The first row whose name is w.
fn first_named(states: &[[u32; 24]], text: &[u8], w: &[u8]) -> Option<usize>
    ensures { result ≡ position (λ row. T.same (text_at text.now (cell_at row 0)) w.now) states.now }
{
    states.iter().position(|row| is_named(row, text, w))
}

// For any w.
fn find_short(states: &[[u32; 24]], text: &[u8], w: &[u8]) -> usize
    ensures { result ≡ find_name text.now (name_cells states.now) w.now }
{
    first_named(states, text, w).unwrap_or(states.len())
}

// The last row whose name may end so.
fn last_like(states: &[[u32; 24]], tail: &[u8], before: u8, last: u8) -> Option<usize>
    ensures { IsLastLike tail.now before last states.now result }
{
    states.iter().rposition(
        |row| -> bool
            ensures { result ≡ ends_so tail.entry.now (get_or row.now 0 0) before last }
        { ends_so(tail, row[StateColumn::NAME] as usize, before, last) },
    )
}

// For a w of two bytes and more: names often begin alike and differ in their last bytes, so only rows with those are compared. From the last row down: a chart
// mostly names states that stand near.
fn find_last(states: &[[u32; 24]], text: &[u8], w: &[u8]) -> usize
    requires in_bounds { (2 ≤ length w.now) × (length w.now ≤ length text.now) }
    requires states_value { names_lead text.now (name_cells states.now) 0 (name_cells states.now) ≡ true }
    ensures { result ≡ find_name text.now (name_cells states.now) w.now }
{
    let start = w.len() - 2;
    let before = w[start];
    let last = w[start + 1];
    let tail = &text[start..];
    let mut rest = states;
    while let Some(k) = last_like(rest, tail, before, last) {
        if is_named(&states[k], text, w) {
            return k;
        }
        rest = &rest[..k];
    }
    states.len()
}

// The first row whose name is w, from 0; how many rows there are if there is none. Names are distinct where question 2 is yes, so any row that has the name is
// the first; the row `near` is looked at before the others.
pub fn find_state(states: &[[u32; 24]], text: &[u8], w: &[u8], near: usize) -> usize
    requires { names_lead text.now (name_cells states.now) 0 (name_cells states.now) ≡ true }
    ensures value { result ≡ find_name text.now (name_cells states.now) w.now }
    ensures upper_bound { result ≤ length states.now }
{
    if let Some(row) = states.get(near) {
        if is_named(row, text, w) {
            return near;
        }
    }
    if (w.len() < 2) | (text.len() < w.len()) {
        return find_short(states, text, w);
    }
    find_last(states, text, w)
}

// Whether w is one of the words of v from `from` on.
fn is_word(v: &[u8], from: usize, w: &[u8]) -> bool
    ensures { result ≡ occurs w.now (words_from v.now from) }
{
    StateWords { v, at: from }.any(|found| same(found.word, w))
}

// It is added up, so it is a number and no yes: 1 if w is not known and none of the words of v from `from` on; else 0.
fn new_if(known: bool, w: &[u8], v: &[u8], from: usize) -> usize
    ensures value { result ≡ new_if known w.now (words_from v.now from) }
    ensures upper_bound { result ≤ 1 }
{
    if known {
        return 0;
    }
    if is_word(v, from, w) {
        return 0;
    }
    1
}

/// The names of an event: the number of the first one's state, from 1, how many there are, the element's own included, and how many are new.
#[derive(Clone, Copy)]
pub struct Names {
    pub own: usize,
    pub refs: usize,
    pub new: usize,
}

// The words of v. States that are listed together are often neighbours, so the row after the last one found is looked at first.
fn count_names(states: &[[u32; 24]], text: &[u8], v: &[u8]) -> Names
    requires { names_lead text.now (name_cells states.now) 0 (name_cells states.now) ≡ true }
    ensures value { result ≡ counted text.now (name_cells states.now) (state_words v.now) }
    ensures refs_in_bounds { (result.refs ≤ length v.now) × (result.new ≤ length v.now) }
{
    let mut own = 0;
    let mut refs = 0;
    let mut new = 0;
    let mut near = 0;
    for found in (StateWords { v, at: 0 }) {
        let w = found.word;
        let k = find_state(states, text, w, near);
        near = k + 1;
        if own == 0 {
            own = near;
        }
        new += new_if(k < states.len(), w, v, found.off + w.len());
        refs += 1;
    }
    Names { own, refs, new }
}

// The element's own name, and the words of v.
fn count_with(states: &[[u32; 24]], text: &[u8], own: &[u8], v: &[u8]) -> Names
    requires v_len_bound { length v.now < 65536 }
    requires states_value { names_lead text.now (name_cells states.now) 0 (name_cells states.now) ≡ true }
    ensures { result ≡ counted text.now (name_cells states.now) (record { off = 0; word = own.now } ∷ state_words v.now) }
{
    let n = count_names(states, text, v);
    let k = find_state(states, text, own, 0);
    let one = new_if(k < states.len(), own, v, 0);
    let refs = n.refs;
    let new = n.new;
    Names {
        own: k + 1,
        refs: refs + 1,
        new: one + new,
    }
}

// Of scxml, state, parallel, final and history; `drawn` names were generated before.
fn look_state(states: &[[u32; 24]], text: &[u8], event: &Indexed<'_>, drawn: u32) -> Names
    requires drawn_le_drawn { drawn ≤ limits01.drawn }
    requires states_value { names_lead text.now (name_cells states.now) 0 (name_cells states.now) ≡ true }
    ensures { result ≡ counted text.now (name_cells states.now) (state_names drawn (parsed_in event.now.src.now event.now.plain.now).values) }
{
    let initial = event.value(Key::Initial);
    if event.has(Key::Id) {
        return count_with(states, text, event.value(Key::Id), initial);
    }
    let mut made = [0u8; 24];
    let n = put_generated(&mut made, drawn + 1);
    count_with(states, text, &made[0..n], initial)
}

// Of no names. That it looks like `parts: no_part` is chance: the types have nothing in common.
fn none() -> Names
    ensures { result ≡ counted [] [] [] }
{
    Names {
        own: 0,
        refs: 0,
        new: 0,
    }
}

// `drawn` names were generated before.
pub fn look_names(states: &[[u32; 24]], text: &[u8], event: &Indexed<'_>, drawn: u32) -> Names
    requires drawn_le_drawn { drawn ≤ limits01.drawn }
    requires states_value { names_lead text.now (name_cells states.now) 0 (name_cells states.now) ≡ true }
    ensures { result ≡ names_in text.now (name_cells states.now) drawn (parsed_in event.now.src.now event.now.plain.now) }
{
    if event.plain.kind == Kind::End {
        return none();
    }
    if names_state(event.plain.tag.number()) {
        return look_state(states, text, event, drawn);
    }
    if event.plain.tag == Tag::Transition {
        return count_names(states, text, event.value(Key::Target));
    }
    none()
}

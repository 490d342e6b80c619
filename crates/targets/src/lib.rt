// The names that an event brings: rows of states for new ones, members for the targets. They are read from the text after the event: no list of references is kept.

#![tactic(auto)]

ghost use Rattle.std.specs.Prelude.{true, ◌≡◌, suc, ◌+◌, ◌^◌, ◌<◌, ◌≤◌, ◌∷◌, length, set, take};
ghost use Rattle.definition.specs.Text.{bytes_at};
ghost use Rattle.definition.specs.Rows.{cell_at};
ghost use Rattle.definition.specs.Look.{find_name, name_cells};
ghost use Rattle.definition.specs.Change.{state_row};
ghost use Rattle.definition.specs.Rules.{names_lead};
ghost use Rattle.fill.specs.Fill.{as_cell};
ghost use Rattle.targets.specs.Enter.{placed_row, count_after, member_row, Room, Entered};
ghost use Rattle.targets.specs.Names.{pieces_at, own_piece, pieces_in, skip_of, NameRoom, NamesWritten, InText, OwnIn, TargetsIn};

use definition::cells::{MemberColumn, StateColumn};
use definition::codes::{Key, Kind, ListKind, Tag};
use fill::TextCell;
use names::find_state;
use nesting::names_state;
use texts::key_cell;
use words::each::StateWords;

#[tactic(auto, using(crate::proofs::Laws::state_row_lem))]
fn put_state(states: &mut [[u32; 24]], i: usize, name: TextCell)
    requires { i < length states.old }
    ensures { states.new ≡ set states.old i (state_row (record { at = name.at; len = name.len })) }
{
    let mut row = [0u32; 24];
    row[StateColumn::NAME] = name.at;
    row[StateColumn::NAME_LENGTH] = name.len;
    states[i] = row;
}

// The list is a number, as the row gets it: C lends rows of numbers.
#[tactic(auto, using(crate::proofs::Laws::member_row_lem))]
fn put_member(members: &mut [[u32; 8]], i: usize, kind: u32, owner: u32, value: u32)
    requires { i < length members.old }
    ensures { members.new ≡ set members.old i (member_row kind owner value) }
{
    let mut row = [0u32; 8];
    row[MemberColumn::LIST] = kind;
    row[MemberColumn::OWNER] = owner;
    row[MemberColumn::VALUE] = value;
    members[i] = row;
}

// The place of the state whose name stands at `off`, from 0; a new name gets the next row. The search begins at the row `near`.
fn enter_name(
    states: &mut [[u32; 24]],
    count: usize,
    text: &[u8],
    off: usize,
    len: usize,
    near: usize,
) -> usize
    requires text_len_bound { length text.now ≤ 65535 }
    requires len_in_bounds { off + len ≤ length text.now }
    requires count_in_bounds { (count ≤ length states.old) × (count_after count (find_name text.now (name_cells (take count states.old)) (bytes_at text.now (record { off = off; len = len }))) ≤ length states.old) }
    requires states_value { names_lead text.now (name_cells (take count states.old)) 0 (name_cells (take count states.old)) ≡ true }
    ensures value { result ≡ find_name text.now (name_cells (take count states.old)) (bytes_at text.now (record { off = off; len = len })) }
    ensures states_after { states.new ≡ placed_row states.old count result (record { at = off + 1; len = len }) }
{
    let found = find_state(&states[..count], text, &text[off..off + len], near);
    if found < count {
        return found;
    }
    let name = TextCell {
        at: (off + 1) as u32,
        len: len as u32,
    };
    put_state(states, count, name);
    found
}

#[tactic(auto, using(crate::proofs::Laws::count_known, crate::proofs::Laws::count_new))]
fn count_after(count: usize, k: usize) -> usize
    requires { count < 2 ^ 32 }
    ensures { result ≡ count_after count k }
{
    if k < count { count } else { count + 1 }
}

// How many rows of each table are in use.
#[derive(Clone, Copy)]
pub struct Rows {
    pub states: usize,
    pub members: usize,
}

// The words of the value at `off` name states, in order, and are the targets of the transition `owner`.
fn enter_targets(
    states: &mut [[u32; 24]],
    members: &mut [[u32; 8]],
    text: &[u8],
    mut rows: Rows,
    off: usize,
    len: usize,
    owner: u32,
) -> Rows
    requires { Room states.old members.old text.now rows.states rows.members off len }
    ensures { Entered states.old members.old text.now rows.states rows.members off len owner states.new members.new result.states result.members }
{
    let v = &text[off..off + len];
    // Targets that are listed together are often neighbours.
    let mut near = 0;
    for found in (StateWords { v, at: 0 }) {
        let k = enter_name(
            states,
            rows.states,
            text,
            off + found.off,
            found.word.len(),
            near,
        );
        near = k + 1;
        let list = ListKind::Targets as u32;
        put_member(members, rows.members, list, owner, near as u32);
        rows.states = count_after(rows.states, k);
        rows.members += 1;
    }
    rows
}

// The words of one text name states, in order, and are the targets of the transition `owner`.
fn write_targets(
    states: &mut [[u32; 24]],
    members: &mut [[u32; 8]],
    text: &[u8],
    rows: Rows,
    c: TextCell,
    owner: u32,
) -> Rows
    requires name_room { NameRoom states.old members.old text.now rows.states rows.members 0 (pieces_at text.now (as_cell c)) }
    requires in_text { InText text.now (as_cell c) }
    ensures { NamesWritten states.old members.old text.now rows.states rows.members owner 0 (pieces_at text.now (as_cell c)) states.new members.new result.states result.members }
{
    if c.at == 0 {
        return rows;
    }
    enter_targets(
        states,
        members,
        text,
        rows,
        c.at as usize - 1,
        c.len as usize,
        owner,
    )
}

// An element's own name, then the states of its `initial` attribute.
fn write_state(
    states: &mut [[u32; 24]],
    members: &mut [[u32; 8]],
    text: &[u8],
    rows: Rows,
    t: &[u32],
    owner: u32,
) -> Rows
    requires name_room { NameRoom states.old members.old text.now rows.states rows.members 1 (own_piece text.now (cell_at t.now 2) ∷ pieces_at text.now (cell_at t.now 4)) }
    requires bound { ((1 ≤ (cell_at t.now 2).at) × ((cell_at t.now 2).at + (cell_at t.now 2).len ≤ suc (length text.now))) × InText text.now (cell_at t.now 4) }
    ensures { NamesWritten states.old members.old text.now rows.states rows.members owner 1 (own_piece text.now (cell_at t.now 2) ∷ pieces_at text.now (cell_at t.now 4)) states.new members.new result.states result.members }
{
    let own = key_cell(t, Key::Id as usize);
    let k = enter_name(
        states,
        rows.states,
        text,
        own.at as usize - 1,
        own.len as usize,
        0,
    );
    let after = Rows {
        states: count_after(rows.states, k),
        members: rows.members,
    };
    write_targets(
        states,
        members,
        text,
        after,
        key_cell(t, Key::Initial as usize),
        owner,
    )
}

/// The names that an event brings: rows of states, and members for targets. Kind and element are numbers, as they were: an enum on its own would ask more of a caller.
pub fn write_names(
    states: &mut [[u32; 24]],
    members: &mut [[u32; 8]],
    text: &[u8],
    count: usize,
    used: usize,
    t: &[u32],
    kind: u32,
    tag: u32,
    owner: u32,
) -> Rows
    requires name_room { NameRoom states.old members.old text.now count used (skip_of kind tag) (pieces_in kind tag text.now t.now) }
    requires own_in { OwnIn kind tag text.now t.now × TargetsIn text.now t.now }
    ensures { NamesWritten states.old members.old text.now count used owner (skip_of kind tag) (pieces_in kind tag text.now t.now) states.new members.new result.states result.members }
{
    let rows = Rows {
        states: count,
        members: used,
    };
    if kind == Kind::End as u32 {
        return rows;
    }
    if names_state(tag) {
        return write_state(states, members, text, rows, t, owner);
    }
    if tag == Tag::Transition as u32 {
        return write_targets(
            states,
            members,
            text,
            rows,
            key_cell(t, Key::Target as usize),
            owner,
        );
    }
    rows
}

// What is read of the tables for an event, as one value: the costly reads only for the elements that need them. Slices are the rows in use.

#![tactic(auto)]

ghost use Rattle.std.specs.Prelude.{◌≡◌, ◌&&◌, ◌||◌, not, ◌<◌, ◌≤◌, ◌^◌, length, get_or, eqb, nat_eq, position, ◌==◌};
ghost use Rattle.std.specs.List.{list_any};
ghost use Rattle.definition.specs.Codes.{kind_number, tag_number};
ghost use Rattle.definition.specs.Rows.{num, row_of};
ghost use Rattle.definition.specs.Actions.{last_with, place_of_number};
ghost use Rattle.plan.specs.Ids.{state_id, transition_id};
ghost use Rattle.plan.specs.Seen.{closes, closed_at, first_child_or};
ghost use Rattle.see.specs.Scans.{walk_over, is_child_in, IsLast, IsNext};
ghost use Rattle.see.specs.Masked.{is_start, is_both, is_childish, number_if, walked_if, closing_if, does_close, is_else, is_part, is_invoked};
ghost use Rattle.see.specs.View.{walk_after, default_for, family_of, inside_of, seen_by, Short};

use definition::cells::{
    EntryColumn, InvokeColumn, MemberColumn, OpenColumn, OpenRegionColumn, StateColumn,
};
use definition::codes::{EntryKind, Kind, ListKind, Tag};
use definition::{Position, RegionId, StateId, TransitionId};
use opens::Open;
use plan::{Closing, Element, Seen, Walked};
use rows::lent::Tables;
use rows::{root_of, row_of, state_cell, transition_place};

/// The record of the innermost open element.
#[tactic(auto, using(crate::proofs::Cells::inside_none, crate::proofs::Cells::inside_some))]
fn inside(opened: &[[u32; 8]]) -> Open
    ensures { result ≡ inside_of opened.now }
{
    match opened.last() {
        Some(row) => opens::opened(
            StateId(row[OpenColumn::STATE]),
            TransitionId(row[OpenColumn::TRANSITION]),
            row[OpenColumn::TAG],
        ),
        None => opens::outside(),
    }
}

/// What an entry is; 0 where there is no such row.
#[tactic(auto, using(rows::proofs::Laws::row_some, rows::proofs::Laws::row_none))]
fn entry_kind(entries: &[[u32; 48]], e: u32) -> u32
    ensures { result ≡ num (row_of entries.now e) 1 }
{
    match row_of(entries, e) {
        Some(row) => row[EntryColumn::KIND],
        None => 0,
    }
}

#[tactic(auto, unfolding(crate::specs::Masked::is_else))]
fn is_else(tag: Tag) -> bool
    ensures { result ≡ is_else (tag_number tag) }
{
    matches!(tag, Tag::Else | Tag::Elseif)
}

/// else and elseif close their if; an element that ends closes its own region.
#[tactic(auto, unfolding(plan::specs::Seen::closes, crate::specs::Masked::is_else))]
fn closes(tag: Tag) -> Tag
    ensures { tag_number result ≡ closes (tag_number tag) }
{
    if is_else(tag) { Tag::If } else { tag }
}

/// What the element closes, of these open regions. It calls itself for the region around.
#[tactic(auto, using(crate::proofs::Scans::close_none, crate::proofs::Scans::close_all, crate::proofs::Scans::close_here, crate::proofs::Scans::close_outer))]
fn close_region(tag: Tag, open_regions: &[[u32; 8]], current: RegionId) -> Option<Closing>
    requires { length open_regions.now < 2 ^ 32 }
    ensures { result ≡ closed_at (tag_number tag) open_regions.now (length open_regions.now) current.0 }
{
    if current.0 == 0 {
        return None;
    }
    let Some((row, around)) = open_regions.split_last() else {
        return Some(Closing {
            current: RegionId(0),
            kept: 0,
        });
    };
    let outer = RegionId(row[OpenRegionColumn::REGION]);
    if row[OpenRegionColumn::TAG] == tag.number() {
        return Some(Closing {
            current: outer,
            kept: around.len() as u32,
        });
    }
    close_region(tag, around, outer)
}

/// Whether an event closes a region.
#[tactic(auto, unfolding(crate::specs::Masked::does_close, crate::specs::Masked::is_open, crate::specs::Masked::is_else, crate::specs::Masked::closes_own))]
fn does_close(kind: Kind, tag: Tag) -> bool
    ensures { result ≡ does_close (kind_number kind) (tag_number tag) }
{
    // For the speed no `matches!`: the compiler makes one test of bits of a chain, and a tree of comparisons of that.
    let own = tag == Tag::Finalize
        || tag == Tag::Transition
        || tag == Tag::Onentry
        || tag == Tag::Onexit
        || tag == Tag::If
        || tag == Tag::Foreach;
    is_else(tag) || (kind != Kind::Open && own)
}

/// For else and elseif, and where an element with a region of its own ends: what it closes.
#[tactic(auto, unfolding(crate::specs::Masked::closing_if))]
fn closing_for(element: Element, open_regions: &[[u32; 8]], current: RegionId) -> Option<Closing>
    requires { length open_regions.now < 2 ^ 32 }
    ensures { result ≡ closing_if (does_close (kind_number element.kind) (tag_number element.tag)) (closed_at (closes (tag_number element.tag)) open_regions.now (length open_regions.now) current.0) }
{
    if does_close(element.kind, element.tag) {
        return close_region(closes(element.tag), open_regions, current);
    }
    None
}

// The last row with v in a column. From the end: it is near.
fn last_row<const N: usize>(rows: &[[u32; N]], c: usize, v: u32) -> Option<usize>
    requires { c < N }
    ensures { IsLast c v rows.now result }
{
    rows.iter().rposition(
        |row| -> bool
            requires { c < N }
            ensures { result ≡ nat_eq (get_or row.now c 0) v }
        { row[c] == v },
    )
}

// Its number, from 1; 0 where there is none.
#[tactic(auto, using(crate::proofs::Scans::last_told))]
fn last_number<const N: usize>(rows: &[[u32; N]], c: usize, v: u32) -> u32
    requires { (c < N) × (length rows.now < 2 ^ 32) }
    ensures { result ≡ last_with c v 0 0 rows.now }
{
    match last_row(rows, c, v) {
        Some(i) => i as u32 + 1,
        None => 0,
    }
}

/// The last entry of a region, from 1; 0 where there is none.
fn last_entry(entries: &[[u32; 48]], region: RegionId) -> u32
    requires { length entries.now < 2 ^ 32 }
    ensures { result ≡ last_with 0 region.0 0 0 entries.now }
{
    last_number(entries, EntryColumn::REGION, region.0)
}

/// The else walk: from a region's last entry through else numbers to the first if without one, in at most so many steps.
#[tactic(auto, using(crate::proofs::Scans::walk_other, crate::proofs::Scans::walk_met, crate::proofs::Scans::walk_on, crate::proofs::Scans::walk_out, rows::proofs::Laws::row_some, rows::proofs::Laws::row_none))]
fn else_walk(entries: &[[u32; 48]], steps: u32, region: RegionId) -> Walked
    requires { length entries.now < 2 ^ 32 }
    ensures { result ≡ walk_over steps entries.now region.0 }
{
    let mut at = region;
    for _step in 0..steps {
        let e = last_entry(entries, at);
        let Some(row) = row_of(entries, e) else {
            return Walked::NoIf;
        };
        if row[EntryColumn::KIND] != EntryKind::If.number() {
            return Walked::NoIf;
        }
        if row[EntryColumn::ELSE] == 0 {
            return Walked::Met(e);
        }
        at = RegionId(row[EntryColumn::ELSE]);
    }
    Walked::NoIf
}

// How many rows are looked at before the next test for the end: the compiler writes them out. Tried without blocks, as one chain over all rows: 1.7 times the time.
const BLOCK: usize = 8;

/// The first row from `from` on that has v in a column.
#[tactic(auto, using(crate::proofs::Nexts::found_some, crate::proofs::Nexts::found_none, crate::proofs::Nexts::block_past))]
fn next_with(members: &[[u32; 8]], c: usize, v: u32, from: usize) -> Option<usize>
    requires { (c < 8) × (from ≤ length members.now) }
    ensures { IsNext c v from members.now result }
{
    let mut i = from;
    // For speed whole blocks are passed over first.
    while BLOCK <= members.len() - i && !has(&members[i..i + BLOCK], c, v) {
        i += BLOCK;
    }
    let j = position_of(&members[i..], c, v)?;
    Some(i + j)
}

// The same walk twice, for a yes and for a place: `any` over a block has no early end, which is what makes it fast.
fn has(members: &[[u32; 8]], c: usize, v: u32) -> bool
    requires { c < 8 }
    ensures { result ≡ list_any (λ row. num row c == v) members.now }
{
    members.iter().any(|row| row[c] == v)
}

fn position_of(members: &[[u32; 8]], c: usize, v: u32) -> Option<usize>
    requires { c < 8 }
    ensures { result ≡ position (λ row. num row c == v) members.now }
{
    members.iter().position(|row| row[c] == v)
}

/// The first child of a state; d where it has none.
fn first_child(members: &[[u32; 8]], d: u32, s: StateId) -> u32
    ensures { result ≡ first_child_or d s.0 members.now }
{
    let mut from = 0;
    while let Some(i) = next_with(members, MemberColumn::OWNER, s.0, from) {
        if members[i][MemberColumn::LIST] == ListKind::Children.number() {
            return members[i][MemberColumn::VALUE];
        }
        from = i + 1;
    }
    d
}

/// Whether s is a child of p.
fn is_child(members: &[[u32; 8]], p: StateId, s: StateId) -> bool
    ensures { result ≡ is_child_in p.0 s.0 members.now }
{
    let mut from = 0;
    while let Some(i) = next_with(members, MemberColumn::VALUE, s.0, from) {
        if members[i][MemberColumn::LIST] == ListKind::Children.number()
            && members[i][MemberColumn::OWNER] == p.0
        {
            return true;
        }
        from = i + 1;
    }
    false
}

/// For else and elseif: the walk from the region that is current after the if's is closed.
#[tactic(auto, unfolding(crate::specs::Masked::walked_if, crate::specs::Masked::is_else, crate::specs::View::walk_after, crate::specs::View::walk_at))]
fn walk_for(tag: Tag, entries: &[[u32; 48]], steps: u32, closed: Option<Closing>) -> Walked
    requires { length entries.now < 2 ^ 32 }
    ensures { result ≡ walked_if (is_else (tag_number tag)) (walk_after closed steps entries.now) }
{
    if !is_else(tag) {
        return Walked::NoIf;
    }
    let Some(x) = closed else {
        return Walked::NoIf;
    };
    if x.current.0 == 0 {
        return Walked::Nowhere;
    }
    else_walk(entries, steps, x.current)
}

/// For param and content: the send's entry.
#[tactic(auto, unfolding(crate::specs::Masked::number_if, crate::specs::Masked::is_part))]
fn entry_for(tag: Tag, entries: &[[u32; 48]], region: RegionId) -> u32
    requires { length entries.now < 2 ^ 32 }
    ensures { result ≡ number_if (is_part (tag_number tag)) (last_with 0 region.0 0 0 entries.now) }
{
    match tag {
        Tag::Param | Tag::Content => last_entry(entries, region),
        _ => 0,
    }
}

/// For finalize, param and content: the invoke, the last of the state.
#[tactic(auto, unfolding(crate::specs::Masked::number_if, crate::specs::Masked::is_invoked))]
fn invoke_for(tag: Tag, invokes: &[[u32; 24]], state: StateId) -> u32
    requires { length invokes.now < 2 ^ 32 }
    ensures { result ≡ number_if (is_invoked (tag_number tag)) (last_with 0 state.0 0 0 invokes.now) }
{
    match tag {
        Tag::Finalize | Tag::Param | Tag::Content => {
            last_number(invokes, InvokeColumn::STATE, state.0)
        }
        _ => 0,
    }
}

/// Whether an event ends this element.
#[tactic(auto, unfolding(crate::specs::Masked::is_start))]
fn does_end(element: Element, tag: Tag) -> bool
    ensures { result ≡ (not (is_start (kind_number element.kind)) && eqb (tag_number element.tag) (tag_number tag)) }
{
    element.kind == Kind::End && element.tag == tag
}

/// Whether an event begins and ends the chart or a state.
#[tactic(auto, unfolding(crate::specs::Masked::is_both))]
fn is_whole(element: Element) -> bool
    ensures { result ≡ (is_both (kind_number element.kind) && (eqb (tag_number element.tag) 1 || eqb (tag_number element.tag) 2)) }
{
    matches!(element.kind, Kind::Empty | Kind::Whole)
        && matches!(element.tag, Tag::Scxml | Tag::State)
}

/// Whether an event begins a child of a state.
#[tactic(auto, unfolding(crate::specs::Masked::is_start, crate::specs::Masked::is_childish))]
fn begins_child(element: Element) -> bool
    ensures { result ≡ (is_start (kind_number element.kind) && is_childish (tag_number element.tag)) }
{
    element.kind != Kind::End && matches!(element.tag, Tag::State | Tag::Parallel | Tag::Final)
}

/// For a transition that ends: its place.
#[tactic(auto, using(definition::proofs::Changes::place_le), unfolding(crate::specs::Masked::number_if, crate::specs::Masked::is_start))]
fn place_for(element: Element, transitions: &[[u32; 8]], t: TransitionId) -> u32
    requires { length transitions.now < 2 ^ 32 }
    ensures { result ≡ number_if (not (is_start (kind_number element.kind)) && eqb (tag_number element.tag) 16) (place_of_number transitions.now t.0) }
{
    if does_end(element, Tag::Transition) {
        return transition_place(transitions, t) as u32;
    }
    0
}

/// A first child, where it is asked for.
#[tactic(auto, unfolding(crate::specs::Masked::number_if))]
fn first_if(asked: bool, members: &[[u32; 8]], d: u32, s: StateId) -> StateId
    ensures { result ≡ state_id (number_if asked (first_child_or d s.0 members.now)) }
{
    StateId(if asked { first_child(members, d, s) } else { 0 })
}

/// A state that begins in itself is its own first child, unless it is a child already.
#[tactic(auto, unfolding(crate::specs::View::default_for, crate::specs::View::new_first))]
fn default_for(tag: Tag, joined: bool, p: StateId, s: StateId) -> u32
    ensures { result ≡ default_for (tag_number tag) joined p.0 s.0 }
{
    if tag == Tag::State && !joined && p.0 == s.0 {
        return p.0;
    }
    0
}

/// Children: of the current state, of the root, and of the state that begins. Each is a read of all members, so an event asks only for what its plan goes by.
#[derive(Clone, Copy)]
pub struct Family {
    pub first: StateId,
    pub child: StateId,
    pub joined: bool,
    pub eldest: StateId,
}

#[tactic(auto, unfolding(crate::specs::View::family_of, crate::specs::Masked::is_start, crate::specs::Masked::is_both, crate::specs::Masked::is_childish, crate::specs::Masked::bool_if))]
fn kin_of(
    element: Element,
    members: &[[u32; 8]],
    state: StateId,
    root: StateId,
    own: StateId,
) -> Family
    ensures { result ≡ family_of (kind_number element.kind) (tag_number element.tag) members.now state.0 root.0 own.0 }
{
    let joined = begins_child(element) && is_child(members, state, own);
    let d = default_for(element.tag, joined, state, own);
    Family {
        first: first_if(does_end(element, Tag::State), members, 0, state),
        child: first_if(does_end(element, Tag::Scxml), members, 0, root),
        joined,
        eldest: first_if(is_whole(element), members, d, own),
    }
}

/// The initial transition of a state.
fn initial_of(states: &[[u32; 24]], s: StateId) -> TransitionId
    ensures { result ≡ transition_id (num (row_of states.now s.0) 3) }
{
    TransitionId(state_cell(states, s, StateColumn::INITIAL))
}

/// All that is seen for an event's element that names the state own.
#[tactic(auto, unfolding(crate::specs::View::seen_by, crate::specs::View::inside_of))]
fn seen_for(element: Element, own: StateId, position: Position, used: Tables<'_>) -> Seen
    requires { Short used.transitions.now used.entries.now used.invokes.now used.open_regions.now }
    ensures { result ≡ seen_by (kind_number element.kind) (tag_number element.tag) own.0 position used.entry.chart.now used.entry.states.now used.entry.transitions.now used.entry.entries.now used.entry.invokes.now used.entry.members.now used.entry.opened.now used.entry.open_regions.now }
{
    let around = inside(used.opened);
    let root = StateId(root_of(used.chart));
    let closed = closing_for(element, used.open_regions, position.current);
    let entry = entry_for(element.tag, used.entries, position.current);
    let kin = kin_of(element, used.members, around.state, root, own);
    Seen {
        state: around.state,
        transition: around.transition,
        parent: around.tag,
        current: position.current,
        ids: position.ids,
        docs: position.docs,
        regions: position.open_regions,
        entries: position.entries,
        invokes: position.invokes,
        datums: position.datums,
        parameters: position.parameters,
        closed,
        walk: walk_for(element.tag, used.entries, position.regions, closed),
        entry,
        kind: entry_kind(used.entries, entry),
        invoke: invoke_for(element.tag, used.invokes, around.state),
        place: place_for(element, used.transitions, around.transition),
        initial: initial_of(used.states, around.state),
        donedata: state_cell(used.states, around.state, StateColumn::DONEDATA),
        first: kin.first,
        root,
        begins: initial_of(used.states, root),
        child: kin.child,
        joined: kin.joined,
        own: initial_of(used.states, own),
        eldest: kin.eldest,
    }
}

/// All that is seen for an event, by its numbers, and an element that names the state own: a kind past the last is an end, an element past the last is unknown. The
/// tables are the rows in use.
#[tactic(auto, using(crate::proofs::Elements::seen_counted))]
pub fn see(kind: u32, tag: u32, own: StateId, position: Position, used: Tables<'_>) -> Seen
    requires { Short used.transitions.now used.entries.now used.invokes.now used.open_regions.now }
    ensures { result ≡ seen_by kind tag own.0 position used.entry.chart.now used.entry.states.now used.entry.transitions.now used.entry.entries.now used.entry.invokes.now used.entry.members.now used.entry.opened.now used.entry.open_regions.now }
{
    seen_for(Element::of(kind, tag), own, position, used)
}

// The text columns of a row, filled as the element's shape says from the event's texts.

#![tactic(auto)]

ghost use Rattle.std.specs.Prelude.{◌≡◌, ◌<◌, get_or, drop, map};
ghost use Rattle.definition.specs.Codes.{tag_number};
ghost use Rattle.definition.specs.Rows.{cell_at, with_cell};
ghost use Rattle.plan.specs.Ids.{shape_number};
ghost use Rattle.fill.specs.Fill.{fills, start_of, as_cell, cell_by, take_number, as_list, shape_from, fill_all, shaped_by};

use definition::codes::Tag;
use plan::Shape;
use rows::put;

/// What an element fills rows with: the event's texts, two numbers a key.
#[derive(Clone, Copy)]
pub struct Texts<'a> {
    pub tag: Tag,
    pub cells: &'a [u32],
}

/// A text in the arena: one more than its place, and its length; 0 and 0 where there is none.
#[derive(Clone, Copy)]
pub struct TextCell {
    pub at: u32,
    pub len: u32,
}

impl TextCell {
    pub const NONE: TextCell = TextCell { at: 0, len: 0 };
}

// How a text is taken into a row: as it is; none where it has no bytes; only where there is one.
#[derive(Clone, Copy)]
enum Take {
    Always,
    UnlessEmpty,
    IfThere,
}

// A column of a row, where among the event's texts its text is, and how that is taken.
#[derive(Clone, Copy)]
struct Filling(u8, u8, Take);

// The shapes, by element.
const SCXML: [Filling; 3] = [
    Filling(3, 6, Take::IfThere),
    Filling(5, 8, Take::IfThere),
    Filling(7, 12, Take::IfThere),
];

const INVOKE: [Filling; 6] = [
    Filling(4, 14, Take::Always),
    Filling(6, 16, Take::Always),
    Filling(8, 18, Take::Always),
    Filling(10, 20, Take::Always),
    Filling(12, 2, Take::UnlessEmpty),
    Filling(14, 22, Take::UnlessEmpty),
];

const DATA: [Filling; 3] = [
    Filling(1, 2, Take::Always),
    Filling(3, 38, Take::Always),
    Filling(5, 0, Take::Always),
];

const DATA_TEXT: [Filling; 3] = [
    Filling(1, 2, Take::Always),
    Filling(3, 0, Take::Always),
    Filling(5, 62, Take::Always),
];

const DONEDATA: [Filling; 2] = [Filling(10, 0, Take::Always), Filling(12, 0, Take::Always)];

const ELSEIF: [Filling; 1] = [Filling(6, 32, Take::Always)];

const PARAM: [Filling; 3] = [
    Filling(2, 6, Take::Always),
    Filling(4, 38, Take::UnlessEmpty),
    Filling(6, 54, Take::UnlessEmpty),
];

const CONTENT_IN_ENTRY: [Filling; 2] = [
    Filling(42, 58, Take::Always),
    Filling(10, 38, Take::Always),
];

const CONTENT_IN_INVOKE: [Filling; 2] = [
    Filling(16, 58, Take::Always),
    Filling(18, 38, Take::Always),
];

const CONTENT_IN_STATE: [Filling; 2] = [
    Filling(10, 58, Take::Always),
    Filling(12, 38, Take::Always),
];

const TRANSITION: [Filling; 1] = [Filling(6, 32, Take::Always)];

const SEND: [Filling; 9] = [
    Filling(12, 28, Take::Always),
    Filling(14, 30, Take::Always),
    Filling(16, 34, Take::Always),
    Filling(18, 36, Take::Always),
    Filling(20, 14, Take::Always),
    Filling(22, 16, Take::Always),
    Filling(24, 2, Take::UnlessEmpty),
    Filling(26, 22, Take::UnlessEmpty),
    Filling(28, 52, Take::Always),
];

const RAISE: [Filling; 1] = [Filling(12, 28, Take::Always)];

const CANCEL: [Filling; 2] = [
    Filling(30, 46, Take::UnlessEmpty),
    Filling(32, 48, Take::Always),
];

const LOG: [Filling; 2] = [
    Filling(36, 56, Take::UnlessEmpty),
    Filling(10, 38, Take::Always),
];

const ASSIGN: [Filling; 2] = [Filling(34, 54, Take::Always), Filling(10, 38, Take::Always)];

const ASSIGN_TEXT: [Filling; 2] = [Filling(34, 54, Take::Always), Filling(42, 60, Take::Always)];

const IF: [Filling; 1] = [Filling(6, 32, Take::Always)];

const FOREACH: [Filling; 3] = [
    Filling(8, 40, Take::Always),
    Filling(38, 42, Take::Always),
    Filling(40, 44, Take::UnlessEmpty),
];

const SCRIPT: [Filling; 1] = [Filling(42, 62, Take::Always)];

// The columns that an element fills, in its first shape. One match on element and shape was tried: the proof of its last arm does not close.
#[tactic(auto, unfolding(crate::specs::Fill::shape_from, crate::specs::Fill::start_of, crate::specs::Fill::starts, crate::specs::Fill::fills))]
fn first(tag: Tag) -> &'static [Filling]
    ensures { map as_list result.now ≡ shape_from (drop (start_of (tag_number tag) 0) fills) }
{
    match tag {
        Tag::Scxml => &SCXML,
        Tag::Invoke => &INVOKE,
        Tag::Data => &DATA,
        Tag::Donedata => &DONEDATA,
        Tag::Elseif => &ELSEIF,
        Tag::Param => &PARAM,
        Tag::Content => &CONTENT_IN_ENTRY,
        Tag::Transition => &TRANSITION,
        Tag::Send => &SEND,
        Tag::Raise => &RAISE,
        Tag::Cancel => &CANCEL,
        Tag::Log => &LOG,
        Tag::Assign => &ASSIGN,
        Tag::If => &IF,
        Tag::Foreach => &FOREACH,
        Tag::Script => &SCRIPT,
        _ => &[],
    }
}

// In its second.
#[tactic(auto, unfolding(crate::specs::Fill::shape_from, crate::specs::Fill::start_of, crate::specs::Fill::starts, crate::specs::Fill::fills))]
fn second(tag: Tag) -> &'static [Filling]
    ensures { map as_list result.now ≡ shape_from (drop (start_of (tag_number tag) 1) fills) }
{
    match tag {
        Tag::Data => &DATA_TEXT,
        Tag::Content => &CONTENT_IN_INVOKE,
        Tag::Assign => &ASSIGN_TEXT,
        _ => &[],
    }
}

// In its third.
#[tactic(auto, unfolding(crate::specs::Fill::shape_from, crate::specs::Fill::start_of, crate::specs::Fill::starts, crate::specs::Fill::fills))]
fn third(tag: Tag) -> &'static [Filling]
    ensures { map as_list result.now ≡ shape_from (drop (start_of (tag_number tag) 2) fills) }
{
    match tag {
        Tag::Content => &CONTENT_IN_STATE,
        _ => &[],
    }
}

fn fillings(tag: Tag, shape: Shape) -> &'static [Filling]
    ensures { map as_list result.now ≡ shape_from (drop (start_of (tag_number tag) (shape_number shape)) fills) }
{
    match shape {
        Shape::First => first(tag),
        Shape::Second => second(tag),
        Shape::Third => third(tag),
    }
}

fn get(t: &[u32], i: usize) -> u32
    ensures { result ≡ get_or t.now i 0 }
{
    t.get(i).copied().unwrap_or(0)
}

/// The text at a place of a row or of the texts.
#[tactic(auto, unfolding(crate::specs::Fill::as_cell, crate::specs::Fill::cell, definition::specs::Rows::cell_at))]
pub fn cell_in(t: &[u32], i: usize) -> TextCell
    requires { i < 65536 }
    ensures { as_cell result ≡ cell_at t.now i }
{
    TextCell {
        at: get(t, i),
        len: get(t, i + 1),
    }
}

/// The same, written.
#[tactic(auto, unfolding(crate::specs::Fill::as_cell, crate::specs::Fill::cell, definition::specs::Rows::with_cell))]
pub fn put_cell(t: &mut [u32], i: usize, c: TextCell)
    requires { i < 65536 }
    ensures { t.new ≡ with_cell i (as_cell c) t.old }
{
    put(t, i, c.at);
    put(t, i + 1, c.len);
}

#[tactic(auto, unfolding(crate::specs::Fill::as_cell, crate::specs::Fill::cell, crate::specs::Fill::cell_by, definition::specs::Change::if_filled, definition::specs::Rows::no_cell))]
fn taken(take: Take, old: TextCell, new: TextCell) -> TextCell
    ensures { as_cell result ≡ cell_by (take_number take) (as_cell old) (as_cell new) }
{
    match take {
        Take::UnlessEmpty if new.len == 0 => TextCell::NONE,
        Take::IfThere if new.at == 0 => old,
        _ => new,
    }
}

// The fillings of a shape, in order.
fn fill_all(row: &mut [u32], shape: &[Filling], t: &[u32])
    ensures { row.new ≡ fill_all t.now (map as_list shape.now) row.old }
{
    for &Filling(column, place, take) in shape {
        let column = usize::from(column);
        let cell = taken(take, cell_in(row, column), cell_in(t, usize::from(place)));
        put_cell(row, column, cell);
    }
}

impl Texts<'_> {
    /// The row with the texts of a shape.
    #[tactic(auto, unfolding(crate::specs::Fill::shaped_by), using(crate::proofs::Laws::from_shape))]
    pub fn fill(self, row: &mut [u32], shape: Shape)
        ensures { row.new ≡ shaped_by self.entry.cells.now (tag_number self.entry.tag) (shape_number shape) row.old }
    {
        fill_all(row, fillings(self.tag, shape), self.cells);
    }
}

// A whole plan written: one call a table.

#![tactic(auto)]

ghost use Rattle.std.specs.Prelude.{◌≡◌, ◌<◌, ◌≤◌, length};
ghost use Rattle.definition.specs.Codes.{kind_number, tag_number};
ghost use Rattle.definition.specs.Look.{kept_name, name_row};
ghost use Rattle.plan.specs.After.{move_of};
ghost use Rattle.rows.specs.Lent.{lent_of, SameLoans};
ghost use Rattle.tables.specs.Whole.{opens, open_names_in};
ghost use Rattle.apply.specs.Applied.{applied_to};

use charts::{change_chart, change_states, change_transitions};
use definition::Position;
use definition::codes::{Kind, Tag};
use entries::{change_datums, change_entries, change_invokes, change_parameters};
use fill::Texts;
use payload::put_bytes;
use plan::{Element, Plan};
use rows::lent::Lent;
use rows::put;
use tables::{OpenedName, add_two, change_open_regions, change_opened, change_regions};

#[tactic(auto, unfolding(tables::specs::Whole::open_names_in, tables::specs::Whole::added_in))]
fn change_open_names(names: &mut [[u8; 64]], n: usize, name: &Option<OpenedName>)
    ensures { names.new ≡ open_names_in name.now n names.old }
{
    if let Some(name) = name {
        put(names, n, name.row);
    }
}

/// A name as the open elements keep it: a known one by its tag alone. The tag is a number, as it was: an enum on its own would ask more of a caller.
#[tactic(auto, using(crate::proofs::Laws::name_known, crate::proofs::Laws::name_unknown))]
pub fn name_row(tag: u32, name: &[u8]) -> [u8; 64]
    requires { length name.now ≤ 64 }
    ensures { result ≡ name_row (kept_name tag name.now) }
{
    let mut row = [0u8; 64];
    if tag != 0 {
        return row;
    }
    put_bytes(&mut row, 0, name);
    row
}

// A known element is kept by its number alone.
#[tactic(auto, unfolding(definition::specs::Look::kept_name))]
fn kept_length(tag: Tag, name: &[u8]) -> u32
    requires { length name.now ≤ 64 }
    ensures { result ≡ length (kept_name (tag_number tag) name.now) }
{
    match tag {
        Tag::Unknown => name.len() as u32,
        _ => 0,
    }
}

/// The own name of an element that opens; none where none does.
#[tactic(auto, unfolding(tables::specs::Whole::opens, plan::specs::After::move_of))]
pub fn opened_name(element: Element, name: &[u8]) -> Option<OpenedName>
    requires { length name.now ≤ 64 }
    ensures { result ≡ opens (move_of (kind_number element.kind)) (length (kept_name (tag_number element.tag) name.now)) (name_row (kept_name (tag_number element.tag) name.now)) }
{
    if element.kind != Kind::Open {
        return None;
    }
    Some(OpenedName {
        length: kept_length(element.tag, name),
        row: name_row(element.tag.number(), name),
    })
}

/// n: the reading position, with the members as they are after the event's words and targets; opened: the element's own name, where it opens.
#[tactic(auto, unfolding(crate::specs::Applied::applied_in))]
pub fn apply(
    lent: &mut Lent<'_>,
    texts: Texts<'_>,
    opened: Option<OpenedName>,
    n: Position,
    p: &Plan,
)
    requires { ((n.regions < 65536) × (n.members < 65536)) × (p.now.pending.kept < 65536) }
    ensures written { lent_of lent.new ≡ applied_to texts.entry.cells.now (tag_number texts.entry.tag) opened n p.now lent.old }
    ensures loans { SameLoans lent.old lent.new }
{
    change_chart(lent.chart, &p.chart, texts);
    change_states(lent.states, &p.states, texts);
    change_transitions(
        lent.transitions,
        n.transitions as usize,
        &p.transitions,
        texts,
    );
    change_regions(lent.regions, n.regions as usize, &p.regions);
    change_entries(lent.entries, n.entries as usize, &p.entries, texts);
    change_invokes(lent.invokes, n.invokes as usize, &p.invokes, texts);
    change_datums(lent.datums, n.datums as usize, &p.datums, texts);
    change_parameters(lent.parameters, n.parameters as usize, &p.parameters, texts);
    add_two(
        lent.members,
        n.members as usize,
        &p.members.one,
        &p.members.two,
    );
    change_opened(
        lent.opened,
        n.opened as usize,
        texts.tag.number(),
        p.opened,
        &opened,
    );
    change_open_names(lent.open_names, n.opened as usize, &opened);
    change_open_regions(lent.open_regions, &p.pending);
}

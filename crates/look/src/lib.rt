// Stage 1: all that is read of an event's text and of the tables by name. The slices are the parts in use.

#![tactic(auto)]

ghost use Rattle.std.specs.Prelude.{◌≡◌, true, [], ◌<◌, ◌≤◌, length};
ghost use Rattle.definition.specs.Limits.{limits01};
ghost use Rattle.definition.specs.Rows.{num, last_of};
ghost use Rattle.definition.specs.Look.{name_cells};
ghost use Rattle.definition.specs.Rules.{names_lead};
ghost use Rattle.plain.specs.Plain.{parsed_in};
ghost use Rattle.look.specs.Looked.{as_told, looked_in};

use asked::{Place, first_no};
use definition::cells::OpenColumn;
use definition::codes::Refusal;
use definition::{Position, StateId};
use found::{found, is_innermost};
use heard::heard;
use names::look_names;
use payload::{charge, is_made};
use plain::{Keyed, Plain, bytes_of, index};
use plan::Heard;
use rows::lent::Tables;
use rows::root_of;

/// asked: the first no of the questions 5 to 12. refs, new: how many names the event brings, the element's own included, and how many of them are new.
/// made: whether a name is generated.
#[derive(Clone, Copy)]
pub struct Looked {
    pub asked: Result<(), Refusal>,
    pub heard: Heard,
    pub refs: usize,
    pub new: usize,
    pub made: bool,
    pub charge: usize,
}

// A cell of the innermost open element; 0 where nothing is open.
fn inside(opened: &[[u32; 8]], c: usize) -> u32
    requires { c < 8 }
    ensures { result ≡ num (last_of [] opened.now) c }
{
    match opened.last() {
        Some(row) => row[c],
        None => 0,
    }
}

/// Of the rows in use.
pub fn look(used: Tables<'_>, src: &[u8], p: &Plain, position: Position) -> Looked
    requires states_len_bound { (length used.states.now ≤ limits01.states) × (length used.datums.now ≤ limits01.datums) }
    requires names_le_drawn { position.names ≤ limits01.drawn }
    requires states_value { names_lead used.text.now (name_cells used.states.now) 0 (name_cells used.states.now) ≡ true }
    ensures { as_told result ≡ looked_in used.entry.chart.now used.entry.states.now used.entry.datums.now used.entry.opened.now used.entry.open_names.now used.entry.text.now position (parsed_in src.now p.now) }
{
    let mut keys = Keyed::none();
    let event = index(src, p, &mut keys);
    let names = look_names(used.states, used.text, &event, position.names);
    let row = found(
        used.datums,
        used.text,
        inside(used.opened, OpenColumn::STATE),
        &event,
    );
    let heard = heard(&event, StateId(names.own as u32), row as u32);
    let parent = inside(used.opened, OpenColumn::TAG);
    let root = root_of(used.chart);
    let place = Place {
        innermost: is_innermost(
            used.opened,
            used.open_names,
            event.plain.tag.number(),
            bytes_of(event.src, event.plain.name),
        ),
        depth: position.opened,
        parent,
        root,
    };
    let made = is_made(&event);
    Looked {
        asked: first_no(&event, heard, place),
        heard,
        refs: names.refs,
        new: names.new,
        made,
        charge: charge(&event, made, position.names),
    }
}

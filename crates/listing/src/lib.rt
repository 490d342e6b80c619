// A chart as the program `chartlist` prints it, put into a lent buffer. What does not fit is left out.

#![tactic(auto)]

ghost use Rattle.std.specs.Prelude.{◌≡◌, ◌≤◌, ◌<◌, length, take};
ghost use Rattle.definition.specs.Text.{str, decimal};
ghost use Rattle.printing.specs.Lines.{line};
ghost use Rattle.printing.specs.Put.{Put};
ghost use Rattle.listing.specs.Listing.{state_lines, states_from, type_word, transition_lines, transitions_from, listing, refusal};

use definition::Position;
use definition::cells::{StateColumn, TransitionColumn};
use definition::codes::ListKind;
use printing::page::Page;
use rows::lent::Tables;
use rows::{root_of, text_from};

fn put_cell_line(page: &mut Page<'_>, head: &[u8], n: u32)
    ensures { Put page.old page.new (line head.now (decimal n)) }
{
    page.put_number_line(head, u64::from(n));
}

fn put_state(page: &mut Page<'_>, text: &[u8], members: &[[u32; 8]], n: u32, row: [u32; 24])
    ensures { Put page.old page.new (state_lines text.now members.now n row) }
{
    let name = text_from(text, row[StateColumn::NAME], row[StateColumn::NAME_LENGTH]);
    put_cell_line(page, b"state=", n);
    page.put_name_line(b"name=", name);
    put_cell_line(page, b"parent=", row[StateColumn::PARENT]);
    put_cell_line(page, b"initial=", row[StateColumn::INITIAL]);
    put_cell_line(page, b"doc=", row[StateColumn::DOC]);
    page.put_list_line(b"children=", members, ListKind::Children as u32, n);
}

fn put_states(page: &mut Page<'_>, text: &[u8], members: &[[u32; 8]], states: &[[u32; 24]])
    requires states_len_bound { length states.now < 4294967296 }
    ensures { Put page.old page.new (states_from text.now members.now 1 states.now) }
{
    for (i, row) in states.iter().enumerate() {
        put_state(page, text, members, i as u32 + 1, *row);
    }
}

fn put_type_line(page: &mut Page<'_>, t: u32)
    ensures { Put page.old page.new (line (str "type=") (type_word t)) }
{
    if t == 1 {
        return page.put_bytes(b"type=internal\n");
    }
    page.put_bytes(b"type=external\n");
}

fn put_transition(page: &mut Page<'_>, members: &[[u32; 8]], row: [u32; 8])
    ensures { Put page.old page.new (transition_lines members.now row) }
{
    let number = row[TransitionColumn::NUMBER];
    put_cell_line(page, b"transition=", number);
    put_cell_line(page, b"source=", row[TransitionColumn::SOURCE]);
    page.put_list_line(b"targets=", members, ListKind::Targets as u32, number);
    put_type_line(page, row[TransitionColumn::TYPE]);
    put_cell_line(page, b"doc=", row[TransitionColumn::DOC]);
    put_cell_line(page, b"content=", row[TransitionColumn::CONTENT]);
}

fn put_transitions(page: &mut Page<'_>, members: &[[u32; 8]], transitions: &[[u32; 8]])
    ensures { Put page.old page.new (transitions_from members.now transitions.now) }
{
    for row in transitions {
        put_transition(page, members, *row);
    }
}

/// The rows in use, listed: how many bytes of the buffer are to be printed, and what they are.
pub fn put_chart(out: &mut [u8], tables: Tables<'_>, p: Position) -> usize
    ensures upper_bound { result ≤ length out.new }
    ensures out_after { take result out.new ≡ take (length out.new) (listing tables.entry.chart.now (take p.states tables.entry.states.now) (take p.transitions tables.entry.transitions.now) (take p.members tables.entry.members.now) (take p.used tables.entry.text.now)) }
{
    let used = tables.in_use(p);
    let mut page = Page::new(out);
    put_cell_line(&mut page, b"answer=", 0);
    put_cell_line(&mut page, b"root=", root_of(tables.chart));
    page.put_number_line(b"states=", used.states.len() as u64);
    page.put_number_line(b"transitions=", used.transitions.len() as u64);
    put_states(&mut page, used.text, used.members, used.states);
    put_transitions(&mut page, used.members, used.transitions);
    page.at
}

pub fn put_refusal(out: &mut [u8], number: u32, event: u64) -> usize
    ensures upper_bound { result ≤ length out.new }
    ensures out_after { take result out.new ≡ take (length out.new) (refusal number event) }
{
    let mut page = Page::new(out);
    put_cell_line(&mut page, b"answer=", number);
    page.put_number_line(b"event=", event);
    page.at
}

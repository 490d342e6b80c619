// The chart's row, states and transitions, written as a plan says. n rows are in use.
// A closure takes the element and its texts apart, as in `entries`.

#![tactic(auto)]

ghost use Rattle.std.specs.Prelude.{◌≡◌, set};
ghost use Rattle.definition.specs.Codes.{tag_number};
ghost use Rattle.plan.specs.After.{state_columns_after};
ghost use Rattle.entries.specs.Whole.{rooted_by, chart_row, state_row_by, new_transition, transitions_in, states_in, chart_in};

use definition::cells::{ChartColumn, StateColumn, TransitionColumn};
use entries::{fill_if, put_column};
use fill::Texts;
use plan::{ChartPlan, NewTransition, Shape, StatePlan, TransitionPlan};
use rows::{alter, put};

#[tactic(auto, unfolding(entries::specs::Whole::new_transition))]
fn transition_row(p: &NewTransition, texts: Texts<'_>) -> [u32; 8]
    ensures { result ≡ new_transition texts.entry.cells.now (tag_number texts.entry.tag) p.now }
{
    let mut row = [0u32; 8];
    row[TransitionColumn::NUMBER] = p.number.0;
    row[TransitionColumn::DOC] = p.doc;
    row[TransitionColumn::SOURCE] = p.source.0;
    row[TransitionColumn::TYPE] = p.mode;
    row[TransitionColumn::WILDCARD] = p.wildcard;
    row[TransitionColumn::CONTENT] = p.content.0;
    fill_if(&mut row, texts, p.texts);
    row
}

#[tactic(auto, unfolding(entries::specs::Whole::transitions_in, plan::specs::After::altered_if, tables::specs::Whole::added_in))]
pub fn change_transitions(
    transitions: &mut [[u32; 8]],
    n: usize,
    p: &TransitionPlan,
    texts: Texts<'_>,
)
    ensures { transitions.new ≡ transitions_in texts.entry.cells.now (tag_number texts.entry.tag) p.now n transitions.old }
{
    if let Some(new) = &p.added {
        put(transitions, n, transition_row(new, texts));
    }
    let Some(change) = &p.altered else { return };
    alter(
        transitions,
        change.at,
        |mut row: [u32; 8]|
            ensures { result ≡ set row 5 change.entry.now.content.0 }
        {
            row[TransitionColumn::CONTENT] = change.content.0;
            row
        },
    );
}

#[tactic(auto, unfolding(plan::specs::After::state_columns_after))]
fn put_columns(row: &mut [u32], p: &StatePlan)
    ensures { row.new ≡ state_columns_after p.now row.old }
{
    put_column(row, StateColumn::INITIAL, p.initial);
    put_column(row, StateColumn::DOC, p.doc);
    put_column(row, StateColumn::PARENT, p.parent);
    put_column(row, StateColumn::PARALLEL, p.parallel);
    put_column(row, StateColumn::FINAL, p.ends);
    put_column(row, StateColumn::HISTORY, p.history);
    put_column(row, StateColumn::DONEDATA, p.donedata);
    put_column(row, StateColumn::HAS_CONTENT, p.filled);
}

#[tactic(auto, unfolding(entries::specs::Whole::state_row_by))]
fn state_changed(mut row: [u32; 24], p: &StatePlan, texts: Texts<'_>) -> [u32; 24]
    ensures { result ≡ state_row_by texts.entry.cells.now (tag_number texts.entry.tag) p.now row }
{
    fill_if(&mut row, texts, p.texts);
    put_columns(&mut row, p);
    row
}

#[tactic(auto, unfolding(entries::specs::Whole::states_in, plan::specs::After::altered_if))]
pub fn change_states(states: &mut [[u32; 24]], p: &Option<StatePlan>, texts: Texts<'_>)
    ensures { states.new ≡ states_in texts.entry.cells.now (tag_number texts.entry.tag) p.now states.old }
{
    let Some(change) = p else { return };
    let Texts { tag, cells } = texts;
    alter(
        states,
        change.at.0,
        |row|
            ensures { result ≡ state_row_by cells.entry.now (tag_number tag) change.entry.now row }
        { state_changed(row, change, Texts { tag, cells }) },
    );
}

#[tactic(auto, unfolding(entries::specs::Whole::rooted_by, entries::specs::Whole::texts_by))]
fn put_root(row: &mut [u32], texts: Texts<'_>, root: Option<u32>)
    ensures { row.new ≡ rooted_by texts.entry.cells.now (tag_number texts.entry.tag) root row.old }
{
    if let Some(root) = root {
        texts.fill(row, Shape::First);
        put(row, ChartColumn::ROOT, root);
    }
}

#[tactic(auto, unfolding(entries::specs::Whole::chart_row))]
fn chart_changed(mut row: [u32; 24], p: &ChartPlan, texts: Texts<'_>) -> [u32; 24]
    ensures { result ≡ chart_row texts.entry.cells.now (tag_number texts.entry.tag) p.now row }
{
    put_column(&mut row, ChartColumn::BINDING, p.binding);
    put_root(&mut row, texts, p.root);
    put_column(&mut row, ChartColumn::SCRIPT, p.script);
    row
}

#[tactic(auto, unfolding(entries::specs::Whole::chart_in, plan::specs::After::altered_if))]
pub fn change_chart(chart: &mut [[u32; 24]], p: &Option<ChartPlan>, texts: Texts<'_>)
    ensures { chart.new ≡ chart_in texts.entry.cells.now (tag_number texts.entry.tag) p.now chart.old }
{
    let Some(change) = p else { return };
    let Texts { tag, cells } = texts;
    alter(
        chart,
        1,
        |row|
            ensures { result ≡ chart_row cells.entry.now (tag_number tag) change.entry.now row }
        { chart_changed(row, change, Texts { tag, cells }) },
    );
}

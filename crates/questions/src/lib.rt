// Questions 1 and 2, over all that is lent.

#![tactic(auto)]

ghost use Rattle.std.specs.Prelude.{◌≡◌, ◌<◌, ◌^◌};
ghost use Rattle.definition.specs.Codes.{outcome};
ghost use Rattle.definition.specs.Limits.{limits01};
ghost use Rattle.definition.specs.Reader.{long_enough, in_order};
ghost use Rattle.columns.specs.Rising.{Rising};
ghost use Rattle.rows.specs.Lent.{seen_of};
ghost use Rattle.questions.specs.Lent.{TablesTest, store, rules_kept, Few, KnownOf, counts_fit, counters_fit, first_two};

use columns::numbered::Known;
use definition::codes::Refusal;
use definition::{Chart, Position};
use order::{blocks_in, name_keeps, names_lead, none_in, open_names_fit, open_tags_fit, rises};
use rows::lent::Tables;
use rules::{
    chart_keeps, datum_keeps, entry_keeps, invoke_keeps, member_keeps, open_region_keeps,
    opened_keeps, parameter_keeps, region_keeps, rows_keep, state_keeps, transition_keeps,
};

// What the rows are held against.
fn known<'a>(tables: Tables<'a>, p: Position) -> Known<'a>
    requires few { Few tables.states.now tables.entries.now tables.invokes.now tables.parameters.now tables.text.now }
    requires rising { Rising tables.transitions.now × Rising tables.regions.now }
    ensures { KnownOf tables.entry p result }
{
    Known {
        transitions: tables.transitions,
        regions: tables.regions,
        states: tables.states.len() as u32,
        entries: tables.entries.len() as u32,
        invokes: tables.invokes.len() as u32,
        parameters: tables.parameters.len() as u32,
        ids: p.ids,
        docs: p.docs,
        used: tables.text.len() as u32,
    }
}

// Every row of every table.
fn rows_kept(tables: Tables<'_>, k: &Known<'_>) -> bool
    ensures { TablesTest k.now (seen_of tables.entry).tables result }
{
    rows_keep(tables.chart, k, chart_keeps)
        & (rows_keep(tables.states, k, state_keeps)
            & (rows_keep(tables.transitions, k, transition_keeps)
                & (rows_keep(tables.regions, k, region_keeps)
                    & (rows_keep(tables.entries, k, entry_keeps)
                        & (rows_keep(tables.invokes, k, invoke_keeps)
                            & (rows_keep(tables.datums, k, datum_keeps)
                                & (rows_keep(tables.parameters, k, parameter_keeps)
                                    & (rows_keep(tables.members, k, member_keeps)
                                        & (rows_keep(tables.opened, k, opened_keeps)
                                            & (rows_keep(tables.open_names, k, name_keeps)
                                                & rows_keep(
                                                    tables.open_regions,
                                                    k,
                                                    open_region_keeps,
                                                )))))))))))
}

// The rules but for limits and counters, of tables that are in use as a whole.
fn rules_kept(tables: Tables<'_>, p: Position) -> bool
    requires { Few tables.states.now tables.entries.now tables.invokes.now tables.parameters.now tables.text.now }
    ensures { result ≡ rules_kept limits01 (store (seen_of tables.entry).tables tables.entry.text.now p) }
{
    let Tables {
        states,
        transitions,
        regions,
        opened,
        open_names,
        open_regions,
        text,
        ..
    } = tables;
    if !rises(transitions) {
        return false;
    }
    if !rises(regions) {
        return false;
    }
    if !none_in(regions, transitions) {
        return false;
    }
    let k = known(tables, p);
    rows_kept(tables, &k)
        & names_lead(text, states)
        & open_names_fit(opened, open_names)
        & (open_tags_fit(open_regions) & (blocks_in(1, open_regions) <= blocks_in(0, opened)))
        & k.region_or_zero(p.current)
}

fn counts_fit(p: Position) -> bool
    ensures { result ≡ counts_fit p }
{
    (p.states <= Chart::STATES)
        & (p.transitions <= Chart::TRANSITIONS)
        & (p.regions <= Chart::REGIONS)
        & (p.entries <= Chart::ENTRIES)
        & (p.invokes <= Chart::INVOKES)
        & (p.datums <= Chart::DATA)
        & (p.parameters <= Chart::PARAMETERS)
        & (p.members <= Chart::MEMBERS)
        & (p.opened <= Chart::OPENED)
        & (p.open_regions <= 2 * Chart::OPENED)
        & (p.used <= Chart::CHARGE)
}

#[tactic(auto, unfolding(crate::specs::Lent::counters_fit))]
fn counters_fit(p: Position, stored: usize) -> bool
    ensures { result ≡ counters_fit p stored }
{
    (p.ids <= Chart::DRAWN)
        & (p.docs <= Chart::DRAWN)
        & (p.names <= Chart::DRAWN)
        & (p.charge <= Chart::CHARGE)
        & (stored <= p.charge as usize)
}

/// Question 2.
pub fn in_order(tables: Tables<'_>, p: Position) -> bool
    ensures { result ≡ in_order limits01 (seen_of tables.entry) p }
{
    if !counts_fit(p) {
        return false;
    }
    let used = tables.in_use(p);
    if !counters_fit(p, used.text.len()) {
        return false;
    }
    rules_kept(used, p)
}

/// Question 1.
pub fn long_enough(tables: Tables<'_>) -> bool
    ensures { result ≡ long_enough limits01 (seen_of tables.entry) }
{
    (1 <= tables.chart.len())
        & (Chart::STATES as usize <= tables.states.len())
        & (Chart::TRANSITIONS as usize <= tables.transitions.len())
        & (Chart::REGIONS as usize <= tables.regions.len())
        & (Chart::ENTRIES as usize <= tables.entries.len())
        & (Chart::INVOKES as usize <= tables.invokes.len())
        & (Chart::DATA as usize <= tables.datums.len())
        & (Chart::PARAMETERS as usize <= tables.parameters.len())
        & (Chart::MEMBERS as usize <= tables.members.len())
        & (Chart::OPENED as usize <= tables.opened.len())
        & (Chart::OPENED as usize <= tables.open_names.len())
        & (2 * Chart::OPENED as usize <= tables.open_regions.len())
        & (Chart::CHARGE as usize <= tables.text.len())
}

/// Questions 1 and 2, or the first no.
#[tactic(auto, unfolding(crate::specs::Lent::first_two))]
pub fn asked(tables: Tables<'_>, p: Position) -> Result<(), Refusal>
    ensures { outcome result ≡ first_two (seen_of tables.entry) p }
{
    if !long_enough(tables) {
        return Err(Refusal::TooShort);
    }
    if !in_order(tables, p) {
        return Err(Refusal::OutOfOrder);
    }
    Ok(())
}

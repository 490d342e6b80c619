// The decision of an event: by its kind, then by its element. And question 15, by counting before anything is written.

#![tactic(auto)]

ghost use Rattle.std.specs.Prelude.{◌≡◌, ◌<◌, ◌+◌, leb};
ghost use Rattle.definition.specs.Limits.{limits01};
ghost use Rattle.plan.specs.Plans.{start_p, both_p, end_p, plan_by};
ghost use Rattle.plan.specs.Decided.{one_there, words_added};
ghost use Rattle.definition.specs.Codes.{kind_number, tag_number};
ghost use Rattle.decision.specs.Told.{told, placed};
ghost use Rattle.plan.specs.Small.{Small, Counted, Brought, words_on};
ghost use Rattle.decide.specs.Within.{members_more, rows_within, drawn_within, within};

use actions::{
    assign, both_foreach, both_if, cancel, content, end_block, invoke, log, nest, param, raise,
    script, send, start_else, start_elseif, start_foreach, start_if,
};
use decision::{Decision, rest};
use definition::codes::{Kind, Tag};
use definition::{Chart, Position};
use plan::{Element, Heard, MembersPlan, Plan, Seen};
use regions::{
    both_finalize, both_onentry, both_onexit, both_transition, end_finalize, end_onentry,
    end_onexit, end_transition, start_region, start_transition,
};
use states::{
    both_scxml, both_state, child, datum, default_initial, donedata, history, initial, scxml,
};

// start, both and end are not put in line, for the same reason as the decisions (docs/DECISIONS.md, 129).
/// An element that begins.
#[tactic(auto, unfolding(plan::specs::Plans::start_p, plan::specs::Plans::starts_p, plan::specs::Plans::plain_p, plan::specs::Plans::state_p, plan::specs::Plans::parallel_p, plan::specs::Plans::final_p))]
#[inline(never)]
fn start(tag: Tag, v: &Seen, q: &Heard, plan: &mut Plan) -> Decision
    requires { Small v.now q.now }
    ensures { told (placed result plan.new) ≡ start_p (tag_number tag) v.now q.now }
{
    match tag {
        Tag::Scxml => scxml(v, q, plan),
        Tag::State => child(None, None, v, q, plan),
        Tag::Parallel => child(Some(1), None, v, q, plan),
        Tag::Final => child(None, Some(1), v, q, plan),
        Tag::History => history(v, q, plan),
        Tag::Initial => initial(v, plan),
        Tag::Invoke => invoke(v, q, plan),
        Tag::Data => datum(v, q, plan),
        Tag::Donedata => donedata(v, plan),
        Tag::Finalize | Tag::Onentry | Tag::Onexit => start_region(v, plan),
        Tag::Else => start_else(v, plan),
        Tag::Elseif => start_elseif(v, plan),
        Tag::Param => param(v, plan),
        Tag::Content => content(v, q, plan),
        Tag::Transition => start_transition(v, q, plan),
        Tag::Send => send(v, q, plan),
        Tag::Raise => raise(v, plan),
        Tag::Cancel => cancel(v, plan),
        Tag::Log => log(v, q, plan),
        Tag::Assign => assign(v, q, plan),
        Tag::If => start_if(v, plan),
        Tag::Foreach => start_foreach(v, plan),
        Tag::Script => script(v, plan),
        Tag::Unknown | Tag::Datamodel | Tag::Include => nest(v, plan),
    }
}

/// Start and end as one: the elements that do something at their end have plans of their own for it.
#[tactic(auto, unfolding(plan::specs::Plans::both_p, plan::specs::Plans::boths_p, plan::specs::Plans::start_p, plan::specs::Plans::starts_p, plan::specs::Plans::plain_p))]
#[inline(never)]
fn both(tag: Tag, v: &Seen, q: &Heard, plan: &mut Plan) -> Decision
    requires { Small v.now q.now }
    ensures { told (placed result plan.new) ≡ both_p (tag_number tag) v.now q.now }
{
    match tag {
        Tag::Scxml => both_scxml(v, q, plan),
        Tag::State => both_state(v, q, plan),
        Tag::Finalize => both_finalize(v, plan),
        Tag::Transition => both_transition(v, q, plan),
        Tag::Onentry => both_onentry(v, plan),
        Tag::Onexit => both_onexit(v, plan),
        Tag::If => both_if(v, plan),
        Tag::Foreach => both_foreach(v, plan),
        _ => start(tag, v, q, plan),
    }
}

/// "An ending state or scxml with initial 0 and a first child gets an external transition to it with doc id 0; parallel doesn't."
#[tactic(auto, unfolding(plan::specs::Plans::end_p, plan::specs::Plans::ends_p, plan::specs::Plans::end_scxml_p, plan::specs::Plans::end_state_p, plan::specs::Plans::rest_p))]
#[inline(never)]
fn end(tag: Tag, v: &Seen, plan: &mut Plan) -> Decision
    requires { v.now.ids < 65536 }
    ensures { told (placed result plan.new) ≡ end_p (tag_number tag) v.now }
{
    match tag {
        Tag::Scxml => default_initial(v.root, v.begins, v.child, v, plan),
        Tag::State => default_initial(v.state, v.initial, v.first, v, plan),
        Tag::Finalize => end_finalize(v, plan),
        Tag::Transition => end_transition(v, plan),
        Tag::Onentry => end_onentry(v, plan),
        Tag::Onexit => end_onexit(v, plan),
        Tag::If | Tag::Foreach => end_block(v, plan),
        _ => {
            *plan = rest(v);
            Ok(())
        }
    }
}

/// By the kind.
#[tactic(auto, unfolding(plan::specs::Plans::plan_by))]
fn decide_for(element: Element, v: &Seen, q: &Heard, plan: &mut Plan) -> Decision
    requires { Small v.now q.now }
    ensures { told (placed result plan.new) ≡ plan_by (kind_number element.kind) (tag_number element.tag) v.now q.now }
{
    match element.kind {
        Kind::Open => start(element.tag, v, q, plan),
        Kind::Empty | Kind::Whole => both(element.tag, v, q, plan),
        Kind::End => end(element.tag, v, plan),
    }
}

/// By the event's numbers: a kind past the last is an end, an element past the last is unknown.
#[tactic(auto, using(plan::proofs::Elements::plan_counted))]
pub fn decide(kind: u32, tag: u32, v: &Seen, q: &Heard, plan: &mut Plan) -> Decision
    requires { Small v.now q.now }
    ensures { told (placed result plan.new) ≡ plan_by kind tag v.now q.now }
{
    decide_for(Element::of(kind, tag), v, q, plan)
}

#[tactic(auto, unfolding(crate::specs::Within::members_more, plan::specs::Decided::words_added, crate::specs::Within::targets_more, plan::specs::Decided::one_there))]
fn members_more(p: &MembersPlan, refs: u32) -> u32
    requires { (refs < 65536) × (words_added p.now.words < 65536) }
    ensures { (result ≡ members_more p.now refs) × (result < 140000) }
{
    let words = match p.words {
        Some(words) => words.value,
        None => 0,
    };
    let targets = match p.targets {
        Some(targets) => refs.saturating_sub(targets.skip),
        None => 0,
    };
    words + targets + u32::from(p.one.is_some()) + u32::from(p.two.is_some())
}

/// One more row at most.
#[tactic(auto, unfolding(plan::specs::Decided::one_there))]
fn has_room<T: Copy>(n: u32, row: Option<T>, most: u32) -> bool
    requires { n < 65700 }
    ensures { result ≡ leb (n + one_there row) most }
{
    n + u32::from(row.is_some()) <= most
}

#[tactic(auto, unfolding(crate::specs::Within::rows_within, plan::specs::Small::words_on, plan::specs::Decided::one_there))]
fn rows_within(n: Position, refs: u32, new: u32, p: &Plan) -> bool
    requires { Counted n × (refs < 65536) × (new < 65536) × (words_on p.now < 65536) }
    ensures { result ≡ rows_within limits01 n refs new p.now }
{
    let members = n.members + members_more(&p.members, refs);
    let regions = n.regions + u32::from(p.regions.one.is_some());
    (n.states + new <= Chart::STATES)
        & has_room(n.transitions, p.transitions.added, Chart::TRANSITIONS)
        & has_room(regions, p.regions.two, Chart::REGIONS)
        & has_room(n.entries, p.entries.added, Chart::ENTRIES)
        & has_room(n.invokes, p.invokes.added, Chart::INVOKES)
        & has_room(n.datums, p.datums.added, Chart::DATA)
        & has_room(n.parameters, p.parameters, Chart::PARAMETERS)
        & (members <= Chart::MEMBERS)
}

/// The counters and the text charge.
#[tactic(auto, unfolding(crate::specs::Within::drawn_within))]
fn drawn_within(n: Position, made: bool, charge: u32, p: &Plan) -> bool
    requires { Counted n × (charge < 65536) }
    ensures { result ≡ drawn_within limits01 n made charge p.now }
{
    (p.counters.ids <= Chart::DRAWN)
        & (p.counters.docs <= Chart::DRAWN)
        & (n.names + u32::from(made) <= Chart::DRAWN)
        & (n.charge + charge <= Chart::CHARGE)
}

/// "Would the chart stay within the limits? 15": every table, counter and the text charge as they would be. The event brings so many references to states, new
/// states, perhaps a generated name, and a charge.
#[tactic(auto, unfolding(crate::specs::Within::within))]
pub fn stays_within(
    n: Position,
    refs: usize,
    new: usize,
    made: bool,
    charge: usize,
    p: &Plan,
) -> bool
    requires { Counted n × Brought refs new charge p.now }
    ensures { result ≡ within limits01 n refs new made charge p.now }
{
    rows_within(n, refs as u32, new as u32, p) & drawn_within(n, made, charge as u32, p)
}

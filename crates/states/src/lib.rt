// Document 01, module 5, States: scxml, state, parallel, final and history are declared, and at their end get a default initial; initial, donedata and data. From what is
// seen, by value, with no table. `both_` is start and end as one event.
// The public decisions are not put in line, where all their plans would meet in one place (docs/DECISIONS.md, 129).

#![tactic(auto)]

ghost use Rattle.std.specs.Prelude.{◌≡◌, ◌<◌, Some, None, if◌then◌else◌, ◌==◌, ◌||◌};
ghost use Rattle.plan.specs.Plan.{planned, member};
ghost use Rattle.plan.specs.Plans.{parent_to, declared_row, initial_row, declared_members, declared_plan, as_child, history_p, chart_of, scxml_p, default_row, default_to, default_p, defaulted, both_declared, not_child, both_state_p, both_scxml_p, initial_p, donedata_p, data_p};
ghost use Rattle.decision.specs.Told.{told, placed};

use decision::{
    Decision, begun, counting, idle_in, inside, needs, next_transition, one_member, rest,
};
use definition::codes::{ListKind, Refusal};
use definition::{RegionId, StateId, TransitionId};
use plan::{
    ChartPlan, DatumChange, DatumPlan, Declared, Heard, MemberPlan, MembersPlan, NewDatum,
    NewTransition, Plan, Seen, Shape, StatePlan, TargetPlan, TransitionPlan, TransitionType,
};

/// The transition of an `initial` attribute.
#[tactic(auto, unfolding(plan::specs::Plans::initial_row))]
fn initial_row(initial: bool, s: StateId, v: &Seen) -> TransitionPlan
    requires { (v.now.ids < 65536) × (v.now.docs < 65536) }
    ensures { result ≡ initial_row initial s.0 v.now }
{
    if !initial {
        return TransitionPlan::default();
    }
    let row = NewTransition {
        number: next_transition(v),
        doc: v.docs + 1,
        source: s,
        mode: TransitionType::Internal.number(),
        wildcard: 0,
        content: RegionId(0),
        texts: None,
    };
    TransitionPlan {
        added: Some(row),
        altered: None,
    }
}

/// Its targets, and the list that the state joins.
#[tactic(auto, unfolding(plan::specs::Plans::declared_members))]
fn declared_members(initial: bool, joins: Option<MemberPlan>, v: &Seen) -> MembersPlan
    requires { v.now.ids < 65536 }
    ensures { result ≡ declared_members initial joins v.now }
{
    let targets = if initial {
        Some(TargetPlan {
            owner: v.ids + 1,
            skip: 1,
        })
    } else {
        None
    };
    MembersPlan {
        targets,
        one: joins,
        ..MembersPlan::default()
    }
}

#[tactic(auto, unfolding(plan::specs::Plans::declared_row))]
fn declared_row(s: StateId, initial: Option<u32>, doc: u32, x: Declared) -> StatePlan
    ensures { result ≡ declared_row s.0 initial doc x }
{
    StatePlan {
        at: s,
        initial,
        doc: Some(doc),
        parent: x.parent,
        parallel: x.parallel,
        ends: x.ends,
        history: x.history,
        ..StatePlan::default()
    }
}

/// "Order: state, then its `initial` transition (internal, doc id, targets made as needed), then the state's doc id."
#[tactic(auto, unfolding(plan::specs::Plans::declared_plan, plan::specs::Plans::docs_after, plan::specs::Plans::ids_after, plan::specs::Plans::initial_if))]
fn declared_plan(initial: bool, x: Declared, v: &Seen, q: &Heard) -> Plan
    requires { (v.now.ids < 65536) × (v.now.docs < 65536) }
    ensures { result ≡ declared_plan initial x v.now q.now }
{
    let drawn = u32::from(initial);
    let docs = v.docs + 1 + drawn;
    let initial_to = if initial { Some(v.ids + 1) } else { None };
    Plan {
        states: Some(declared_row(q.own, initial_to, docs, x)),
        transitions: initial_row(initial, q.own, v),
        members: declared_members(initial, x.joins, v),
        counters: counting(v.current, v.ids + drawn, docs),
        ..idle_in(inside(q.own, v.transition), v)
    }
}

#[tactic(auto, unfolding(plan::specs::Plans::parent_to))]
fn parent_to(p: StateId) -> Option<u32>
    ensures { result ≡ parent_to p.0 }
{
    if p.0 == 0 { None } else { Some(p.0) }
}

/// A state joins a list of its parent, unless it is in it already or has no parent.
fn joins(list: ListKind, already: bool, parent: StateId, s: StateId) -> Option<MemberPlan>
    ensures { result ≡ (if already || (parent.0 == 0) then None else Some (member list parent.0 s.0)) }
{
    if already || parent.0 == 0 {
        return None;
    }
    Some(MemberPlan {
        list,
        owner: parent.0,
        value: s.0,
    })
}

/// It joins its parent's children, once.
#[tactic(auto, unfolding(plan::specs::Plans::as_child, plan::specs::Seen::child_member))]
fn as_child(parallel: Option<u32>, ends: Option<u32>, v: &Seen, q: &Heard) -> Declared
    ensures { result ≡ as_child parallel ends v.now q.now }
{
    Declared {
        parent: parent_to(v.state),
        parallel,
        ends,
        history: None,
        joins: joins(ListKind::Children, v.joined, v.state, q.own),
    }
}

/// state, parallel and final.
#[inline(never)]
pub fn child(
    parallel: Option<u32>,
    ends: Option<u32>,
    v: &Seen,
    q: &Heard,
    plan: &mut Plan,
) -> Decision
    requires { (v.now.ids < 65536) × (v.now.docs < 65536) }
    ensures { told (placed result plan.new) ≡ planned (declared_plan q.now.initial (as_child parallel ends v.now q.now) v.now q.now) }
{
    *plan = declared_plan(q.initial, as_child(parallel, ends, v, q), v, q);
    Ok(())
}

/// "History states join `history`, not `states`."
#[tactic(auto, unfolding(plan::specs::Plans::history_p, plan::specs::Plans::history_member))]
#[inline(never)]
pub fn history(v: &Seen, q: &Heard, plan: &mut Plan) -> Decision
    requires { (v.now.ids < 65536) × (v.now.docs < 65536) }
    ensures { told (placed result plan.new) ≡ history_p v.now q.now }
{
    let x = Declared {
        parent: Some(v.state.0),
        history: Some(q.history),
        joins: joins(ListKind::History, false, v.state, q.own),
        ..Declared::default()
    };
    *plan = declared_plan(q.initial, x, v, q);
    Ok(())
}

#[tactic(auto, unfolding(plan::specs::Plans::binding_to))]
fn chart_of(q: &Heard) -> ChartPlan
    ensures { result ≡ chart_of q.now }
{
    ChartPlan {
        binding: if q.binds { Some(q.binding) } else { None },
        root: Some(q.own.0),
        script: None,
    }
}

/// The root is no child.
#[tactic(auto, unfolding(plan::specs::Plans::not_child))]
fn not_child() -> Declared
    ensures { result ≡ not_child }
{
    Declared::default()
}

#[tactic(auto, unfolding(plan::specs::Plans::scxml_p, plan::specs::Plans::scxml_plan))]
#[inline(never)]
pub fn scxml(v: &Seen, q: &Heard, plan: &mut Plan) -> Decision
    requires { (v.now.ids < 65536) × (v.now.docs < 65536) }
    ensures { told (placed result plan.new) ≡ scxml_p v.now q.now }
{
    *plan = Plan {
        chart: Some(chart_of(q)),
        ..declared_plan(q.initial, not_child(), v, q)
    };
    Ok(())
}

fn default_row(t: TransitionId, s: StateId) -> TransitionPlan
    ensures { result ≡ default_row t.0 s.0 }
{
    let row = NewTransition {
        number: t,
        doc: 0,
        source: s,
        mode: TransitionType::External.number(),
        wildcard: 0,
        content: RegionId(0),
        texts: None,
    };
    TransitionPlan {
        added: Some(row),
        altered: None,
    }
}

/// A state as the target of a transition.
fn target(t: TransitionId, s: StateId) -> MemberPlan
    ensures { result ≡ member ListKind.Targets t.0 s.0 }
{
    MemberPlan {
        list: ListKind::Targets,
        owner: t.0,
        value: s.0,
    }
}

/// Where there is a first child, "an external transition to it with doc id 0".
#[tactic(auto, using(crate::proofs::Laws::default_some), unfolding(plan::specs::Plans::default_to))]
fn default_to(s: StateId, first: StateId, v: &Seen) -> Plan
    requires { v.now.ids < 65536 }
    ensures { result ≡ default_to s.0 first.0 v.now }
{
    if first.0 == 0 {
        return rest(v);
    }
    let t = next_transition(v);
    let row = StatePlan {
        at: s,
        initial: Some(t.0),
        ..StatePlan::default()
    };
    Plan {
        states: Some(row),
        transitions: default_row(t, s),
        members: one_member(target(t, first)),
        counters: counting(v.current, t.0, v.docs),
        ..rest(v)
    }
}

/// The end of a state or scxml that has this initial and this first child.
#[tactic(auto, unfolding(plan::specs::Plans::default_p, plan::specs::Plans::unless_zero_p))]
#[inline(never)]
pub fn default_initial(
    s: StateId,
    initial: TransitionId,
    first: StateId,
    v: &Seen,
    plan: &mut Plan,
) -> Decision
    requires { v.now.ids < 65536 }
    ensures { told (placed result plan.new) ≡ default_p s.0 initial.0 first.0 v.now }
{
    needs(s.0, Refusal::OutOfOrder)?;
    if initial.0 != 0 {
        *plan = rest(v);
        return Ok(());
    }
    *plan = default_to(s, first, v);
    Ok(())
}

/// Declared and ended, without an `initial` attribute: first is the first child as it would be.
#[tactic(auto, using(crate::proofs::Laws::defaulted_some), unfolding(plan::specs::Plans::defaulted))]
fn defaulted(first: StateId, x: Declared, v: &Seen, q: &Heard) -> Plan
    requires { (v.now.ids < 65536) × (v.now.docs < 65536) }
    ensures { result ≡ defaulted first.0 x v.now q.now }
{
    let declared = declared_plan(false, x, v, q);
    if first.0 == 0 {
        return declared;
    }
    let t = next_transition(v);
    Plan {
        states: Some(declared_row(q.own, Some(t.0), v.docs + 1, x)),
        transitions: default_row(t, q.own),
        members: MembersPlan {
            one: x.joins,
            two: Some(target(t, first)),
            ..MembersPlan::default()
        },
        counters: counting(v.current, t.0, v.docs + 1),
        ..declared
    }
}

/// An empty state or scxml: declared, and ended.
#[tactic(auto, unfolding(plan::specs::Plans::both_declared, plan::specs::Plans::unless_zero_p))]
fn both_declared(
    chart: Option<ChartPlan>,
    initial: bool,
    x: Declared,
    v: &Seen,
    q: &Heard,
    plan: &mut Plan,
) -> Decision
    requires { (v.now.ids < 65536) × (v.now.docs < 65536) }
    ensures { told (placed result plan.new) ≡ both_declared chart initial x v.now q.now }
{
    needs(q.own.0, Refusal::OutOfOrder)?;
    if !initial && v.own.0 == 0 {
        *plan = Plan {
            chart,
            ..defaulted(v.eldest, x, v, q)
        };
        return Ok(());
    }
    *plan = Plan {
        chart,
        ..declared_plan(initial, x, v, q)
    };
    Ok(())
}

#[tactic(auto, unfolding(plan::specs::Plans::both_state_p))]
#[inline(never)]
pub fn both_state(v: &Seen, q: &Heard, plan: &mut Plan) -> Decision
    requires { (v.now.ids < 65536) × (v.now.docs < 65536) }
    ensures { told (placed result plan.new) ≡ both_state_p v.now q.now }
{
    both_declared(None, q.initial, as_child(None, None, v, q), v, q, plan)
}

#[tactic(auto, unfolding(plan::specs::Plans::both_scxml_p))]
#[inline(never)]
pub fn both_scxml(v: &Seen, q: &Heard, plan: &mut Plan) -> Decision
    requires { (v.now.ids < 65536) × (v.now.docs < 65536) }
    ensures { told (placed result plan.new) ≡ both_scxml_p v.now q.now }
{
    both_declared(Some(chart_of(q)), q.initial, not_child(), v, q, plan)
}

/// The state's initial is 0.
#[tactic(auto, unfolding(plan::specs::Plans::initial_p, plan::specs::Plans::unless_zero_p, plan::specs::Plans::unless_initial_p, plan::specs::Plans::only_nest_p))]
#[inline(never)]
pub fn initial(v: &Seen, plan: &mut Plan) -> Decision
    ensures { told (placed result plan.new) ≡ initial_p v.now }
{
    needs(v.state.0, Refusal::OutOfOrder)?;
    if v.initial.0 != 0 {
        return Err(Refusal::InitialSet);
    }
    *plan = begun(v);
    Ok(())
}

/// "A second donedata in a final begins empty": the mark is one more than the parameters there are.
#[tactic(auto, unfolding(plan::specs::Plans::donedata_p, plan::specs::Plans::unless_zero_p))]
#[inline(never)]
pub fn donedata(v: &Seen, plan: &mut Plan) -> Decision
    requires { v.now.parameters < 65536 }
    ensures { told (placed result plan.new) ≡ donedata_p v.now }
{
    needs(v.state.0, Refusal::OutOfOrder)?;
    let row = StatePlan {
        at: v.state,
        texts: Some(Shape::First),
        donedata: Some(v.parameters + 1),
        filled: Some(0),
        ..StatePlan::default()
    };
    *plan = Plan {
        states: Some(row),
        ..begun(v)
    };
    Ok(())
}

/// "`data` repeated in a state replaces the value in its row and takes no new row."
#[tactic(auto, unfolding(plan::specs::Plans::data_p, plan::specs::Plans::unless_zero_p, plan::specs::Plans::value_of))]
#[inline(never)]
pub fn datum(v: &Seen, q: &Heard, plan: &mut Plan) -> Decision
    requires { v.now.datums < 65536 }
    ensures { told (placed result plan.new) ≡ data_p v.now q.now }
{
    needs(v.state.0, Refusal::OutOfOrder)?;
    let shape = if q.expr { Shape::First } else { Shape::Second };
    let datums = if q.found == v.datums + 1 {
        DatumPlan {
            added: Some(NewDatum {
                state: v.state,
                shape,
            }),
            altered: None,
        }
    } else {
        DatumPlan {
            added: None,
            altered: Some(DatumChange { at: q.found, shape }),
        }
    };
    *plan = Plan { datums, ..begun(v) };
    Ok(())
}

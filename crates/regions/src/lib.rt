// Document 01, module 6, Actions: the elements that have a region of their own, which are transition, onentry, onexit and finalize. From what is seen, by value, with
// no table. `both_` is start and end as one event.
// The public decisions are not put in line, where all their plans would meet in one place (docs/DECISIONS.md, 129).

#![tactic(auto)]

ghost use Rattle.std.specs.Prelude.{◌≡◌, ◌<◌, suc, Some, None, if◌then◌else◌};
ghost use Rattle.definition.specs.Change.{◌▷◌};
ghost use Rattle.plan.specs.Plan.{member, keeping, counting, on_region, on_open_regions, on_counters};
ghost use Rattle.plan.specs.Plans.{begun, one_region, finalize_to, initial_to, region_p, end_listed_p, both_listed_p, end_finalize_p, both_finalize_p, transition_plan, transition_by, start_transition_p, both_transition_p, end_transition_p};
ghost use Rattle.decision.specs.Told.{told, placed};

use decision::{
    Decision, begun, closed, counting, ended, idle_in, inside, keeping, needs, next_region,
    one_member, one_region,
};
use definition::codes::{ListKind, Refusal, Tag};
use definition::{RegionId, StateId, TransitionId};
use plan::{
    Heard, InvokeChange, InvokePlan, MemberPlan, MembersPlan, NewTransition, Plan, Seen, Shape,
    StatePlan, TargetPlan, TransitionChange, TransitionPlan,
};

/// A region is drawn, and no other stays open.
#[tactic(auto, unfolding(plan::specs::Plans::begun))]
fn drawn(current: RegionId, v: &Seen) -> Plan
    requires { v.now.ids < 65536 }
    ensures { result ≡ begun v.now ▷ on_region (one_region (suc v.now.ids)) ▷ on_open_regions (keeping 0) ▷ on_counters (counting current.0 (suc v.now.ids) v.now.docs) }
{
    let region = next_region(v);
    Plan {
        regions: one_region(region),
        pending: keeping(0),
        counters: counting(current, region.0, v.docs),
        ..begun(v)
    }
}

/// onentry, onexit, finalize: a region of their own.
#[tactic(auto, unfolding(plan::specs::Plans::region_p, plan::specs::Plans::fresh_p))]
#[inline(never)]
pub fn start_region(v: &Seen, plan: &mut Plan) -> Decision
    requires { v.now.ids < 65536 }
    ensures { told (placed result plan.new) ≡ region_p v.now }
{
    *plan = drawn(next_region(v), v);
    Ok(())
}

/// The region joins the state's onentry or onexit.
#[tactic(auto, unfolding(plan::specs::Plans::end_listed_p, plan::specs::Plans::closed_p, plan::specs::Plans::unless_zero_p))]
fn end_listed(list: ListKind, v: &Seen, plan: &mut Plan) -> Decision
    ensures { told (placed result plan.new) ≡ end_listed_p list v.now }
{
    let x = closed(v)?;
    needs(v.state.0, Refusal::OutOfOrder)?;
    let joins = MemberPlan {
        list,
        owner: v.state.0,
        value: v.current.0,
    };
    *plan = Plan {
        members: one_member(joins),
        ..ended(x, v)
    };
    Ok(())
}

#[inline(never)]
pub fn end_onentry(v: &Seen, plan: &mut Plan) -> Decision
    ensures { told (placed result plan.new) ≡ end_listed_p ListKind.Onentry v.now }
{
    end_listed(ListKind::Onentry, v, plan)
}

#[inline(never)]
pub fn end_onexit(v: &Seen, plan: &mut Plan) -> Decision
    ensures { told (placed result plan.new) ≡ end_listed_p ListKind.Onexit v.now }
{
    end_listed(ListKind::Onexit, v, plan)
}

/// Afterwards no region is current.
#[tactic(auto, unfolding(plan::specs::Plans::both_listed_p, plan::specs::Plans::passing, plan::specs::Plans::unless_zero_p))]
fn both_listed(list: ListKind, v: &Seen, plan: &mut Plan) -> Decision
    requires { v.now.ids < 65536 }
    ensures { told (placed result plan.new) ≡ both_listed_p list v.now }
{
    needs(v.state.0, Refusal::OutOfOrder)?;
    let joins = MemberPlan {
        list,
        owner: v.state.0,
        value: v.ids + 1,
    };
    *plan = Plan {
        members: one_member(joins),
        ..drawn(RegionId(0), v)
    };
    Ok(())
}

#[inline(never)]
pub fn both_onentry(v: &Seen, plan: &mut Plan) -> Decision
    requires { v.now.ids < 65536 }
    ensures { told (placed result plan.new) ≡ both_listed_p ListKind.Onentry v.now }
{
    both_listed(ListKind::Onentry, v, plan)
}

#[inline(never)]
pub fn both_onexit(v: &Seen, plan: &mut Plan) -> Decision
    requires { v.now.ids < 65536 }
    ensures { told (placed result plan.new) ≡ both_listed_p ListKind.Onexit v.now }
{
    both_listed(ListKind::Onexit, v, plan)
}

fn finalize_to(at: u32, region: RegionId) -> InvokePlan
    ensures { result ≡ finalize_to at region.0 }
{
    InvokePlan {
        added: None,
        altered: Some(InvokeChange {
            at,
            finalize: Some(region.0),
            filled: false,
        }),
    }
}

/// The invoke gets its finalize.
#[tactic(auto, unfolding(plan::specs::Plans::end_finalize_p, plan::specs::Plans::closed_p, plan::specs::Plans::unless_zero_p))]
#[inline(never)]
pub fn end_finalize(v: &Seen, plan: &mut Plan) -> Decision
    ensures { told (placed result plan.new) ≡ end_finalize_p v.now }
{
    let x = closed(v)?;
    needs(v.state.0, Refusal::OutOfOrder)?;
    needs(v.invoke, Refusal::OutOfOrder)?;
    *plan = Plan {
        invokes: finalize_to(v.invoke, v.current),
        ..ended(x, v)
    };
    Ok(())
}

#[tactic(auto, unfolding(plan::specs::Plans::both_finalize_p, plan::specs::Plans::passing, plan::specs::Plans::unless_zero_p))]
#[inline(never)]
pub fn both_finalize(v: &Seen, plan: &mut Plan) -> Decision
    requires { v.now.ids < 65536 }
    ensures { told (placed result plan.new) ≡ both_finalize_p v.now }
{
    needs(v.state.0, Refusal::OutOfOrder)?;
    needs(v.invoke, Refusal::OutOfOrder)?;
    *plan = Plan {
        invokes: finalize_to(v.invoke, next_region(v)),
        ..drawn(RegionId(0), v)
    };
    Ok(())
}

/// Inside `initial` it is the state's initial.
fn initial_for(inner: bool, s: StateId, t: TransitionId) -> Option<StatePlan>
    ensures { result ≡ (if inner then Some (initial_to s.0 t.0) else None) }
{
    if !inner {
        return None;
    }
    Some(StatePlan {
        at: s,
        initial: Some(t.0),
        ..StatePlan::default()
    })
}

/// Elsewhere it joins the state's transitions.
fn joins_for(inner: bool, s: StateId, t: TransitionId) -> Option<MemberPlan>
    ensures { result ≡ (if inner then None else Some (member ListKind.Transitions s.0 t.0)) }
{
    if inner {
        return None;
    }
    Some(MemberPlan {
        list: ListKind::Transitions,
        owner: s.0,
        value: t.0,
    })
}

/// "Transition: transition number, doc id, region number, targets." Where it is no initial, it joins the state's transitions.
#[tactic(auto, unfolding(plan::specs::Plans::transition_plan))]
fn transition_plan(inner: bool, content: RegionId, v: &Seen, q: &Heard) -> Plan
    requires { (v.now.ids < 65536) × (v.now.docs < 65536) }
    ensures { result ≡ transition_plan inner content.0 v.now q.now }
{
    let t = TransitionId(v.ids + 1);
    let region = RegionId(v.ids + 2);
    let row = NewTransition {
        number: t,
        doc: v.docs + 1,
        source: v.state,
        mode: q.mode,
        wildcard: q.wildcard,
        content,
        texts: Some(Shape::First),
    };
    let events = MemberPlan {
        list: ListKind::Events,
        owner: t.0,
        value: q.events,
    };
    let members = MembersPlan {
        words: Some(events),
        targets: Some(TargetPlan {
            owner: t.0,
            skip: 0,
        }),
        one: joins_for(inner, v.state, t),
        two: None,
    };
    Plan {
        states: initial_for(inner, v.state, t),
        transitions: TransitionPlan {
            added: Some(row),
            altered: None,
        },
        regions: one_region(region),
        members,
        pending: keeping(0),
        ..idle_in(inside(v.state, t), v)
    }
}

/// A transition needs a state, and inside `initial` one without an initial.
#[tactic(auto, unfolding(plan::specs::Plans::transition_by, plan::specs::Plans::unless_initial_p, plan::specs::Plans::unless_zero_p))]
fn transition(
    content: RegionId,
    current: RegionId,
    v: &Seen,
    q: &Heard,
    plan: &mut Plan,
) -> Decision
    requires { (v.now.ids < 65536) × (v.now.docs < 65536) }
    ensures { told (placed result plan.new) ≡ transition_by (λ inner. transition_plan inner content.0 v.now q.now ▷ on_counters (counting current.0 (suc (suc v.now.ids)) (suc v.now.docs))) v.now }
{
    needs(v.state.0, Refusal::OutOfOrder)?;
    let inner = v.parent == Tag::Initial.number();
    if inner && v.initial.0 != 0 {
        return Err(Refusal::InitialSet);
    }
    *plan = Plan {
        counters: counting(current, v.ids + 2, v.docs + 1),
        ..transition_plan(inner, content, v, q)
    };
    Ok(())
}

/// Its content is 0 until it ends.
#[tactic(auto, unfolding(plan::specs::Plans::start_transition_p, plan::specs::Plans::open_transition))]
#[inline(never)]
pub fn start_transition(v: &Seen, q: &Heard, plan: &mut Plan) -> Decision
    requires { (v.now.ids < 65536) × (v.now.docs < 65536) }
    ensures { told (placed result plan.new) ≡ start_transition_p v.now q.now }
{
    transition(RegionId(0), RegionId(v.ids + 2), v, q, plan)
}

/// Its region is its content, and no region is current.
#[tactic(auto, unfolding(plan::specs::Plans::both_transition_p, plan::specs::Plans::whole_transition))]
#[inline(never)]
pub fn both_transition(v: &Seen, q: &Heard, plan: &mut Plan) -> Decision
    requires { (v.now.ids < 65536) × (v.now.docs < 65536) }
    ensures { told (placed result plan.new) ≡ both_transition_p v.now q.now }
{
    transition(RegionId(v.ids + 2), RegionId(0), v, q, plan)
}

/// It gets its content.
#[tactic(auto, unfolding(plan::specs::Plans::end_transition_p, plan::specs::Plans::closed_p, plan::specs::Plans::unless_zero_p))]
#[inline(never)]
pub fn end_transition(v: &Seen, plan: &mut Plan) -> Decision
    ensures { told (placed result plan.new) ≡ end_transition_p v.now }
{
    let x = closed(v)?;
    needs(v.transition.0, Refusal::OutOfOrder)?;
    let row = TransitionChange {
        at: v.place,
        content: v.current,
    };
    *plan = Plan {
        transitions: TransitionPlan {
            added: None,
            altered: Some(row),
        },
        ..ended(x, v)
    };
    Ok(())
}

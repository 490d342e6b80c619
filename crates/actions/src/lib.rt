// Document 01, module 6, Actions: entries, if and foreach, else and elseif, script, send and invoke, param and content. From what is seen, by value, with no table.
// `both_` is start and end as one event.
// The public decisions are not put in line, where all their plans would meet in one place (docs/DECISIONS.md, 129).

#![tactic(auto)]

ghost use Rattle.std.specs.Prelude.{◌≡◌, ◌≢◌, ◌<◌, ℕ, Some, None, MatchResult};
ghost use Rattle.definition.specs.Rows.{entry_kind};
ghost use Rattle.plan.specs.declared.Plan.{Plan};
ghost use Rattle.definition.specs.Change.{◌▷◌};
ghost use Rattle.plan.specs.Plan.{planned, refused, on_invoke, on_state};
ghost use Rattle.plan.specs.Plans.{new_entry, else_to, invoke_filled, state_to, walked_p, unless_zero_p, of_last_send_p, of_last_invoke_p, of_donedata_p, begun, only_nest_p, entry_p, log_p, assign_p, root_script_p, script_p, send_p, block_plan, block_p, both_block_p, end_block_p, else_p, else_if_p, invoke_p, parameter_p, param_p, content_of_send_p, content_p};
ghost use Rattle.decision.specs.Told.{told, placed};

use decision::{
    Decision, begun, closed, counting, ended, keeping, needs, next_region, one_more, one_region,
    some_words,
};
use definition::codes::{EntryKind, ListKind, OwnerKind, Refusal, Tag};
use definition::{RegionId, StateId};
use plan::{
    ChartPlan, EntryChange, EntryPlan, Heard, InvokeChange, InvokePlan, MemberPlan, NewEntry,
    NewInvoke, OpenRegion, OpenRegionPlan, ParameterPlan, Plan, RegionPlan, Seen, Shape, StatePlan,
    Walked,
};

/// An element that only nests.
#[tactic(auto, unfolding(plan::specs::Plans::only_nest_p))]
#[inline(never)]
pub fn nest(v: &Seen, plan: &mut Plan) -> Decision
    ensures { told (placed result plan.new) ≡ only_nest_p v.now }
{
    *plan = begun(v);
    Ok(())
}

/// An entry is added, and no other altered.
fn added(row: NewEntry) -> EntryPlan
    ensures { result ≡ new_entry row.shape row.kind row.region.0 row.state.0 row.content.0 }
{
    EntryPlan {
        added: Some(row),
        altered: None,
    }
}

/// An entry gets its else region. `regions: finalize_to` is the same of an invoke: two types of row, and a trait for both is no plainer.
fn else_to(at: u32, region: RegionId) -> EntryPlan
    ensures { result ≡ else_to at region.0 }
{
    EntryPlan {
        added: None,
        altered: Some(EntryChange {
            at,
            other: Some(region.0),
            filled: false,
        }),
    }
}

// By name, so that a plan of two regions stays one line each.
fn left_open(region: RegionId, tag: Tag) -> OpenRegion
    ensures { (result.region ≡ region) × (result.tag ≡ tag) }
{
    OpenRegion { region, tag }
}

/// An entry that has nothing but its texts.
#[tactic(auto, unfolding(plan::specs::Plans::entry_p, plan::specs::Plans::unless_zero_p))]
fn entry(shape: Shape, kind: EntryKind, v: &Seen, plan: &mut Plan) -> Decision
    ensures { told (placed result plan.new) ≡ entry_p shape kind v.now }
{
    needs(v.current.0, Refusal::OutOfOrder)?;
    let row = NewEntry {
        kind,
        region: v.current,
        state: StateId(0),
        content: RegionId(0),
        shape,
    };
    *plan = Plan {
        entries: added(row),
        ..begun(v)
    };
    Ok(())
}

// raise, cancel, start_if and start_foreach each name their element: one function by kind would take a kind that only two have, and is no plainer.
#[inline(never)]
pub fn raise(v: &Seen, plan: &mut Plan) -> Decision
    ensures { told (placed result plan.new) ≡ entry_p Shape.First EntryKind.Raise v.now }
{
    entry(Shape::First, EntryKind::Raise, v, plan)
}

#[inline(never)]
pub fn cancel(v: &Seen, plan: &mut Plan) -> Decision
    ensures { told (placed result plan.new) ≡ entry_p Shape.First EntryKind.Cancel v.now }
{
    entry(Shape::First, EntryKind::Cancel, v, plan)
}

/// "Log without expr adds nothing."
#[tactic(auto, unfolding(plan::specs::Plans::log_p))]
#[inline(never)]
pub fn log(v: &Seen, q: &Heard, plan: &mut Plan) -> Decision
    ensures { told (placed result plan.new) ≡ log_p v.now q.now }
{
    if q.expr {
        return entry(Shape::First, EntryKind::Log, v, plan);
    }
    nest(v, plan)
}

/// An assign's text, where there is one, is its value.
#[tactic(auto, unfolding(plan::specs::Plans::assign_p))]
#[inline(never)]
pub fn assign(v: &Seen, q: &Heard, plan: &mut Plan) -> Decision
    ensures { told (placed result plan.new) ≡ assign_p v.now q.now }
{
    if q.whole {
        return entry(Shape::Second, EntryKind::Assign, v, plan);
    }
    entry(Shape::First, EntryKind::Assign, v, plan)
}

/// The root's script has a region of its own.
#[tactic(auto, unfolding(plan::specs::Plans::root_script_p))]
fn root_script(v: &Seen, plan: &mut Plan) -> Decision
    requires { v.now.ids < 65536 }
    ensures { told (placed result plan.new) ≡ root_script_p v.now }
{
    let region = next_region(v);
    let chart = ChartPlan {
        script: Some(region.0),
        ..ChartPlan::default()
    };
    let row = NewEntry {
        kind: EntryKind::Script,
        region,
        state: StateId(0),
        content: RegionId(0),
        shape: Shape::First,
    };
    *plan = Plan {
        chart: Some(chart),
        regions: one_region(region),
        entries: added(row),
        pending: keeping(0),
        counters: counting(RegionId(0), region.0, v.docs),
        ..begun(v)
    };
    Ok(())
}

#[tactic(auto, unfolding(plan::specs::Plans::script_p))]
#[inline(never)]
pub fn script(v: &Seen, plan: &mut Plan) -> Decision
    requires { v.now.ids < 65536 }
    ensures { told (placed result plan.new) ≡ script_p v.now }
{
    if v.parent == Tag::Scxml.number() {
        return root_script(v, plan);
    }
    entry(Shape::First, EntryKind::Script, v, plan)
}

/// A send keeps the state's number, and its namelist.
#[tactic(auto, unfolding(plan::specs::Plans::send_p, plan::specs::Plans::unless_zero_p))]
#[inline(never)]
pub fn send(v: &Seen, q: &Heard, plan: &mut Plan) -> Decision
    requires { v.now.entries < 65536 }
    ensures { told (placed result plan.new) ≡ send_p v.now q.now }
{
    needs(v.state.0, Refusal::OutOfOrder)?;
    needs(v.current.0, Refusal::OutOfOrder)?;
    let row = NewEntry {
        kind: EntryKind::Send,
        region: v.current,
        state: v.state,
        content: RegionId(0),
        shape: Shape::First,
    };
    let names = MemberPlan {
        list: ListKind::SendNames,
        owner: v.entries + 1,
        value: q.names,
    };
    *plan = Plan {
        entries: added(row),
        members: some_words(names),
        ..begun(v)
    };
    Ok(())
}

/// "if, foreach: entry, then its region."
#[tactic(auto, unfolding(plan::specs::Plans::block_plan))]
fn block_plan(kind: EntryKind, v: &Seen) -> Plan
    requires { v.now.ids < 65536 }
    ensures { result ≡ block_plan kind v.now }
{
    let region = next_region(v);
    let row = NewEntry {
        kind,
        region: v.current,
        state: StateId(0),
        content: region,
        shape: Shape::First,
    };
    Plan {
        entries: added(row),
        regions: one_region(region),
        ..begun(v)
    }
}

#[tactic(auto, unfolding(plan::specs::Plans::block_p, plan::specs::Plans::unless_zero_p))]
pub fn start_block(tag: Tag, kind: EntryKind, v: &Seen, plan: &mut Plan) -> Decision
    requires { v.now.ids < 65536 }
    ensures { told (placed result plan.new) ≡ block_p tag kind v.now }
{
    needs(v.current.0, Refusal::OutOfOrder)?;
    let region = next_region(v);
    *plan = Plan {
        pending: one_more(v.regions, left_open(v.current, tag)),
        counters: counting(region, region.0, v.docs),
        ..block_plan(kind, v)
    };
    Ok(())
}

#[inline(never)]
pub fn start_if(v: &Seen, plan: &mut Plan) -> Decision
    requires { v.now.ids < 65536 }
    ensures { told (placed result plan.new) ≡ block_p Tag.If EntryKind.If v.now }
{
    start_block(Tag::If, EntryKind::If, v, plan)
}

#[inline(never)]
pub fn start_foreach(v: &Seen, plan: &mut Plan) -> Decision
    requires { v.now.ids < 65536 }
    ensures { told (placed result plan.new) ≡ block_p Tag.Foreach EntryKind.Foreach v.now }
{
    start_block(Tag::Foreach, EntryKind::Foreach, v, plan)
}

#[tactic(auto, unfolding(plan::specs::Plans::both_block_p, plan::specs::Plans::unless_zero_p))]
fn both_block(kind: EntryKind, v: &Seen, plan: &mut Plan) -> Decision
    requires { v.now.ids < 65536 }
    ensures { told (placed result plan.new) ≡ both_block_p kind v.now }
{
    needs(v.current.0, Refusal::OutOfOrder)?;
    *plan = Plan {
        counters: counting(v.current, v.ids + 1, v.docs),
        ..block_plan(kind, v)
    };
    Ok(())
}

#[inline(never)]
pub fn both_if(v: &Seen, plan: &mut Plan) -> Decision
    requires { v.now.ids < 65536 }
    ensures { told (placed result plan.new) ≡ both_block_p EntryKind.If v.now }
{
    both_block(EntryKind::If, v, plan)
}

#[inline(never)]
pub fn both_foreach(v: &Seen, plan: &mut Plan) -> Decision
    requires { v.now.ids < 65536 }
    ensures { told (placed result plan.new) ≡ both_block_p EntryKind.Foreach v.now }
{
    both_block(EntryKind::Foreach, v, plan)
}

#[tactic(auto, unfolding(plan::specs::Plans::end_block_p, plan::specs::Plans::closed_p))]
#[inline(never)]
pub fn end_block(v: &Seen, plan: &mut Plan) -> Decision
    ensures { told (placed result plan.new) ≡ end_block_p v.now }
{
    *plan = ended(closed(v)?, v);
    Ok(())
}

/// The if that the walk met: its entry; 0 where no walk began.
#[tactic(auto, unfolding(plan::specs::Plans::walked_p))]
fn if_met(walk: Walked) -> Result<u32, Refusal>
    ensures { MatchResult result (λ at. (f : ℕ → Plan) → walked_p walk f ≡ planned (f at)) (λ refusal. ((f : ℕ → Plan) → walked_p walk f ≡ refused 14) × (refusal ≡ Refusal.NoIf)) }
{
    match walk {
        Walked::NoIf => Err(Refusal::NoIf),
        Walked::Nowhere => Ok(0),
        Walked::Met(at) => Ok(at),
    }
}

/// An else: its region is the else of the if that the walk met.
#[tactic(auto, unfolding(plan::specs::Plans::else_p, plan::specs::Plans::else_plan, plan::specs::Plans::closed_p))]
#[inline(never)]
pub fn start_else(v: &Seen, plan: &mut Plan) -> Decision
    requires { v.now.ids < 65536 }
    ensures { told (placed result plan.new) ≡ else_p v.now }
{
    let x = closed(v)?;
    let at = if_met(v.walk)?;
    let region = next_region(v);
    *plan = Plan {
        regions: one_region(region),
        entries: else_to(at, region),
        pending: one_more(x.kept, left_open(x.current, Tag::If)),
        counters: counting(region, region.0, v.docs),
        ..begun(v)
    };
    Ok(())
}

/// "elseif: the else region, then the content region." The else region holds one if.
#[tactic(auto, unfolding(plan::specs::Plans::else_if_p, plan::specs::Plans::else_if_plan, plan::specs::Plans::closed_p))]
#[inline(never)]
pub fn start_elseif(v: &Seen, plan: &mut Plan) -> Decision
    requires { v.now.ids < 65536 }
    ensures { told (placed result plan.new) ≡ else_if_p v.now }
{
    let x = closed(v)?;
    let at = if_met(v.walk)?;
    let other = next_region(v);
    let content = RegionId(v.ids + 2);
    let row = NewEntry {
        kind: EntryKind::If,
        region: other,
        state: StateId(0),
        content,
        shape: Shape::First,
    };
    *plan = Plan {
        regions: RegionPlan {
            one: Some(other),
            two: Some(content),
        },
        entries: EntryPlan {
            added: Some(row),
            ..else_to(at, other)
        },
        pending: OpenRegionPlan {
            two: Some(left_open(other, Tag::Elseif)),
            ..one_more(x.kept, left_open(x.current, Tag::If))
        },
        counters: counting(content, content.0, v.docs),
        ..begun(v)
    };
    Ok(())
}

#[tactic(auto, unfolding(plan::specs::Plans::invoke_p, plan::specs::Plans::unless_zero_p))]
#[inline(never)]
pub fn invoke(v: &Seen, q: &Heard, plan: &mut Plan) -> Decision
    requires { v.now.invokes < 65536 }
    ensures { told (placed result plan.new) ≡ invoke_p v.now q.now }
{
    needs(v.state.0, Refusal::OutOfOrder)?;
    let row = NewInvoke {
        state: v.state,
        autoforward: q.forward,
    };
    let names = MemberPlan {
        list: ListKind::InvokeNames,
        owner: v.invokes + 1,
        value: q.names,
    };
    *plan = Plan {
        invokes: InvokePlan {
            added: Some(row),
            altered: None,
        },
        members: some_words(names),
        ..begun(v)
    };
    Ok(())
}

/// The last entry of the current region is a send.
fn last_is_send(v: &Seen) -> Result<(), Refusal>
    ensures { MatchResult result (λ u. v.now.kind ≡ entry_kind.send) (λ refusal. (v.now.kind ≢ entry_kind.send) × (refusal ≡ Refusal.OutOfOrder)) }
{
    if v.kind != EntryKind::Send.number() {
        return Err(Refusal::OutOfOrder);
    }
    Ok(())
}

#[tactic(auto, unfolding(plan::specs::Plans::parameter_p))]
fn parameter(kind: OwnerKind, owner: u32, v: &Seen, plan: &mut Plan) -> Decision
    ensures { told (placed result plan.new) ≡ parameter_p kind owner v.now }
{
    *plan = Plan {
        parameters: Some(ParameterPlan { kind, owner }),
        ..begun(v)
    };
    Ok(())
}

#[tactic(auto, unfolding(plan::specs::Plans::of_last_send_p, plan::specs::Plans::unless_zero_p))]
fn param_of_send(v: &Seen, plan: &mut Plan) -> Decision
    ensures { told (placed result plan.new) ≡ unless_zero_p v.now.current.0 (of_last_send_p v.now (parameter_p OwnerKind.Send v.now.entry v.now)) }
{
    needs(v.current.0, Refusal::OutOfOrder)?;
    last_is_send(v)?;
    parameter(OwnerKind::Send, v.entry, v, plan)
}

#[tactic(auto, unfolding(plan::specs::Plans::of_last_invoke_p, plan::specs::Plans::unless_zero_p))]
fn param_of_invoke(v: &Seen, plan: &mut Plan) -> Decision
    ensures { told (placed result plan.new) ≡ of_last_invoke_p v.now (parameter_p OwnerKind.Invoke v.now.invoke v.now) }
{
    needs(v.state.0, Refusal::OutOfOrder)?;
    needs(v.invoke, Refusal::OutOfOrder)?;
    parameter(OwnerKind::Invoke, v.invoke, v, plan)
}

#[tactic(auto, using(decision::proofs::Laws::there, decision::proofs::Laws::not_there), unfolding(plan::specs::Plans::of_donedata_p))]
fn param_of_donedata(v: &Seen, plan: &mut Plan) -> Decision
    ensures { told (placed result plan.new) ≡ of_donedata_p v.now (parameter_p OwnerKind.Donedata v.now.state.0 v.now) }
{
    needs(v.state.0, Refusal::OutOfOrder)?;
    needs(v.donedata, Refusal::OutOfOrder)?;
    parameter(OwnerKind::Donedata, v.state.0, v, plan)
}

/// By the parent: send, invoke, or donedata.
#[tactic(auto, unfolding(plan::specs::Plans::param_p, plan::specs::Plans::by_parent_p))]
#[inline(never)]
pub fn param(v: &Seen, plan: &mut Plan) -> Decision
    ensures { told (placed result plan.new) ≡ param_p v.now }
{
    if v.parent == Tag::Send.number() {
        return param_of_send(v, plan);
    }
    if v.parent == Tag::Invoke.number() {
        return param_of_invoke(v, plan);
    }
    param_of_donedata(v, plan)
}

/// "Empty-element content without expr: donedata and invoke get a record, send doesn't."
#[tactic(auto, unfolding(plan::specs::Plans::content_of_send_p, plan::specs::Plans::of_last_send_p, plan::specs::Plans::send_content_p))]
fn content_of_send(v: &Seen, q: &Heard, plan: &mut Plan) -> Decision
    ensures { told (placed result plan.new) ≡ content_of_send_p v.now q.now }
{
    if v.current.0 == 0 {
        return nest(v, plan);
    }
    last_is_send(v)?;
    if !q.expr && !q.whole {
        return nest(v, plan);
    }
    let row = EntryChange {
        at: v.entry,
        other: None,
        filled: true,
    };
    *plan = Plan {
        entries: EntryPlan {
            added: None,
            altered: Some(row),
        },
        ..begun(v)
    };
    Ok(())
}

/// The invoke gets a content record.
#[tactic(auto, unfolding(plan::specs::Plans::of_last_invoke_p, plan::specs::Plans::unless_zero_p))]
fn content_of_invoke(v: &Seen, plan: &mut Plan) -> Decision
    ensures { told (placed result plan.new) ≡ of_last_invoke_p v.now (planned (begun v.now ▷ on_invoke (invoke_filled v.now.invoke))) }
{
    needs(v.state.0, Refusal::OutOfOrder)?;
    needs(v.invoke, Refusal::OutOfOrder)?;
    let row = InvokeChange {
        at: v.invoke,
        finalize: None,
        filled: true,
    };
    *plan = Plan {
        invokes: InvokePlan {
            added: None,
            altered: Some(row),
        },
        ..begun(v)
    };
    Ok(())
}

/// The final's donedata is a content, and has no parameters.
#[tactic(auto, using(decision::proofs::Laws::there, decision::proofs::Laws::not_there), unfolding(plan::specs::Plans::of_donedata_p))]
fn content_of_donedata(v: &Seen, plan: &mut Plan) -> Decision
    ensures { told (placed result plan.new) ≡ of_donedata_p v.now (planned (begun v.now ▷ on_state (Some (state_to v.now.state.0 (Some Shape.Third) None (Some 1))))) }
{
    needs(v.state.0, Refusal::OutOfOrder)?;
    needs(v.donedata, Refusal::OutOfOrder)?;
    let row = StatePlan {
        at: v.state,
        texts: Some(Shape::Third),
        filled: Some(1),
        ..StatePlan::default()
    };
    *plan = Plan {
        states: Some(row),
        ..begun(v)
    };
    Ok(())
}

/// By the parent: send, invoke, or donedata.
#[tactic(auto, unfolding(plan::specs::Plans::content_p, plan::specs::Plans::by_parent_p))]
#[inline(never)]
pub fn content(v: &Seen, q: &Heard, plan: &mut Plan) -> Decision
    ensures { told (placed result plan.new) ≡ content_p v.now q.now }
{
    if v.parent == Tag::Send.number() {
        return content_of_send(v, q, plan);
    }
    if v.parent == Tag::Invoke.number() {
        return content_of_invoke(v, plan);
    }
    content_of_donedata(v, plan)
}

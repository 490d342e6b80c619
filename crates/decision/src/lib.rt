// What every decision is made of: the plan that does nothing, the groups of a plan, and the test that something is there.

#![tactic(auto)]

ghost use Rattle.std.specs.Prelude.{◌≡◌, ◌<◌, suc, Some, None, MatchResult};
ghost use Rattle.plan.specs.Plan.{keeping, counting, inside};
ghost use Rattle.plan.specs.Plans.{idle_in, begun, ended, one_region, one_member, some_words, one_more};

use definition::codes::Refusal;
use definition::{RegionId, StateId, TransitionId};
use plan::{
    Closing, CounterPlan, MemberPlan, MembersPlan, OpenPlan, OpenRegion, OpenRegionPlan, Plan,
    RegionPlan, Seen,
};

/// The answer: what the event does is in the plan that is lent, or the question that is answered no. Plans are lent, since they are large and would be copied
/// from function to function.
pub type Decision = Result<(), Refusal>;

/// A test: what has a number is there, since 0 is no row's; else the refusal.
pub fn needs(number: u32, no: Refusal) -> Result<(), Refusal>
    ensures { MatchResult result (λ u. 0 < number) (λ refusal. (number ≡ 0) × (refusal ≡ no)) }
{
    if number == 0 {
        return Err(no);
    }
    Ok(())
}

/// The number drawn next, as a transition's.
pub fn next_transition(v: &Seen) -> TransitionId
    requires { v.now.ids < 65536 }
    ensures { result.0 ≡ suc v.now.ids }
{
    TransitionId(v.ids + 1)
}

/// The number drawn next, as a region's.
pub fn next_region(v: &Seen) -> RegionId
    requires { v.now.ids < 65536 }
    ensures { result.0 ≡ suc v.now.ids }
{
    RegionId(v.ids + 1)
}

/// The region that the element closes; where none is current it is an internal error.
pub fn closed(v: &Seen) -> Result<Closing, Refusal>
    ensures { MatchResult result (λ x. v.now.closed ≡ Some x) (λ refusal. (v.now.closed ≡ None) × (refusal ≡ Refusal.OutOfOrder)) }
{
    v.closed.ok_or(Refusal::OutOfOrder)
}

/// One member, and nothing else. `one_region` has the same shape over another type; a generic function would need a trait for one field and is no plainer.
pub fn one_member(member: MemberPlan) -> MembersPlan
    ensures { result ≡ one_member member.list member.owner member.value }
{
    MembersPlan {
        one: Some(member),
        ..MembersPlan::default()
    }
}

/// So many words of a list. It sets another field than `one_member`, which is all that they differ in.
pub fn some_words(words: MemberPlan) -> MembersPlan
    ensures { result ≡ some_words words.list words.owner words.value }
{
    MembersPlan {
        words: Some(words),
        ..MembersPlan::default()
    }
}

pub fn one_region(region: RegionId) -> RegionPlan
    ensures { result ≡ one_region region.0 }
{
    RegionPlan {
        one: Some(region),
        ..RegionPlan::default()
    }
}

/// So many of the open regions stay, and no other comes.
pub fn keeping(kept: u32) -> OpenRegionPlan
    ensures { result ≡ keeping kept }
{
    OpenRegionPlan {
        kept,
        ..OpenRegionPlan::default()
    }
}

/// So many stay, and a region is left open by an element.
pub fn one_more(kept: u32, left: OpenRegion) -> OpenRegionPlan
    ensures { result ≡ one_more kept left.region.0 left.tag }
{
    OpenRegionPlan {
        kept,
        one: Some(left),
        ..OpenRegionPlan::default()
    }
}

/// What is current inside the element.
pub fn inside(state: StateId, transition: TransitionId) -> OpenPlan
    ensures { result ≡ inside state.0 transition.0 }
{
    OpenPlan { state, transition }
}

pub fn counting(current: RegionId, ids: u32, docs: u32) -> CounterPlan
    ensures { result ≡ counting current.0 ids docs }
{
    CounterPlan { current, ids, docs }
}

/// The plan that does nothing.
#[tactic(auto, unfolding(plan::specs::Plans::idle_in))]
pub fn idle_in(opened: OpenPlan, v: &Seen) -> Plan
    ensures { result ≡ idle_in opened v.now }
{
    Plan {
        opened,
        pending: keeping(v.regions),
        counters: counting(v.current, v.ids, v.docs),
        ..Plan::default()
    }
}

/// A start that changes neither the state nor the transition.
#[tactic(auto, unfolding(plan::specs::Plans::begun))]
pub fn begun(v: &Seen) -> Plan
    ensures { result ≡ begun v.now }
{
    idle_in(inside(v.state, v.transition), v)
}

/// An end that does nothing.
pub fn rest(v: &Seen) -> Plan
    ensures { result ≡ idle_in (inside 0 0) v.now }
{
    idle_in(OpenPlan::default(), v)
}

/// An end that closes the element's region.
#[tactic(auto, unfolding(plan::specs::Plans::ended, plan::specs::Plans::idle_in))]
pub fn ended(x: Closing, v: &Seen) -> Plan
    ensures { result ≡ ended x v.now }
{
    Plan {
        pending: keeping(x.kept),
        counters: counting(x.current, v.ids, v.docs),
        ..rest(v)
    }
}

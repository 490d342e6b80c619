// The questions 5 to 15 of an event in form: the first no, or all that the event does. Nothing is written.

#![tactic(auto)]

ghost use Rattle.std.specs.Prelude.{◌≡◌, Ok, IfOk, MatchResult};
ghost use Rattle.definition.specs.Limits.{limits01};
ghost use Rattle.definition.specs.Codes.{refusal_number, outcome};
ghost use Rattle.plain.specs.Plain.{parsed_in};
ghost use Rattle.decision.specs.Told.{placed};
ghost use Rattle.rows.specs.Lent.{seen_of};
ghost use Rattle.plan.specs.Small.{Counted, Brought};
ghost use Rattle.decide.specs.Within.{within};
ghost use Rattle.settle.specs.Settled.{InForm, first_of, Settles};

use decide::{decide, stays_within};
use decision::Decision;
use definition::Position;
use definition::codes::Refusal;
use look::{Looked, look};
use plain::Plain;
use plan::{Effect, Plan};
use rows::lent::Tables;
use see::see;

/// The plan, or the first no: 15 is asked last, and only of an event that has a plan.
#[tactic(auto, unfolding(crate::specs::Settled::first_of))]
fn decided(l: Looked, p: Position, d: Decision, plan: &Plan) -> Result<(), Refusal>
    requires { IfOk (placed d plan.now) (λ plan. Counted p × Brought l.refs l.new l.charge plan) }
    ensures { let number = first_of (outcome l.asked) (placed d plan.now) (λ plan. within limits01 p l.refs l.new l.made l.charge plan) in MatchResult result (λ u. (number ≡ 0) × (placed d plan.now ≡ Ok plan.now)) (λ k. refusal_number k ≡ number) }
{
    l.asked?;
    d?;
    if !stays_within(p, l.refs, l.new, l.made, l.charge, plan) {
        return Err(Refusal::Full);
    }
    Ok(())
}

/// Of tables that are long enough and in order.
pub fn settle<'a>(
    tables: Tables<'_>,
    p: Position,
    src: &[u8],
    pl: &Plain,
    plan: &'a mut Plan,
) -> Result<Effect<'a>, Refusal>
    requires { InForm (seen_of tables) p (parsed_in src.now pl.now) }
    ensures { Settles (seen_of tables.entry) p (parsed_in src.now pl.now) result }
{
    let used = tables.in_use(p);
    let l = look(used, src, pl, p);
    let kind = pl.kind.number();
    let tag = pl.tag.number();
    let v = see(kind, tag, l.heard.own, p, used);
    let decision = decide(kind, tag, &v, &l.heard, plan);
    // `?` was tried: the proof does not close, since the refusal goes through its conversion and the clause is a law about it.
    match decided(l, p, decision, plan) {
        Err(refusal) => Err(refusal),
        Ok(()) => Ok(Effect {
            plan,
            made: l.made,
            charge: l.charge as u32,
        }),
    }
}

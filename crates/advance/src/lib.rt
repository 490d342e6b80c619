// The reading position after an accepted event, by the position's own methods where one element opens or ends, or a name is drawn.

#![tactic(auto)]

ghost use Rattle.std.specs.Prelude.{◌≡◌, ◌≤◌, ◌<◌, ◌+◌};
ghost use Rattle.definition.specs.Look.{one_if};
ghost use Rattle.plan.specs.Decided.{one_there};
ghost use Rattle.whole.specs.After.{opened_by, position_by, InRange};

use arena::Written;
use definition::Position;
use plan::Effect;

// One row more where there is one: a count is added up, so it is a number.
#[tactic(auto, unfolding(plan::specs::Decided::one_there))]
fn one<T: Copy>(row: Option<T>) -> u32
    ensures { (result ≡ one_there row) × (result ≤ 1) }
{
    u32::from(row.is_some())
}

// By the kind's number: `empty` and `whole` are a start and an end as one event, and a number past the last is an end.
#[tactic(auto, unfolding(whole::specs::After::opened_by, definition::specs::Position::pushed_at, definition::specs::Position::popped_at, definition::specs::Position::counting, definition::specs::Position::one_more))]
fn opened_after(kind: u32, p: Position) -> u32
    requires { kind ≡ 0 → p.opened < 32 }
    ensures { result ≡ opened_by kind p.opened }
{
    match kind {
        0 => p.push().opened,
        1 | 2 => p.opened,
        _ => p.pop().opened,
    }
}

#[tactic(auto, unfolding(definition::specs::Look::one_if, definition::specs::Position::name_drawn, definition::specs::Position::counting, definition::specs::Position::one_more))]
fn names_after(made: bool, p: Position) -> u32
    requires { p.names + one_if made ≤ 65535 }
    ensures { result ≡ p.names + one_if made }
{
    if made { p.draw_name().names } else { p.names }
}

/// By the event's kind, what it does, and what was written of its texts and names.
#[tactic(auto, unfolding(whole::specs::After::position_by))]
pub fn position_after(p: Position, kind: u32, effect: Effect<'_>, w: Written) -> Position
    requires { InRange p effect.plan.now kind effect.made effect.charge w }
    ensures { result ≡ position_by p effect.entry.plan.now kind effect.entry.made effect.entry.charge w }
{
    let q = effect.plan;
    Position {
        opened: opened_after(kind, p),
        states: w.states as u32,
        transitions: p.transitions + one(q.transitions.added),
        regions: p.regions + one(q.regions.one) + one(q.regions.two),
        entries: p.entries + one(q.entries.added),
        invokes: p.invokes + one(q.invokes.added),
        datums: p.datums + one(q.datums.added),
        parameters: p.parameters + one(q.parameters),
        members: w.members as u32 + one(q.members.one) + one(q.members.two),
        open_regions: q.pending.kept + one(q.pending.one) + one(q.pending.two),
        current: q.counters.current,
        ids: q.counters.ids,
        docs: q.counters.docs,
        names: names_after(effect.made, p),
        used: w.used as u32,
        charge: p.charge + effect.charge,
    }
}

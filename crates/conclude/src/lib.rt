// An event in form, of which the parts are at hand: the questions 5 to 15, and what an accepted event leaves. Slices are long enough and in order.

#![tactic(auto)]

ghost use Rattle.plain.specs.Plain.{parsed_in};
ghost use Rattle.rows.specs.Lent.{lent_of, SameLoans};
ghost use Rattle.settle.specs.Settled.{InForm};
ghost use Rattle.conclude.specs.Fed.{given, Answers};

use definition::Position;
use plain::Plain;
use plan::Plan;
use rows::lent::Lent;
use settle::settle;
use write::write;

// A number and no Result: C takes it as it is.
/// number: 0, or the first no; position: the one after an accepted event, else the one that came.
#[repr(C)]
#[derive(Clone, Copy)]
pub struct Answer {
    pub number: u32,
    pub position: Position,
}

/// An event whose parts stand unescaped in `src`. A refusal gives the position back as it came, and writes nothing.
pub fn feed_parsed(lent: &mut Lent<'_>, p: Position, src: &[u8], pl: &Plain) -> Answer
    requires { InForm (lent_of lent.old) p (parsed_in src.now pl.now) }
    ensures answers { Answers (lent_of lent.old) p (parsed_in src.now pl.now) (given result.number result.position (lent_of lent.new)) }
    ensures loans { SameLoans lent.old lent.new }
{
    let mut plan = Plan::default();
    match settle(lent.tables(), p, src, pl, &mut plan) {
        Err(refusal) => Answer {
            number: refusal.number(),
            position: p,
        },
        Ok(effect) => Answer {
            number: 0,
            position: write(lent, p, src, pl, effect),
        },
    }
}

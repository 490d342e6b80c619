// One event that is taken apart, on slices that are long enough and in order: its parts are read where they stand, or unescaped first.

#![tactic(auto)]

ghost use Rattle.std.specs.Prelude.{◌≡◌, length};
ghost use Rattle.definition.specs.Limits.{limits01};
ghost use Rattle.definition.specs.Reader as R;
ghost use Rattle.event.specs.Described.{described, described_by};
ghost use Rattle.plain.specs.Plain.{parsed_raw};
ghost use Rattle.rows.specs.Lent.{lent_of, SameLoans};
ghost use Rattle.questions.specs.Lent.{first_two};
ghost use Rattle.settle.specs.Settled.{InForm};
ghost use Rattle.conclude.specs.Fed.{given, Answers};

use conclude::{Answer, feed_parsed};
use definition::Position;
use event::Head;
use parts::Pair;
use plain::{Plain, plain_of, unescape_all};
use rows::lent::Lent;

// An event with an escape somewhere: its parts are unescaped first.
fn feed_copy(lent: &mut Lent<'_>, p: Position, raw: &[u8], d: Head, pairs: &[Pair; 16]) -> Answer
    requires pairs_value { described_by d pairs.now ≡ described raw.now }
    requires in_form { InForm (lent_of lent.old) p (parsed_raw raw.now (described_by d pairs.now)) }
    ensures answers { Answers (lent_of lent.old) p (parsed_raw raw.now (described_by d pairs.now)) (given result.number result.position (lent_of lent.new)) }
    ensures loans { SameLoans lent.old lent.new }
{
    let mut out = [0u8; Plain::COPY];
    let pl = unescape_all(&mut out, raw, d, pairs);
    feed_parsed(lent, p, &out, &pl)
}

/// The questions 5 to 15 of an event that is taken apart; 1 to 4 are yes. Most events have no escape and are read where they stand.
pub fn feed(lent: &mut Lent<'_>, p: Position, raw: &[u8], d: Head, pairs: &[Pair; 16]) -> Answer
    requires p_value { first_two (lent_of lent.old) p ≡ 0 }
    requires pairs_value { described_by d pairs.now ≡ described raw.now }
    ensures answer { given result.number result.position (lent_of lent.new) ≡ R.answer_to limits01 (lent_of lent.old) p (R.event raw.now) }
    ensures loans { SameLoans lent.old lent.new }
{
    let w = plain_of(d, pairs);
    if w.plain {
        return feed_parsed(lent, p, raw, &w.parts);
    }
    feed_copy(lent, p, raw, d, pairs)
}

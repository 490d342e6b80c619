// All that an accepted event does, written. Nothing here can fail: what is asked of the caller is that the event gets 0.

#![tactic(auto)]

ghost use Rattle.std.specs.Prelude.{◌≡◌, ◌<◌};
ghost use Rattle.plain.specs.Plain.{parsed_in};
ghost use Rattle.rows.specs.Lent.{lent_of, SameLoans};
ghost use Rattle.apply.specs.Applied.{rows_of};
ghost use Rattle.whole.specs.Accepted.{Ready};
ghost use Rattle.write.specs.Leaves.{Leaves};

use advance::position_after;
use apply::{apply, opened_name};
use arena::write_texts;
use definition::Position;
use fill::Texts;
use plain::{Plain, bytes_of};
use plan::{Effect, Element};
use rows::lent::Lent;

fn rows_of(p: Position, members: usize) -> Position
    requires { members < 65536 }
    ensures { result ≡ rows_of p members }
{
    Position {
        members: members as u32,
        ..p
    }
}

/// All that an accepted event does: its texts, words and names first, then a row here and there, by its plan.
pub fn write(
    lent: &mut Lent<'_>,
    p: Position,
    src: &[u8],
    pl: &Plain,
    effect: Effect<'_>,
) -> Position
    requires { Ready (lent_of lent.old) p (parsed_in src.now pl.now) effect.plan.now effect.made effect.charge }
    ensures leaves { Leaves (lent_of lent.old) p (parsed_in src.now pl.now) effect.entry.plan.now (lent_of lent.new) result }
    ensures loans { SameLoans lent.old lent.new }
{
    let mut t = [0u32; 64];
    let w = write_texts(
        lent.states,
        lent.members,
        lent.text,
        p,
        src,
        pl,
        effect.made,
        effect.plan.members,
        &mut t,
    );
    let texts = Texts {
        tag: pl.tag,
        cells: &t,
    };
    let element = Element {
        kind: pl.kind,
        tag: pl.tag,
    };
    let opened = opened_name(element, bytes_of(src, pl.name));
    apply(lent, texts, opened, rows_of(p, w.members), effect.plan);
    position_after(p, pl.kind.number(), effect, w)
}

// The reader: an event, a stream of events, a row. C and Rust call its functions through the static library of `reader_c`.

#![tactic(auto)]

ghost use Rattle.std.specs.Prelude.{◌≡◌};
ghost use Rattle.definition.specs.Limits.{limits01};
ghost use Rattle.definition.specs.Reader as R;
ghost use Rattle.rows.specs.Lent.{lent_of, seen_of, SameLoans};
ghost use Rattle.reading.specs.Bytes.{out_of, row_out};
ghost use Rattle.conclude.specs.Fed.{given};
ghost use Rattle.streams.specs.Stream.{ended};

use conclude::Answer;
use definition::Position;
use event::one_event;
use questions::asked;
use reading::read_row_bytes;
use rows::lent::{Lent, Tables};
use streams::{Streamed, feed_all};

/// One event, as a stream of one: the questions 1 to 15. Nothing changes with a refusal.
pub fn chart_event(lent: &mut Lent<'_>, p: Position, raw: &[u8]) -> Answer
    ensures answer { given result.number result.position (lent_of lent.new) ≡ R.call limits01 (lent_of lent.old) p (R.event raw.now) }
    ensures loans { SameLoans lent.old lent.new }
{
    if let Err(no) = asked(lent.tables(), p) {
        return Answer {
            number: no.number(),
            position: p,
        };
    }
    if let Err(no) = one_event(raw) {
        return Answer {
            number: no.number(),
            position: p,
        };
    }
    let fed = feed_all(lent, p, raw);
    Answer {
        number: fed.number,
        position: fed.position,
    }
}

/// The events of a stream one after another, up to the first refusal. A stream without an event is asked nothing.
pub fn chart_stream(lent: &mut Lent<'_>, p: Position, bytes: &[u8]) -> Streamed
    ensures stream { ended result.number result.event result.position (lent_of lent.new) ≡ R.stream limits01 (lent_of lent.old) p bytes.now }
    ensures loans { SameLoans lent.old lent.new }
{
    if bytes.is_empty() {
        return Streamed {
            number: 0,
            event: 0,
            position: p,
        };
    }
    if let Err(first) = asked(lent.tables(), p) {
        return Streamed {
            number: first.number(),
            event: 1,
            position: p,
        };
    }
    feed_all(lent, p, bytes)
}

/// A row by kind and number, as bytes. The kind is a number, as C gives it.
pub fn chart_read_row(
    tables: Tables<'_>,
    p: Position,
    kind: u32,
    number: u32,
    out: &mut [u8],
) -> u32
    ensures { out_of result out.new ≡ row_out (R.call limits01 (seen_of tables.entry) p (R.reading kind number)) out.old }
{
    read_row_bytes(tables, p, kind, number, out)
}

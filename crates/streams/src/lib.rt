// The events of a stream, one after another.

#![tactic(auto)]

ghost use Rattle.std.specs.Prelude.{◌≡◌};
ghost use Rattle.definition.specs.Limits.{limits01};
ghost use Rattle.definition.specs.Reader as R;
ghost use Rattle.rows.specs.Lent.{lent_of, SameLoans};
ghost use Rattle.questions.specs.Lent.{first_two};
ghost use Rattle.streams.specs.Stream.{ended};

use conclude::Answer;
use definition::Position;
use event::describe_next;
use feed::feed;
use lines::part_of;
use parts::no_pair;
use rows::lent::Lent;

// A number and no Result: C takes it as it is.
/// number: 0, or the first no of the event that is refused; event: its place from 1, 0 where all are accepted; position: the one before it.
#[repr(C)]
#[derive(Clone, Copy)]
pub struct Streamed {
    pub number: u32,
    pub event: usize,
    pub position: Position,
}

/// The questions 1 and 2 are yes. What an accepted event leaves is in order, so they are not asked again.
pub fn feed_all(lent: &mut Lent<'_>, p: Position, bytes: &[u8]) -> Streamed
    requires { first_two (lent_of lent.old) p ≡ 0 }
    ensures stream { ended result.number result.event result.position (lent_of lent.new) ≡ R.stream limits01 (lent_of lent.old) p bytes.now }
    ensures loans { SameLoans lent.old lent.new }
{
    let mut pairs = [no_pair(); 16];
    let mut q = p;
    let mut i = 0;
    let mut n = 0;
    // How long an event is, is known once it is taken apart, so no iterator gives the next.
    while i < bytes.len() {
        let x = describe_next(&bytes[i..], &mut pairs);
        let raw = part_of(bytes, i, x.end);
        n += 1;
        let d = match x.event {
            Ok(head) => head,
            Err(no) => {
                return Streamed {
                    number: no.number(),
                    event: n,
                    position: q,
                };
            }
        };
        let a = feed(lent, q, raw, d, &pairs);
        if a.number != 0 {
            return Streamed {
                number: a.number,
                event: n,
                position: q,
            };
        }
        q = a.position;
        i += x.end;
    }
    Streamed {
        number: 0,
        event: 0,
        position: q,
    }
}

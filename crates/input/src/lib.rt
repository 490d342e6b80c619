// Standard input, fed to the reader piece by piece.

#![tactic(auto)]

use definition::{Position, RegionId};
use pieces::Window;
use rows::lent::Lent;
use std::io::Stdin;

/// Why the input was not read to its end: a read failed, or an event was refused, with the first no and the event's place from 1.
#[derive(Clone, Copy)]
pub enum Stop {
    Failed,
    Refused { number: u32, event: u64 },
}

// Written out, since `Position` derives no `Default`.
fn start() -> Position {
    Position {
        opened: 0,
        states: 0,
        transitions: 0,
        regions: 0,
        entries: 0,
        invokes: 0,
        datums: 0,
        parameters: 0,
        members: 0,
        open_regions: 0,
        current: RegionId(0),
        ids: 0,
        docs: 0,
        names: 0,
        used: 0,
        charge: 0,
    }
}

/// The whole input, and the position after it. A loop that is proved has to end, and nothing says that the input does: it has more turns than any run uses up.
pub fn read_all(source: Stdin, lent: &mut Lent<'_>, buffer: &mut [u8]) -> Result<Position, Stop> {
    let mut window = Window::new(buffer);
    let mut position = start();
    let mut accepted: u64 = 0;
    for _ in 0..u64::MAX {
        let Ok(piece) = window.next_piece(source) else {
            return Err(Stop::Failed);
        };
        let fed = reader::chart_stream(lent, position, &window.buffer[..piece.end]);
        if fed.number != 0 {
            return Err(Stop::Refused {
                number: fed.number,
                event: accepted.saturating_add(fed.event as u64),
            });
        }
        position = fed.position;
        let Some(events) = piece.events else {
            return Ok(position);
        };
        accepted = accepted.saturating_add(events);
        window.done = piece.end;
    }
    Err(Stop::Failed)
}

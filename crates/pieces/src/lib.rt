// Standard input, read and cut piece by piece: a piece ends where an event does.

#![tactic(auto)]

ghost use Rattle.std.specs.Prelude.{◌-◌, ◌+◌, ◌≤◌, ◌<◌, length, take, drop, ◌≡◌, MatchOption, IfOk};
ghost use Rattle.lines.specs.Lines.{event_length};
ghost use Rattle.pieces.specs.Pieces.{Parted};
ghost use Rattle.pieces.specs.Windows.{SameBuffer};

use lines::next_event;
use std::io;
use std::io::{Read, Stdin};

// Where a stream's last event begins, and how many events stand before it.
#[derive(Clone, Copy)]
struct Last {
    at: usize,
    before: u64,
}

// Where the event behind the one at `at` begins.
fn event_after(stream: &[u8], at: usize) -> Option<usize>
    ensures { MatchOption result (length stream.now ≤ at + event_length (drop at stream.now)) (λ next. (next < length stream.now) × (next ≡ at + event_length (drop at stream.now))) }
{
    let next = next_event(stream, at);
    (next < stream.len()).then_some(next)
}

fn last_event(stream: &[u8]) -> Last
    ensures { Parted stream.now result.at result.before }
{
    let mut last = Last { at: 0, before: 0 };
    while let Some(at) = event_after(stream, last.at) {
        last = Last {
            at,
            before: last.before + 1,
        };
    }
    last
}

/// A lent buffer: how many of its bytes hold input, and how many of these are fed.
#[derive(Drop)]
pub struct Window<'a> {
    pub buffer: &'a mut [u8],
    pub held: usize,
    pub done: usize,
}

/// What is fed next: the buffer's first bytes up to `end`, with so many events where all are accepted; or all that is left, where the input ended.
#[derive(Clone, Copy)]
pub struct Piece {
    pub end: usize,
    pub events: Option<u64>,
}

impl<'a> Window<'a> {
    pub fn new(buffer: &'a mut [u8]) -> Window<'a>
        ensures same_loan { result.buffer.ghost_name ≡ buffer.entry.ghost_name }
        ensures same_bytes { result.buffer.now ≡ buffer.old }
        ensures empty { (result.held ≡ 0) × (result.done ≡ 0) }
    {
        Window {
            buffer,
            held: 0,
            done: 0,
        }
    }
}

impl Window<'_> {
    // What is held and not fed yet, moved to the front.
    fn drop_fed(&mut self)
        ensures same { SameBuffer self.old self.new }
        ensures within { self.new.held ≤ length self.new.buffer.now }
        ensures kept { self.old.done ≤ self.old.held → self.old.held ≤ length self.old.buffer.now → take self.new.held self.new.buffer.now ≡ take self.new.held (drop self.old.done self.old.buffer.now) }
    {
        if self.held < self.done || self.buffer.len() < self.held {
            self.held = 0;
            return;
        }
        self.buffer.copy_within(self.done..self.held, 0);
        self.held -= self.done;
    }

    // Reads until the buffer is full or the input ends; whether it ended. A loop with a condition, since a read may bring any number of bytes.
    fn fill(&mut self, mut source: Stdin) -> io::Result<bool>
        requires { self.old.held ≤ length self.old.buffer.now }
        ensures same { SameBuffer self.old self.new }
        ensures within { self.new.held ≤ length self.new.buffer.now }
    {
        while self.held < self.buffer.len() {
            let n = source.read(&mut self.buffer[self.held..])?;
            if n == 0 {
                return Ok(true);
            }
            self.held += n;
        }
        Ok(false)
    }

    /// The next piece of standard input. Where the input ended, all that is held is fed. Otherwise the last event may go on and is kept back; one that fills
    /// the buffer is longer than any that the reader takes.
    pub fn next_piece(&mut self, source: Stdin) -> io::Result<Piece>
        ensures same { SameBuffer self.old self.new }
        ensures within { IfOk result (λ piece. piece.end ≤ length self.new.buffer.now) }
    {
        self.drop_fed();
        let ended = self.fill(source)?;
        let held = self.held;
        if ended {
            return Ok(Piece {
                end: held,
                events: None,
            });
        }
        let last = last_event(&self.buffer[..held]);
        if last.at == 0 {
            return Ok(Piece {
                end: held,
                events: Some(1),
            });
        }
        Ok(Piece {
            end: last.at,
            events: Some(last.before),
        })
    }
}

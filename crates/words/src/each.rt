// The words of a value, one after another: two iterators, since the words of an event and those of states are parted by different bytes.

#![tactic(auto)]

ghost use Rattle.std.specs.Prelude.{◌≡◌};
ghost use Rattle.std.specs.Iterator.{YieldsFirstBy, item_count};
ghost use Rattle.definition.specs.Text.{is_space, is_separator};
ghost use Rattle.words.specs.Left.{words_left};

use crate::{next_event_word, next_state_word};

/// A word and where it begins.
#[derive(Clone, Copy)]
pub struct Found<'a> {
    pub off: usize,
    pub word: &'a [u8],
}

/// The words of an event value from a place on, as they are written.
#[derive(Drop)]
pub struct EventWords<'a> {
    pub v: &'a [u8],
    pub at: usize,
}

/// The words of targets, `initial` and namelists from a place on.
#[derive(Drop)]
pub struct StateWords<'a> {
    pub v: &'a [u8],
    pub at: usize,
}

impl<'a> Iterator for EventWords<'a> {
    type Item = Found<'a>;

    ghost next_gives = { YieldsFirstBy (λ w. record { off = w.off; word = w.word.now }) (λ s. words_left is_space s.v.now s.at) };

    ghost remaining = { item_count (λ s. words_left is_space s.v.now s.at) };

    fn next(&mut self) -> Option<Found<'a>> {
        let w = next_event_word(self.v, self.at);
        if w.start == w.end {
            return None;
        }
        self.at = w.end;
        Some(Found {
            off: w.start,
            word: &self.v[w.start..w.end],
        })
    }
}

impl<'a> Iterator for StateWords<'a> {
    type Item = Found<'a>;

    ghost next_gives = { YieldsFirstBy (λ w. record { off = w.off; word = w.word.now }) (λ s. words_left is_separator s.v.now s.at) };

    ghost remaining = { item_count (λ s. words_left is_separator s.v.now s.at) };

    fn next(&mut self) -> Option<Found<'a>> {
        let w = next_state_word(self.v, self.at);
        if w.start == w.end {
            return None;
        }
        self.at = w.end;
        Some(Found {
            off: w.start,
            word: &self.v[w.start..w.end],
        })
    }
}

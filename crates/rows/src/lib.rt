// Lent tables: the rows in use, cells, places, texts. Every read is total: past the end there is nothing, and a number there is 0.

#![tactic(auto)]

ghost use Rattle.std.specs.Prelude.{◌≡◌, ◌<◌, ◌^◌, [], get_or, take, set, None, Some, MatchOption, position, ◌==◌};
ghost use Rattle.definition.specs.Rows.{row_of, num, text_from};
ghost use Rattle.definition.specs.Actions.{place_of_number};
ghost use Rattle.rows.specs.Place.{row_at, altered};

use definition::cells::ChartColumn;
use definition::{RegionId, StateId, TransitionId};

pub mod lent;

/// The rows in use of a table, or the bytes of a text: the first n, as far as there are so many.
pub fn first<T>(rows: &[T], n: u32) -> &[T]
    ensures { result.now ≡ take n rows.now }
{
    leading(rows, n as usize)
}

/// The same, of a place.
pub fn leading<T>(rows: &[T], n: usize) -> &[T]
    ensures { result.now ≡ take n rows.now }
{
    &rows[..rows.len().min(n)]
}

/// Past the end nothing is written.
pub fn put<T: Copy>(rows: &mut [T], i: usize, row: T)
    ensures { rows.new ≡ set rows.old i row }
{
    if i < rows.len() {
        rows[i] = row;
    }
}

/// The row with a number, from 1, changed; of 0, and past the end, nothing is.
pub fn alter<T: Copy, F: FnOnce(T) -> T>(rows: &mut [T], number: u32, change: F)
    requires { F.IsAlwaysCallable change }
    ensures { (f : T → T) → ((row after : T) → F.post change row after → after ≡ f row) → rows.new ≡ altered number f rows.old }
{
    if number == 0 {
        return;
    }
    let i = number as usize - 1;
    if i < rows.len() {
        rows[i] = change(rows[i]);
    }
}

/// The row with a number, from 1.
pub fn row_of<T>(rows: &[T], number: u32) -> Option<&T>
    ensures { MatchOption result (row_at rows.now number ≡ None) (λ row. row_at rows.now number ≡ Some row.now) }
{
    rows.get((number as usize).checked_sub(1)?)
}

/// A cell of a state's row.
#[tactic(auto, using(crate::proofs::Laws::row_some, crate::proofs::Laws::row_none))]
pub fn state_cell(states: &[[u32; 24]], s: StateId, c: usize) -> u32
    requires { c < 24 }
    ensures { result ≡ num (row_of states.now s.0) c }
{
    match row_of(states, s.0) {
        Some(row) => row[c],
        None => 0,
    }
}

/// The chart's root; 0 where there is no row.
pub fn root_of(chart: &[[u32; 24]]) -> u32
    ensures { result ≡ num (get_or chart.now 0 []) 0 }
{
    match chart.first() {
        Some(row) => row[ChartColumn::ROOT],
        None => 0,
    }
}

// The row with a number of its own.
fn position_of(rows: &[[u32; 8]], number: u32) -> Option<usize>
    ensures { result ≡ position (λ row. num row 0 == number) rows.now }
{
    rows.iter().position(|row| row[0] == number)
}

// Its place, from 1; 0 where there is none.
#[tactic(auto, using(crate::proofs::Laws::place_some, crate::proofs::Laws::place_none))]
fn place_of(rows: &[[u32; 8]], number: u32) -> usize
    ensures { result ≡ place_of_number rows.now number }
{
    match position_of(rows, number) {
        Some(i) => i + 1,
        None => 0,
    }
}

pub fn transition_place(transitions: &[[u32; 8]], t: TransitionId) -> usize
    ensures { result ≡ place_of_number transitions.now t.0 }
{
    place_of(transitions, t.0)
}

pub fn region_place(regions: &[[u32; 8]], g: RegionId) -> usize
    ensures { result ≡ place_of_number regions.now g.0 }
{
    place_of(regions, g.0)
}

/// A text by its cell, its place plus one and its length; what runs past the end is cut off.
#[tactic(auto, using(crate::proofs::Laws::from_none, crate::proofs::Laws::from_some))]
pub fn text_from(text: &[u8], at: u32, len: u32) -> &[u8]
    ensures { result.now ≡ text_from text.now at len }
{
    if at == 0 {
        return &[];
    }
    first(&text[(at as usize - 1).min(text.len())..], len)
}

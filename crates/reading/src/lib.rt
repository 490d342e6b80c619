// A row by kind and number, as it is read: questions 1, 2 and 16. For C, its bytes.

#![tactic(auto)]

ghost use Rattle.std.specs.Prelude.{◌≡◌, ◌&&◌, [], ◌++◌, ◌≤◌, ◌<◌, length, drop, eqb, ltb};
ghost use Rattle.definition.specs.Limits.{limits01};
ghost use Rattle.definition.specs.Rows.{row_of, num};
ghost use Rattle.definition.specs.Actions.{place_of_number};
ghost use Rattle.definition.specs.Reader as R;
ghost use Rattle.rows.specs.Lent.{seen_of};
ghost use Rattle.reading.specs.Bytes.{row_bytes, row_length, out_of, row_out};
ghost use Rattle.reading.specs.Read.{kind_of, Decodes, reading_in, reading_of, placed, shown_with, RowAt, read_at, chart_read, parameter_read, own_place, Clean};

use definition::cells::{ChartColumn, EntryColumn, InvokeColumn, ParameterColumn, StateColumn};
use definition::codes::{OwnerKind, Refusal};
use definition::{Position, RegionId, StateId, TransitionId};
use questions::asked;
use rows::lent::Tables;
use rows::{region_place, state_cell, transition_place};

/// Kinds of row.
#[derive(Clone, Copy, PartialEq, Eq)]
pub enum RowKind {
    Chart,
    State,
    Transition,
    Region,
    Entry,
    Invoke,
    Datum,
    Parameter,
    Member,
}

impl TryFrom<u32> for RowKind {
    type Error = Refusal;

    ghost try_from_gives = { Decodes };

    fn try_from(kind: u32) -> Result<Self, Refusal> {
        match kind {
            0 => Ok(RowKind::Chart),
            1 => Ok(RowKind::State),
            2 => Ok(RowKind::Transition),
            3 => Ok(RowKind::Region),
            4 => Ok(RowKind::Entry),
            5 => Ok(RowKind::Invoke),
            6 => Ok(RowKind::Datum),
            7 => Ok(RowKind::Parameter),
            8 => Ok(RowKind::Member),
            _ => Err(Refusal::NoRow),
        }
    }
}

/// Lengths, and no kinds: a row as it is read has as many numbers as the widest table's and two for a name; as bytes it is four times as long.
pub const WIDTH: usize = 50;

pub const BYTES: usize = 200;

// Zeros stand behind a row; then the name of the state that it keeps. Of state 0 there is none.
fn show(row: &[u32], states: &[[u32; 24]], s: StateId) -> [u32; WIDTH]
    requires { length row.now ≤ 48 }
    ensures { result ≡ shown_with states.now s.0 row.now }
{
    let mut shown = [0u32; WIDTH];
    shown[..row.len()].copy_from_slice(row);
    shown[48] = state_cell(states, s, StateColumn::NAME);
    shown[49] = state_cell(states, s, StateColumn::NAME_LENGTH);
    shown
}

// Numbered by creation from 1; 0 where there is none.
fn place_in(count: usize, number: u32) -> usize
    ensures value { result ≡ placed count number }
    ensures upper_bound { result ≤ count }
{
    if count < number as usize {
        return 0;
    }
    number as usize
}

// The place lies within: past the end the definition has a row without cells, and the table none.
fn row_at<const N: usize>(rows: &[[u32; N]], place: usize) -> Result<[u32; N], Refusal>
    requires { place ≤ length rows.now }
    ensures { RowAt rows.now place result }
{
    if place == 0 {
        return Err(Refusal::NoRow);
    }
    Ok(rows[place - 1])
}

// A row that keeps no state.
fn at<const N: usize>(rows: &[[u32; N]], place: usize) -> Result<[u32; WIDTH], Refusal>
    requires width { N ≤ 48 }
    requires there { place ≤ length rows.now }
    ensures { reading_in result ≡ read_at [] 0 place (row_of rows.now place) }
{
    let row = row_at(rows, place)?;
    Ok(show(&row, &[], StateId(0)))
}

// A row that keeps a state in a column.
fn named_at<const N: usize>(
    rows: &[[u32; N]],
    place: usize,
    states: &[[u32; 24]],
    column: usize,
) -> Result<[u32; WIDTH], Refusal>
    requires width { N ≤ 48 }
    requires there { place ≤ length rows.now }
    requires within { column < N }
    ensures { reading_in result ≡ read_at states.now (num (row_of rows.now place) column) place (row_of rows.now place) }
{
    let row = row_at(rows, place)?;
    Ok(show(&row, states, StateId(row[column])))
}

// The chart's row is there from the first scxml on.
fn read_chart(chart: &[[u32; 24]], number: u32) -> Result<[u32; WIDTH], Refusal>
    ensures { reading_in result ≡ chart_read chart.now number }
{
    let place = place_in(chart.len(), number);
    if place == 0 {
        return Err(Refusal::NoRow);
    }
    if chart[0][ChartColumn::ROOT] == 0 {
        return Err(Refusal::NoRow);
    }
    at(chart, place)
}

// A row with a number of its own, which is never 0.
fn read_own(rows: &[[u32; 8]], number: u32, place: usize) -> Result<[u32; WIDTH], Refusal>
    requires { place ≡ place_of_number rows.now number }
    ensures { reading_in result ≡ read_at [] 0 (own_place rows.now number) (row_of rows.now (own_place rows.now number)) }
{
    if number == 0 {
        return Err(Refusal::NoRow);
    }
    at(rows, place)
}

// A parameter of a donedata that another replaced has left the chart.
fn has_left(row: [u32; 8], states: &[[u32; 24]], number: u32) -> bool
    ensures { result ≡ (eqb (num row 0) 3 && ltb number (num (row_of states.now (num row 1)) 8)) }
{
    (row[ParameterColumn::KIND] == OwnerKind::Donedata as u32)
        & (number
            < state_cell(
                states,
                StateId(row[ParameterColumn::OWNER]),
                StateColumn::DONEDATA,
            ))
}

fn read_parameter(
    parameters: &[[u32; 8]],
    states: &[[u32; 24]],
    number: u32,
) -> Result<[u32; WIDTH], Refusal>
    ensures { reading_in result ≡ parameter_read parameters.now states.now number }
{
    let place = place_in(parameters.len(), number);
    if place == 0 {
        return Err(Refusal::NoRow);
    }
    if has_left(parameters[place - 1], states, number) {
        return Err(Refusal::NoRow);
    }
    at(parameters, place)
}

// Question 16, of tables that are in use as a whole.
fn read(used: Tables<'_>, kind: RowKind, number: u32) -> Result<[u32; WIDTH], Refusal>
    ensures { Clean used.entry.chart.now used.entry.states.now used.entry.transitions.now used.entry.regions.now used.entry.entries.now used.entry.invokes.now used.entry.datums.now used.entry.parameters.now used.entry.members.now (kind_of kind) number (reading_in result) }
{
    match kind {
        RowKind::Chart => read_chart(used.chart, number),
        RowKind::State => at(used.states, place_in(used.states.len(), number)),
        RowKind::Transition => {
            let place = transition_place(used.transitions, TransitionId(number));
            read_own(used.transitions, number, place)
        }
        RowKind::Region => {
            let place = region_place(used.regions, RegionId(number));
            read_own(used.regions, number, place)
        }
        RowKind::Entry => {
            let place = place_in(used.entries.len(), number);
            named_at(used.entries, place, used.states, EntryColumn::STATE)
        }
        RowKind::Invoke => {
            let place = place_in(used.invokes.len(), number);
            named_at(used.invokes, place, used.states, InvokeColumn::STATE)
        }
        RowKind::Datum => at(used.datums, place_in(used.datums.len(), number)),
        RowKind::Parameter => read_parameter(used.parameters, used.states, number),
        RowKind::Member => at(used.members, place_in(used.members.len(), number)),
    }
}

/// A row by kind and number, or the first no of questions 1, 2 and 16. The kind is a number, as C gives it.
pub fn read_row(
    tables: Tables<'_>,
    p: Position,
    kind: u32,
    number: u32,
) -> Result<[u32; WIDTH], Refusal>
    ensures { reading_in result ≡ reading_of (R.call limits01 (seen_of tables.entry) p (R.reading kind number)) }
{
    asked(tables, p)?;
    let kind = RowKind::try_from(kind)?;
    read(tables.in_use(p), kind, number)
}

// A row's bytes at the start of a buffer.
fn put_row(row: [u32; WIDTH], out: &mut [u8])
    requires { row_length ≤ length out.old }
    ensures { out.new ≡ row_bytes row ++ drop row_length out.old }
{
    for (c, v) in row.iter().enumerate() {
        out[c * 4..c * 4 + 4].copy_from_slice(&v.to_le_bytes());
    }
}

/// The same for C: the row as 200 bytes, lowest byte first, zeros where it is refused; 1, and nothing written, where the buffer is too short for them.
pub fn read_row_bytes(
    tables: Tables<'_>,
    p: Position,
    kind: u32,
    number: u32,
    out: &mut [u8],
) -> u32
    ensures { out_of result out.new ≡ row_out (R.call limits01 (seen_of tables.entry) p (R.reading kind number)) out.old }
{
    if out.len() < BYTES {
        return 1;
    }
    match read_row(tables, p, kind, number) {
        Ok(row) => {
            put_row(row, out);
            0
        }
        Err(no) => {
            put_row([0u32; WIDTH], out);
            no.number()
        }
    }
}

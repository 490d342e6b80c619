// The reader for C and Rust, as a static library: a slice crosses as a pointer and a count, a position by value. Each function is the reader's of the same name.

#![tactic(auto)]

ghost use Rattle.std.specs.Prelude.{◌≡◌};
ghost use Rattle.definition.specs.Limits.{limits01};
ghost use Rattle.definition.specs.Reader as R;
ghost use Rattle.rows.specs.Lent.{tables, lent};
ghost use Rattle.reading.specs.Bytes.{out_of, row_out};
ghost use Rattle.conclude.specs.Fed.{given};
ghost use Rattle.streams.specs.Stream.{ended};

use conclude::Answer;
use definition::Position;
use rows::lent::{Lent, Tables};
use streams::Streamed;

/// One event, as a stream of one: the questions 1 to 15. Nothing changes with a refusal.
#[unsafe(no_mangle)]
pub extern "C" fn chart_event(
    chart: &mut [[u32; 24]],
    states: &mut [[u32; 24]],
    transitions: &mut [[u32; 8]],
    regions: &mut [[u32; 8]],
    entries: &mut [[u32; 48]],
    invokes: &mut [[u32; 24]],
    datums: &mut [[u32; 8]],
    parameters: &mut [[u32; 8]],
    members: &mut [[u32; 8]],
    opened: &mut [[u32; 8]],
    names: &mut [[u8; 64]],
    pending: &mut [[u32; 8]],
    text: &mut [u8],
    p: Position,
    raw: &[u8],
) -> Answer
    ensures { given result.number result.position (lent (tables chart.new states.new transitions.new regions.new entries.new invokes.new datums.new parameters.new members.new opened.new names.new pending.new) text.new) ≡ R.call limits01 (lent (tables chart.old states.old transitions.old regions.old entries.old invokes.old datums.old parameters.old members.old opened.old names.old pending.old) text.old) p (R.event raw.now) }
{
    let mut lent = Lent {
        chart,
        states,
        transitions,
        regions,
        entries,
        invokes,
        datums,
        parameters,
        members,
        opened,
        open_names: names,
        open_regions: pending,
        text,
    };
    reader::chart_event(&mut lent, p, raw)
}

/// The events of a stream one after another, up to the first refusal. A stream without an event is asked nothing.
#[unsafe(no_mangle)]
pub extern "C" fn chart_stream(
    chart: &mut [[u32; 24]],
    states: &mut [[u32; 24]],
    transitions: &mut [[u32; 8]],
    regions: &mut [[u32; 8]],
    entries: &mut [[u32; 48]],
    invokes: &mut [[u32; 24]],
    datums: &mut [[u32; 8]],
    parameters: &mut [[u32; 8]],
    members: &mut [[u32; 8]],
    opened: &mut [[u32; 8]],
    names: &mut [[u8; 64]],
    pending: &mut [[u32; 8]],
    text: &mut [u8],
    p: Position,
    bytes: &[u8],
) -> Streamed
    ensures { ended result.number result.event result.position (lent (tables chart.new states.new transitions.new regions.new entries.new invokes.new datums.new parameters.new members.new opened.new names.new pending.new) text.new) ≡ R.stream limits01 (lent (tables chart.old states.old transitions.old regions.old entries.old invokes.old datums.old parameters.old members.old opened.old names.old pending.old) text.old) p bytes.now }
{
    let mut lent = Lent {
        chart,
        states,
        transitions,
        regions,
        entries,
        invokes,
        datums,
        parameters,
        members,
        opened,
        open_names: names,
        open_regions: pending,
        text,
    };
    reader::chart_stream(&mut lent, p, bytes)
}

/// A row by kind and number, as bytes.
#[unsafe(no_mangle)]
pub extern "C" fn chart_read_row(
    chart: &[[u32; 24]],
    states: &[[u32; 24]],
    transitions: &[[u32; 8]],
    regions: &[[u32; 8]],
    entries: &[[u32; 48]],
    invokes: &[[u32; 24]],
    datums: &[[u32; 8]],
    parameters: &[[u32; 8]],
    members: &[[u32; 8]],
    opened: &[[u32; 8]],
    open_names: &[[u8; 64]],
    open_regions: &[[u32; 8]],
    text: &[u8],
    p: Position,
    kind: u32,
    number: u32,
    out: &mut [u8],
) -> u32
    ensures { out_of result out.new ≡ row_out (R.call limits01 (lent (tables chart.now states.now transitions.now regions.now entries.now invokes.now datums.now parameters.now members.now opened.now open_names.now open_regions.now) text.now) p (R.reading kind number)) out.old }
{
    let tables = Tables {
        chart,
        states,
        transitions,
        regions,
        entries,
        invokes,
        datums,
        parameters,
        members,
        opened,
        open_names,
        open_regions,
        text,
    };
    reader::chart_read_row(tables, p, kind, number, out)
}

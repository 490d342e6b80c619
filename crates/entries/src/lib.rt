// Entries, invokes, data and parameters, written as a plan says: one function a table. n rows are in use.
// The three that add a row and alter one are not one generic function: it would take a closure for each row and each place, and is no plainer than two steps.
// A closure takes the element and its texts apart: what a closure ensures that holds a struct with a reference is not told to its caller. A row lent by its number in
// place of the closure was tried, and the proof that the table ends as that row does not close.

#![tactic(auto)]

ghost use Rattle.std.specs.Prelude.{◌≡◌};
ghost use Rattle.definition.specs.Codes.{tag_number};
ghost use Rattle.plan.specs.After as A;
ghost use Rattle.entries.specs.Whole.{shaped_if_by, recorded_by, new_entry, old_entry, new_invoke, old_invoke, new_datum, old_datum, new_parameter, entries_in, invokes_in, datums_in, parameters_in};

use definition::cells::{DatumColumn, EntryColumn, InvokeColumn, ParameterColumn};
use fill::Texts;
use plan::{
    DatumChange, DatumPlan, EntryChange, EntryPlan, InvokeChange, InvokePlan, NewDatum, NewEntry,
    NewInvoke, ParameterPlan, Shape,
};
use rows::{alter, put};

/// A column's new value; none keeps it. `tables: put_if` does the same to a table's rows; its clause is of tables, this one's of a row, and one function with both is no plainer.
#[tactic(auto, unfolding(plan::specs::After::put))]
pub fn put_column(row: &mut [u32], c: usize, v: Option<u32>)
    ensures { row.new ≡ A.put c v row.old }
{
    if let Some(v) = v {
        put(row, c, v);
    }
}

/// The texts of a shape; none keeps them.
#[tactic(auto, unfolding(crate::specs::Whole::shaped_if_by, crate::specs::Whole::texts_by))]
pub fn fill_if(row: &mut [u32], texts: Texts<'_>, shape: Option<Shape>)
    ensures { row.new ≡ shaped_if_by texts.entry.cells.now (tag_number texts.entry.tag) shape row.old }
{
    if let Some(shape) = shape {
        texts.fill(row, shape);
    }
}

// A content record in the column c, if the row is filled by one.
#[tactic(auto, unfolding(crate::specs::Whole::recorded_by, crate::specs::Whole::texts_by))]
fn fill_record(row: &mut [u32], texts: Texts<'_>, shape: Shape, c: usize, filled: bool)
    ensures { row.new ≡ recorded_by texts.entry.cells.now (tag_number texts.entry.tag) shape c filled row.old }
{
    if filled {
        texts.fill(row, shape);
        put(row, c, 1);
    }
}

#[tactic(auto, unfolding(crate::specs::Whole::new_entry, crate::specs::Whole::texts_by))]
fn entry_row(p: &NewEntry, texts: Texts<'_>) -> [u32; 48]
    ensures { result ≡ new_entry texts.entry.cells.now (tag_number texts.entry.tag) p.now }
{
    let mut row = [0u32; 48];
    row[EntryColumn::REGION] = p.region.0;
    row[EntryColumn::KIND] = p.kind.number();
    row[EntryColumn::STATE] = p.state.0;
    row[EntryColumn::CONTENT] = p.content.0;
    texts.fill(&mut row, p.shape);
    row
}

#[tactic(auto, unfolding(crate::specs::Whole::old_entry))]
fn entry_changed(mut row: [u32; 48], p: &EntryChange, texts: Texts<'_>) -> [u32; 48]
    ensures { result ≡ old_entry texts.entry.cells.now (tag_number texts.entry.tag) p.now row }
{
    put_column(&mut row, EntryColumn::ELSE, p.other);
    fill_record(
        &mut row,
        texts,
        Shape::First,
        EntryColumn::HAS_CONTENT,
        p.filled,
    );
    row
}

#[tactic(auto, unfolding(crate::specs::Whole::entries_in, plan::specs::After::altered_if, tables::specs::Whole::added_in))]
pub fn change_entries(entries: &mut [[u32; 48]], n: usize, p: &EntryPlan, texts: Texts<'_>)
    ensures { entries.new ≡ entries_in texts.entry.cells.now (tag_number texts.entry.tag) p.now n entries.old }
{
    if let Some(new) = &p.added {
        put(entries, n, entry_row(new, texts));
    }
    let Some(change) = &p.altered else { return };
    let Texts { tag, cells } = texts;
    alter(
        entries,
        change.at,
        |row|
            ensures { result ≡ old_entry cells.entry.now (tag_number tag) change.entry.now row }
        { entry_changed(row, change, Texts { tag, cells }) },
    );
}

#[tactic(auto, unfolding(crate::specs::Whole::new_invoke, crate::specs::Whole::texts_by))]
fn invoke_row(p: &NewInvoke, texts: Texts<'_>) -> [u32; 24]
    ensures { result ≡ new_invoke texts.entry.cells.now (tag_number texts.entry.tag) p.now }
{
    let mut row = [0u32; 24];
    row[InvokeColumn::STATE] = p.state.0;
    row[InvokeColumn::AUTOFORWARD] = p.autoforward;
    texts.fill(&mut row, Shape::First);
    row
}

#[tactic(auto, unfolding(crate::specs::Whole::old_invoke))]
fn invoke_changed(mut row: [u32; 24], p: &InvokeChange, texts: Texts<'_>) -> [u32; 24]
    ensures { result ≡ old_invoke texts.entry.cells.now (tag_number texts.entry.tag) p.now row }
{
    put_column(&mut row, InvokeColumn::FINALIZE, p.finalize);
    fill_record(
        &mut row,
        texts,
        Shape::Second,
        InvokeColumn::HAS_CONTENT,
        p.filled,
    );
    row
}

#[tactic(auto, unfolding(crate::specs::Whole::invokes_in, plan::specs::After::altered_if, tables::specs::Whole::added_in))]
pub fn change_invokes(invokes: &mut [[u32; 24]], n: usize, p: &InvokePlan, texts: Texts<'_>)
    ensures { invokes.new ≡ invokes_in texts.entry.cells.now (tag_number texts.entry.tag) p.now n invokes.old }
{
    if let Some(new) = &p.added {
        put(invokes, n, invoke_row(new, texts));
    }
    let Some(change) = &p.altered else { return };
    let Texts { tag, cells } = texts;
    alter(
        invokes,
        change.at,
        |row|
            ensures { result ≡ old_invoke cells.entry.now (tag_number tag) change.entry.now row }
        { invoke_changed(row, change, Texts { tag, cells }) },
    );
}

#[tactic(auto, unfolding(crate::specs::Whole::new_datum, crate::specs::Whole::texts_by))]
fn datum_row(p: &NewDatum, texts: Texts<'_>) -> [u32; 8]
    ensures { result ≡ new_datum texts.entry.cells.now (tag_number texts.entry.tag) p.now }
{
    let mut row = [0u32; 8];
    row[DatumColumn::STATE] = p.state.0;
    texts.fill(&mut row, p.shape);
    row
}

#[tactic(auto, unfolding(crate::specs::Whole::old_datum, crate::specs::Whole::texts_by))]
fn datum_changed(mut row: [u32; 8], p: &DatumChange, texts: Texts<'_>) -> [u32; 8]
    ensures { result ≡ old_datum texts.entry.cells.now (tag_number texts.entry.tag) p.now row }
{
    texts.fill(&mut row, p.shape);
    row
}

#[tactic(auto, unfolding(crate::specs::Whole::datums_in, plan::specs::After::altered_if, tables::specs::Whole::added_in))]
pub fn change_datums(datums: &mut [[u32; 8]], n: usize, p: &DatumPlan, texts: Texts<'_>)
    ensures { datums.new ≡ datums_in texts.entry.cells.now (tag_number texts.entry.tag) p.now n datums.old }
{
    if let Some(new) = &p.added {
        put(datums, n, datum_row(new, texts));
    }
    let Some(change) = &p.altered else { return };
    let Texts { tag, cells } = texts;
    alter(
        datums,
        change.at,
        |row|
            ensures { result ≡ old_datum cells.entry.now (tag_number tag) change.entry.now row }
        { datum_changed(row, change, Texts { tag, cells }) },
    );
}

#[tactic(auto, unfolding(crate::specs::Whole::new_parameter, crate::specs::Whole::texts_by))]
fn parameter_row(p: &ParameterPlan, texts: Texts<'_>) -> [u32; 8]
    ensures { result ≡ new_parameter texts.entry.cells.now (tag_number texts.entry.tag) p.now }
{
    let mut row = [0u32; 8];
    row[ParameterColumn::KIND] = p.kind.number();
    row[ParameterColumn::OWNER] = p.owner;
    texts.fill(&mut row, Shape::First);
    row
}

#[tactic(auto, unfolding(crate::specs::Whole::parameters_in, tables::specs::Whole::added_in))]
pub fn change_parameters(
    parameters: &mut [[u32; 8]],
    n: usize,
    p: &Option<ParameterPlan>,
    texts: Texts<'_>,
)
    ensures { parameters.new ≡ parameters_in texts.entry.cells.now (tag_number texts.entry.tag) p.now n parameters.old }
{
    if let Some(new) = p {
        put(parameters, n, parameter_row(new, texts));
    }
}

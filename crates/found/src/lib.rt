// The rows that an event finds: the data that it repeats, the innermost open element by its name.

#![tactic(auto)]

ghost use Rattle.std.specs.Prelude.{◌≡◌, position};
ghost use Rattle.definition.specs.Look.{find_datum, is_innermost};
ghost use Rattle.plain.specs.Plain.{parsed_in};
ghost use Rattle.found.specs.Found.{is_datum, found_in};

use definition::cells::{DatumColumn, OpenColumn};
use definition::codes::{Key, Tag};
use names::is_at;
use plain::indexed::Indexed;
use text::same_at;

#[tactic(auto, using(crate::proofs::FoundLaws::datum_here, crate::proofs::FoundLaws::datum_not))]
fn is_datum(row: [u32; 8], text: &[u8], state: u32, w: &[u8]) -> bool
    ensures { result ≡ is_datum text.now row state w.now }
{
    row[DatumColumn::STATE] == state
        && is_at(text, row[DatumColumn::ID], row[DatumColumn::ID_LENGTH], w)
}

// The row with this state and id.
fn datum_index(datums: &[[u32; 8]], text: &[u8], state: u32, w: &[u8]) -> Option<usize>
    ensures { result ≡ position (λ row. is_datum text.now row state w.now) datums.now }
{
    datums.iter().position(|row| is_datum(*row, text, state, w))
}

// Its number, from 1; the next one if there is none.
#[tactic(auto, using(crate::proofs::FoundLaws::datum_some, crate::proofs::FoundLaws::datum_none))]
fn find_datum(datums: &[[u32; 8]], text: &[u8], state: u32, w: &[u8]) -> usize
    ensures { result ≡ find_datum text.now datums.now state w.now }
{
    match datum_index(datums, text, state, w) {
        Some(i) => i + 1,
        None => datums.len() + 1,
    }
}

// Of data; 0 of other elements.
pub fn found(datums: &[[u32; 8]], text: &[u8], state: u32, event: &Indexed<'_>) -> usize
    ensures { result ≡ found_in text.now datums.now state (parsed_in event.now.src.now event.now.plain.now) }
{
    if event.plain.tag != Tag::Data {
        return 0;
    }
    find_datum(datums, text, state, event.value(Key::Id))
}

// Whether the innermost open element has this name: a known one by its tag, which is a number as the row has it (C lends rows of numbers).
pub fn is_innermost(opened: &[[u32; 8]], names: &[[u8; 64]], tag: u32, name: &[u8]) -> bool
    ensures { result ≡ is_innermost opened.now names.now tag name.now }
{
    let Some(row) = opened.last() else {
        return false;
    };
    let Some(kept) = names.get(opened.len() - 1) else {
        return false;
    };
    if row[OpenColumn::TAG] != tag {
        return false;
    }
    if tag != Tag::Unknown as u32 {
        return true;
    }
    same_at(kept, 0, row[OpenColumn::LENGTH] as usize, name)
}

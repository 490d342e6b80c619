// Question 2 beside the columns: numbers that rise, names that are distinct, open elements.

#![tactic(auto)]

ghost use Rattle.std.specs.Prelude.{◌≡◌, ◌||◌, not, ◌<◌, ◌≤◌, length, replicate, eqb};
ghost use Rattle.definition.specs.Limits.{limits01};
ghost use Rattle.definition.specs.Text as T;
ghost use Rattle.definition.specs.Rows.{free, num, text_from};
ghost use Rattle.definition.specs.Look.{find_name, name_cells};
ghost use Rattle.definition.specs.Rules as R;
ghost use Rattle.columns.specs.Rising.{Rising};
ghost use Rattle.columns.specs.Sees.{RowTest};
ghost use Rattle.order.specs.Hash.{hash_from, hash_of, Hashed};

use columns::numbered::Known;
use definition::Chart;
use definition::cells::{OpenColumn, OpenRegionColumn, StateColumn};
use definition::codes::Tag;
use elements::tag_of;
use rows::text_from;
use text::same;

/// Numbers rise along a table.
pub fn rises(t: &[[u32; 8]]) -> bool
    ensures { result ≡ R.rises 0 t.now }
{
    let mut low = 0;
    for row in t {
        if row[0] <= low {
            return false;
        }
        low = row[0];
    }
    true
}

/// No row's number is one of the others': both tables rise, so one walk along both shows it. It is a loop with a condition, since either place may move on.
pub fn none_in(others: &[[u32; 8]], t: &[[u32; 8]]) -> bool
    requires { Rising others.now × Rising t.now }
    ensures { result ≡ R.none_in others.now t.now }
{
    let mut i = 0;
    let mut j = 0;
    while i < t.len() {
        if others.len() <= j {
            return true;
        }
        if others[j][0] == t[i][0] {
            return false;
        }
        if others[j][0] < t[i][0] {
            j += 1;
        } else {
            i += 1;
        }
    }
    true
}

// A number that equal names share.
fn hash(name: &[u8]) -> u32
    ensures { result ≡ hash_of name.now }
{
    let mut h = 0;
    for b in name {
        h = h % 16777216 * 31 + u32::from(*b);
    }
    h
}

// The place of the first state with a name, from 0; the number of states where none has it.
fn find_name(text: &[u8], states: &[[u32; 24]], hashes: &[u32], h: u32, name: &[u8]) -> usize
    requires hashed { Hashed text.now states.now hashes.now }
    requires h_value { h ≡ hash_of name.now }
    ensures { result ≡ find_name text.now (name_cells states.now) name.now }
{
    for (i, row) in states.iter().enumerate() {
        // Names of another hash are not looked at.
        if hashes[i] == h
            && same(
                text_from(text, row[StateColumn::NAME], row[StateColumn::NAME_LENGTH]),
                name,
            )
        {
            return i;
        }
    }
    states.len()
}

/// Each state's name leads to it: no state before has the same.
pub fn names_lead(text: &[u8], states: &[[u32; 24]]) -> bool
    requires { length states.now ≤ limits01.states }
    ensures { result ≡ R.names_lead text.now (name_cells states.now) 0 (name_cells states.now) }
{
    let mut hashes = [0u32; Chart::STATES as usize];
    for (i, row) in states.iter().enumerate() {
        let name = text_from(text, row[StateColumn::NAME], row[StateColumn::NAME_LENGTH]);
        let h = hash(name);
        if find_name(text, &states[..i], &hashes, h, name) != i {
            return false;
        }
        hashes[i] = h;
    }
    true
}

// By a row's number: C lends rows of numbers.
fn is_block(tag: u32) -> bool
    ensures { result ≡ R.is_block tag }
{
    (tag == Tag::If as u32) | (tag == Tag::Foreach as u32)
}

/// How many rows have if or foreach in a column.
pub fn blocks_in(c: usize, t: &[[u32; 8]]) -> usize
    requires { c < 8 }
    ensures { result ≡ R.blocks_in c t.now }
{
    t.iter().filter(|row| is_block(row[c])).count()
}

/// An open region is an if's or a foreach's, or an elseif's directly above an if's.
pub fn open_tags_fit(t: &[[u32; 8]]) -> bool
    ensures { result ≡ R.open_tags_fit 0 t.now }
{
    let mut below = 0;
    for row in t {
        let tag = row[OpenRegionColumn::TAG];
        if !(is_block(tag) | ((tag == Tag::Elseif as u32) & (below == Tag::If as u32))) {
            return false;
        }
        below = tag;
    }
    true
}

fn unknown_fits(row: [u32; 8], name: &[u8]) -> bool
    requires { length name.now ≡ 64 }
    ensures { result ≡ R.unknown_fits limits01 row name.now }
{
    let n = row[OpenColumn::LENGTH] as usize;
    if n < 1 {
        return false;
    }
    if (Chart::NAME as usize) < n {
        return false;
    }
    tag_of(&name[..n]).number() == 0
}

// A known name is kept by its tag alone.
fn open_name_fits(row: [u32; 8], name: [u8; 64]) -> bool
    ensures { result ≡ (not (eqb (num row 0) 0) || R.unknown_fits limits01 row name) }
{
    if row[OpenColumn::TAG] != 0 {
        return true;
    }
    unknown_fits(row, &name)
}

/// An open unknown name has 1 to 64 bytes and is no known name; there are as many names as open elements.
pub fn open_names_fit(opened: &[[u32; 8]], names: &[[u8; 64]]) -> bool
    ensures { result ≡ R.open_names_fit limits01 opened.now names.now }
{
    if opened.len() != names.len() {
        return false;
    }
    for (i, row) in opened.iter().enumerate() {
        if !open_name_fits(*row, names[i]) {
            return false;
        }
    }
    true
}

/// An open name's bytes are free.
pub fn name_keeps(row: [u8; 64], k: &Known) -> bool
    ensures { RowTest k.now (replicate 64 free) row result }
{
    true
}

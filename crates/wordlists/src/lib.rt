// An event's words as members of a list: a transition's events, the names of a send and of an invoke.

#![tactic(auto)]

ghost use Rattle.std.specs.Prelude.{◌≡◌, ◌+◌, ◌≤◌, length};
ghost use Rattle.definition.specs.Codes.{list_number, tag_number};
ghost use Rattle.words.specs.Next.{parted_by, next_word};
ghost use Rattle.fill.specs.Fill.{as_cell};
ghost use Rattle.wordlists.specs.Words.{set_all, kept, list_cells, word_member, word_members, cells_at, word_rows_of};

use definition::codes::{Key, Tag};
use fill::{TextCell, Texts};
use plan::MemberPlan;
use rows::{put, text_from};
use texts::key_cell;
use words::{Word, next_event_word, next_state_word, stripped_len};

#[tactic(auto, using(crate::proofs::Laws::next_events, crate::proofs::Laws::next_states))]
fn next_in(v: &[u8], at: usize, events: bool) -> Word
    ensures { result ≡ next_word (parted_by events) v.now at }
{
    if events {
        next_event_word(v, at)
    } else {
        next_state_word(v, at)
    }
}

#[tactic(auto, using(crate::proofs::Laws::kept_events, crate::proofs::Laws::kept_states))]
fn kept_len(w: &[u8], events: bool) -> usize
    ensures { result ≡ length (kept events w.now) }
{
    if events { stripped_len(w) } else { w.len() }
}

#[tactic(auto, unfolding(crate::specs::Words::word_member, fill::specs::Fill::as_cell, fill::specs::Fill::cell))]
fn word_row(p: MemberPlan, word: TextCell) -> [u32; 8]
    ensures { result ≡ word_member (list_number p.list) p.owner (as_cell word) }
{
    [p.list.number(), p.owner, 0, word.at, word.len, 0, 0, 0]
}

// The words of a value that lies at `base` in the text, as members of a list, from the row `used` on; where they end.
fn add_words(
    members: &mut [[u32; 8]],
    used: usize,
    v: &[u8],
    base: usize,
    p: MemberPlan,
    events: bool,
) -> usize
    requires { (used ≤ 65535) × (base + length v.now ≤ 65535) }
    ensures value { result ≡ used + length (list_cells events base v.now) }
    ensures members_after { members.new ≡ set_all members.old used (word_members (list_number p.list) p.owner (list_cells events base v.now)) }
{
    let mut m = used;
    let mut at = 0;
    // By place: the iterators over words of events and of states are two types, and a loop over either would be written twice.
    while at < v.len() {
        let next = next_in(v, at, events);
        if next.start == next.end {
            return m;
        }
        let word = TextCell {
            at: (base + next.start + 1) as u32,
            len: kept_len(&v[next.start..next.end], events) as u32,
        };
        put(members, m, word_row(p, word));
        m += 1;
        at = next.end;
    }
    m
}

// The words of one text, as members of a list.
fn add_list(
    members: &mut [[u32; 8]],
    used: usize,
    text: &[u8],
    c: TextCell,
    p: MemberPlan,
    events: bool,
) -> usize
    requires { (used ≤ 65535) × (length text.now ≤ 65535) }
    ensures value { result ≡ used + length (cells_at events text.now (as_cell c)) }
    ensures members_after { members.new ≡ set_all members.old used (word_members (list_number p.list) p.owner (cells_at events text.now (as_cell c))) }
{
    if c.at == 0 {
        return used;
    }
    let base = c.at as usize - 1;
    if text.len() < base {
        return used;
    }
    add_words(members, used, text_from(text, c.at, c.len), base, p, events)
}

/// The words of an element, from the row `used` on; where they end.
#[tactic(auto, using(crate::proofs::ListLaws::members_length), unfolding(crate::specs::Words::word_rows_of, crate::specs::Words::word_cells, crate::specs::Words::set_all))]
pub fn write_words(
    members: &mut [[u32; 8]],
    used: usize,
    text: &[u8],
    texts: Texts<'_>,
    p: Option<MemberPlan>,
) -> usize
    requires { (used ≤ 65535) × (length text.now ≤ 65535) }
    ensures value { result ≡ used + length (word_rows_of (tag_number texts.entry.tag) text.now texts.entry.cells.now p) }
    ensures members_after { members.new ≡ set_all members.old used (word_rows_of (tag_number texts.entry.tag) text.now texts.entry.cells.now p) }
{
    let Some(words) = p else {
        return used;
    };
    if texts.tag == Tag::Transition {
        let events = key_cell(texts.cells, Key::Event as usize);
        return add_list(members, used, text, events, words, true);
    }
    let names = key_cell(texts.cells, Key::Namelist as usize);
    add_list(members, used, text, names, words, false)
}

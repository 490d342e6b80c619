// Question 2, column by column: does a number keep its class? Transitions and regions are searched by halves, since their numbers rise.

#![tactic(auto)]

ghost use Rattle.std.specs.Prelude.{◌≡◌, ◌&&◌, ◌||◌, not, suc, ◌+◌, ◌*◌, ◌/◌, ◌≤◌, length, eqb, leb, ltb};
ghost use Rattle.definition.specs.Rows.{num};
ghost use Rattle.definition.specs.Rules.{is_inside};
ghost use Rattle.definition.specs.Actions.{place_of_number};
ghost use Rattle.columns.specs.Rising.{Rising, Reaches};
ghost use Rattle.columns.specs.Cells.{texts_inside, zeros_from};
ghost use Rattle.columns.specs.Sees.{ChoiceTest};

pub mod numbered;

use definition::codes::{EntryKind, ListKind, OwnerKind};
use definition::{RegionId, StateId, TransitionId};
use numbered::Known;

// A text is absent, 0 0, or lies inside the text stored.
pub fn inside(used: u32, at: u32, len: u32) -> bool
    ensures { result ≡ is_inside used at len }
{
    (u64::from(at) + u64::from(len) <= u64::from(used) + 1) & ((at != 0) | (len == 0))
}

// 1 where a number is not below another, else 0: computed, since a branch on it is guessed wrong every second time in a search. `usize::from` of the comparison
// becomes such a branch too: question 2 on full tables takes 512 microseconds with it, and 283 without. The library's searches branch as well.
fn reaches(number: u32, other: u32) -> usize
    ensures { Reaches number other result }
{
    ((u64::from(number) + 4294967296 - u64::from(other)) / 4294967296) as usize
}

// Whether a row has the number, by halves: a loop with a condition, since the library's searches branch.
fn has_number(rows: &[[u32; 8]], number: u32) -> bool
    requires { Rising rows.now }
    ensures { result ≡ leb 1 (place_of_number rows.now number) }
{
    if rows.is_empty() {
        return false;
    }
    let mut base = 0;
    let mut size = rows.len();
    while 1 < size {
        let half = size / 2;
        base += half * reaches(number, rows[base + half][0]);
        size -= half;
    }
    rows[base][0] == number
}

fn is_numbered(rows: &[[u32; 8]], number: u32) -> bool
    requires { Rising rows.now }
    ensures { result ≡ (not (eqb number 0) && leb 1 (place_of_number rows.now number)) }
{
    if number == 0 {
        return false;
    }
    has_number(rows, number)
}

// A run of texts. Each is asked, also behind one that is wrong: a run without a branch is unrolled.
pub fn texts(cells: &[u32], used: u32) -> bool
    ensures { result ≡ texts_inside used cells.now 0 (length cells.now / 2) }
{
    let mut keeps = true;
    for i in 0..cells.len() / 2 {
        keeps &= inside(used, cells[2 * i], cells[2 * i + 1]);
    }
    keeps
}

// A run of spare columns.
pub fn zeros(cells: &[u32]) -> bool
    ensures { result ≡ zeros_from cells.now 0 (length cells.now) }
{
    let mut keeps = true;
    for cell in cells {
        keeps &= *cell == 0;
    }
    keeps
}

// 0, or the number of a row that is numbered by creation.
fn up_to(v: u32, count: u32) -> bool
    ensures { result ≡ (eqb v 0 || (leb 1 v && leb v count)) }
{
    v <= count
}

// 0, or one more than a count that was once reached.
pub fn up_to_next(v: u32, count: u32) -> bool
    ensures { result ≡ leb v (suc count) }
{
    v.saturating_sub(1) <= count
}

// A test for each type of number that a column keeps: the types keep states, transitions and regions apart, and a generic test would have to undo that.
impl<'a> Known<'a> {
    pub fn is_state(&self, s: StateId) -> bool
        ensures { result ≡ (leb 1 s.0 && leb s.0 self.now.states) }
    {
        (1 <= s.0) & (s.0 <= self.states)
    }

    pub fn state_or_zero(&self, s: StateId) -> bool
        ensures { result ≡ (eqb s.0 0 || (leb 1 s.0 && leb s.0 self.now.states)) }
    {
        up_to(s.0, self.states)
    }

    // Two types of number, so that one given for the other does not compile (a rule of the project).
    pub fn transition_or_zero(&self, t: TransitionId) -> bool
        ensures { result ≡ (eqb t.0 0 || (not (eqb t.0 0) && leb 1 (place_of_number self.now.transitions.now t.0))) }
    {
        (t.0 == 0) | is_numbered(self.transitions, t.0)
    }

    pub fn region_or_zero(&self, g: RegionId) -> bool
        ensures { result ≡ (eqb g.0 0 || (not (eqb g.0 0) && leb 1 (place_of_number self.now.regions.now g.0))) }
    {
        (g.0 == 0) | is_numbered(self.regions, g.0)
    }

    // 0, or a region above the one that holds the entry.
    fn region_above(&self, g: RegionId, holder: RegionId) -> bool
        ensures { result ≡ (eqb g.0 0 || ((not (eqb g.0 0) && leb 1 (place_of_number self.now.regions.now g.0)) && ltb holder.0 g.0)) }
    {
        (g.0 == 0) | (is_numbered(self.regions, g.0) & (holder.0 < g.0))
    }

    // Here and in the next four a kind, an owner and a list are numbers, as rows hold them: C lends rows of numbers.
    /// Content by the entry's kind: above in an if and a foreach, 0 or existing in the others.
    pub fn content_keeps(&self, kind: u32, g: RegionId, holder: RegionId) -> bool
        ensures { ChoiceTest self.now 0 kind holder.0 g.0 result }
    {
        let Ok(kind) = EntryKind::try_from(kind) else {
            return true;
        };
        match kind {
            EntryKind::If | EntryKind::Foreach => self.region_above(g, holder),
            _ => self.region_or_zero(g),
        }
    }

    /// Else likewise: above in an if only.
    pub fn else_keeps(&self, kind: u32, g: RegionId, holder: RegionId) -> bool
        ensures { ChoiceTest self.now 1 kind holder.0 g.0 result }
    {
        let Ok(kind) = EntryKind::try_from(kind) else {
            return true;
        };
        match kind {
            EntryKind::If => self.region_above(g, holder),
            _ => self.region_or_zero(g),
        }
    }

    /// Whose parameter it is.
    pub fn parameter_owner_keeps(&self, kind: u32, v: u32) -> bool
        ensures { ChoiceTest self.now 2 kind kind v result }
    {
        let Ok(kind) = OwnerKind::try_from(kind) else {
            return true;
        };
        match kind {
            OwnerKind::Send => up_to(v, self.entries),
            OwnerKind::Invoke => up_to(v, self.invokes),
            OwnerKind::Donedata => self.state_or_zero(StateId(v)),
        }
    }

    /// Whose list it is: five are a state's, targets and event words a transition's, namelists an entry's and an invoke's.
    pub fn member_owner_keeps(&self, list: u32, v: u32) -> bool
        ensures { ChoiceTest self.now 3 list list v result }
    {
        let Ok(list) = ListKind::try_from(list) else {
            return true;
        };
        match list {
            ListKind::Targets | ListKind::Events => self.transition_or_zero(TransitionId(v)),
            ListKind::SendNames => up_to(v, self.entries),
            ListKind::InvokeNames => up_to(v, self.invokes),
            _ => self.state_or_zero(StateId(v)),
        }
    }

    /// Children, histories and targets are states, onentry and onexit regions, then transitions. A word has no number.
    pub fn member_value_keeps(&self, list: u32, v: u32) -> bool
        ensures { ChoiceTest self.now 4 list list v result }
    {
        let Ok(list) = ListKind::try_from(list) else {
            return true;
        };
        match list {
            ListKind::Children | ListKind::History | ListKind::Targets => {
                self.is_state(StateId(v))
            }
            ListKind::Onentry | ListKind::Onexit => is_numbered(self.regions, v),
            ListKind::Transitions => is_numbered(self.transitions, v),
            _ => v == 0,
        }
    }
}

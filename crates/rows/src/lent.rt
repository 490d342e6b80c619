// What is lent: the chart's tables and its text, to be written or only read.

ghost use Rattle.std.specs.Prelude.{◌≡◌};
ghost use Rattle.rows.specs.Lent.{lent_of, seen_of, SameLoans, RowsInUse};

use crate::first;
use definition::Position;

/// The tables and the text, lent to be written.
#[derive(Drop)]
pub struct Lent<'a> {
    pub chart: &'a mut [[u32; 24]],
    pub states: &'a mut [[u32; 24]],
    pub transitions: &'a mut [[u32; 8]],
    pub regions: &'a mut [[u32; 8]],
    pub entries: &'a mut [[u32; 48]],
    pub invokes: &'a mut [[u32; 24]],
    pub datums: &'a mut [[u32; 8]],
    pub parameters: &'a mut [[u32; 8]],
    pub members: &'a mut [[u32; 8]],
    pub opened: &'a mut [[u32; 8]],
    pub open_names: &'a mut [[u8; 64]],
    pub open_regions: &'a mut [[u32; 8]],
    pub text: &'a mut [u8],
}

/// The same, lent to be read.
#[derive(Clone, Copy)]
pub struct Tables<'a> {
    pub chart: &'a [[u32; 24]],
    pub states: &'a [[u32; 24]],
    pub transitions: &'a [[u32; 8]],
    pub regions: &'a [[u32; 8]],
    pub entries: &'a [[u32; 48]],
    pub invokes: &'a [[u32; 24]],
    pub datums: &'a [[u32; 8]],
    pub parameters: &'a [[u32; 8]],
    pub members: &'a [[u32; 8]],
    pub opened: &'a [[u32; 8]],
    pub open_names: &'a [[u8; 64]],
    pub open_regions: &'a [[u32; 8]],
    pub text: &'a [u8],
}

impl Lent<'_> {
    pub fn tables(&self) -> Tables<'_>
        ensures { seen_of result ≡ lent_of self.now }
    {
        Tables {
            chart: self.chart,
            states: self.states,
            transitions: self.transitions,
            regions: self.regions,
            entries: self.entries,
            invokes: self.invokes,
            datums: self.datums,
            parameters: self.parameters,
            members: self.members,
            opened: self.opened,
            open_names: self.open_names,
            open_regions: self.open_regions,
            text: self.text,
        }
    }
}

impl<'a> Tables<'a> {
    /// The rows that are in use at a position, and as much of the text.
    pub fn in_use(self, p: Position) -> Tables<'a>
        ensures { RowsInUse self.entry p result }
    {
        Tables {
            chart: first(self.chart, 1),
            states: first(self.states, p.states),
            transitions: first(self.transitions, p.transitions),
            regions: first(self.regions, p.regions),
            entries: first(self.entries, p.entries),
            invokes: first(self.invokes, p.invokes),
            datums: first(self.datums, p.datums),
            parameters: first(self.parameters, p.parameters),
            members: first(self.members, p.members),
            opened: first(self.opened, p.opened),
            open_names: first(self.open_names, p.opened),
            open_regions: first(self.open_regions, p.open_regions),
            text: first(self.text, p.used),
        }
    }
}

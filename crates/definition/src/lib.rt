#![tactic(auto)]

ghost use Rattle.std.specs.Prelude.{◌≡◌};
ghost use Rattle.definition.specs.Limits.{limits01};
ghost use Rattle.definition.specs.Position.{one_more, pushed_at, popped_at, id_drawn, doc_drawn, name_drawn};

pub mod cells;
pub mod codes;

/// The chart type: its associated constants are the limits of document 01, numbers that the C header has too, and no kinds.
#[derive(Clone, Copy)]
pub struct Chart {}

/// The limits as one value, as definitions and proofs take them.
#[derive(Clone, Copy)]
pub struct Limits {
    pub name: u32,
    pub attributes: u32,
    pub key: u32,
    pub value: u32,
    pub text: u32,
    pub opened: u32,
    pub states: u32,
    pub transitions: u32,
    pub regions: u32,
    pub entries: u32,
    pub invokes: u32,
    pub datums: u32,
    pub parameters: u32,
    pub members: u32,
    pub drawn: u32,
    pub charge: u32,
}

impl Chart {
    pub const NAME: u32 = 64;

    pub const ATTRIBUTES: u32 = 16;

    pub const KEY: u32 = 64;

    pub const VALUE: u32 = 1_024;

    pub const TEXT: u32 = 4_096;

    pub const EVENT: u32 = 49_152;

    pub const OPENED: u32 = 32;

    pub const STATES: u32 = 256;

    pub const TRANSITIONS: u32 = 512;

    pub const REGIONS: u32 = 512;

    pub const ENTRIES: u32 = 2_048;

    pub const INVOKES: u32 = 64;

    pub const DATA: u32 = 256;

    pub const PARAMETERS: u32 = 512;

    pub const MEMBERS: u32 = 4_096;

    pub const DRAWN: u32 = 65_535;

    pub const CHARGE: u32 = 65_535;

    pub fn limits() -> Limits
        ensures { result ≡ limits01 }
    {
        Limits {
            name: Chart::NAME,
            attributes: Chart::ATTRIBUTES,
            key: Chart::KEY,
            value: Chart::VALUE,
            text: Chart::TEXT,
            opened: Chart::OPENED,
            states: Chart::STATES,
            transitions: Chart::TRANSITIONS,
            regions: Chart::REGIONS,
            entries: Chart::ENTRIES,
            invokes: Chart::INVOKES,
            datums: Chart::DATA,
            parameters: Chart::PARAMETERS,
            members: Chart::MEMBERS,
            drawn: Chart::DRAWN,
            charge: Chart::CHARGE,
        }
    }
}

/// Numbers of rows are three types: one given for another does not compile. To C each is its number.
#[repr(C)]
#[derive(Clone, Copy, Default)]
pub struct StateId(pub u32);

#[repr(C)]
#[derive(Clone, Copy, Default)]
pub struct TransitionId(pub u32);

#[repr(C)]
#[derive(Clone, Copy, Default)]
pub struct RegionId(pub u32);

/// The reading position, which goes in by value and comes back: how many rows of each table are in use, how many elements and regions are open, the current
/// region, what was drawn from each counter, how much of the text is in use, and the text charge.
#[repr(C)]
#[derive(Clone, Copy)]
pub struct Position {
    pub opened: u32,
    pub states: u32,
    pub transitions: u32,
    pub regions: u32,
    pub entries: u32,
    pub invokes: u32,
    pub datums: u32,
    pub parameters: u32,
    pub members: u32,
    pub open_regions: u32,
    pub current: RegionId,
    pub ids: u32,
    pub docs: u32,
    pub names: u32,
    pub used: u32,
    pub charge: u32,
}

#[tactic(auto, unfolding(crate::specs::Position::one_more))]
fn one_more(limit: u32, n: u32) -> u32
    ensures { result ≡ one_more limit n }
{
    if n < limit {
        return n + 1;
    }
    n
}

// The steps of the counters; each names its field.
impl Position {
    /// One element more is open.
    #[tactic(auto, unfolding(crate::specs::Position::pushed_at))]
    pub fn push(self) -> Position
        ensures { result ≡ pushed_at limits01 self }
    {
        Position {
            opened: one_more(Chart::OPENED, self.opened),
            ..self
        }
    }

    /// The innermost element is closed.
    #[tactic(auto, unfolding(crate::specs::Position::popped_at))]
    pub fn pop(self) -> Position
        ensures { result ≡ popped_at self }
    {
        Position {
            opened: self.opened.saturating_sub(1),
            ..self
        }
    }

    /// A number for a transition or a region is drawn: one counter numbers both.
    #[tactic(auto, unfolding(crate::specs::Position::id_drawn))]
    pub fn draw_id(self) -> Position
        ensures { result ≡ id_drawn limits01 self }
    {
        Position {
            ids: one_more(Chart::DRAWN, self.ids),
            ..self
        }
    }

    #[tactic(auto, unfolding(crate::specs::Position::doc_drawn))]
    pub fn draw_doc(self) -> Position
        ensures { result ≡ doc_drawn limits01 self }
    {
        Position {
            docs: one_more(Chart::DRAWN, self.docs),
            ..self
        }
    }

    #[tactic(auto, unfolding(crate::specs::Position::name_drawn))]
    pub fn draw_name(self) -> Position
        ensures { result ≡ name_drawn limits01 self }
    {
        Position {
            names: one_more(Chart::DRAWN, self.names),
            ..self
        }
    }

    /// The number drawn last, as a transition's.
    pub fn transition(self) -> TransitionId
        ensures { result.0 ≡ self.ids }
    {
        TransitionId(self.ids)
    }

    /// The number drawn last, as a region's.
    pub fn region(self) -> RegionId
        ensures { result.0 ≡ self.ids }
    {
        RegionId(self.ids)
    }
}

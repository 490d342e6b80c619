// Columns of the tables, by name. A text takes two: its place in the text plus one, and its length. They are numbers, since C lends rows of numbers.

/// The chart's one row.
#[derive(Clone, Copy)]
pub struct ChartColumn {}

impl ChartColumn {
    pub const ROOT: usize = 0;

    pub const SCRIPT: usize = 1;

    pub const BINDING: usize = 2;
}

#[derive(Clone, Copy)]
pub struct StateColumn {}

impl StateColumn {
    pub const NAME: usize = 0;

    pub const NAME_LENGTH: usize = 1;

    pub const DOC: usize = 2;

    pub const INITIAL: usize = 3;

    pub const PARENT: usize = 4;

    pub const PARALLEL: usize = 5;

    pub const FINAL: usize = 6;

    pub const HISTORY: usize = 7;

    pub const DONEDATA: usize = 8;

    pub const HAS_CONTENT: usize = 9;
}

#[derive(Clone, Copy)]
pub struct TransitionColumn {}

impl TransitionColumn {
    pub const NUMBER: usize = 0;

    pub const DOC: usize = 1;

    pub const SOURCE: usize = 2;

    pub const TYPE: usize = 3;

    pub const WILDCARD: usize = 4;

    pub const CONTENT: usize = 5;
}

/// The columns before the texts.
#[derive(Clone, Copy)]
pub struct EntryColumn {}

impl EntryColumn {
    pub const REGION: usize = 0;

    pub const KIND: usize = 1;

    pub const STATE: usize = 2;

    pub const CONTENT: usize = 3;

    pub const ELSE: usize = 4;

    pub const HAS_CONTENT: usize = 5;
}

/// The columns before the texts.
#[derive(Clone, Copy)]
pub struct InvokeColumn {}

impl InvokeColumn {
    pub const STATE: usize = 0;

    pub const AUTOFORWARD: usize = 1;

    pub const FINALIZE: usize = 2;

    pub const HAS_CONTENT: usize = 3;
}

#[derive(Clone, Copy)]
pub struct DatumColumn {}

impl DatumColumn {
    pub const STATE: usize = 0;

    pub const ID: usize = 1;

    pub const ID_LENGTH: usize = 2;
}

#[derive(Clone, Copy)]
pub struct ParameterColumn {}

impl ParameterColumn {
    pub const KIND: usize = 0;

    pub const OWNER: usize = 1;
}

#[derive(Clone, Copy)]
pub struct MemberColumn {}

impl MemberColumn {
    pub const LIST: usize = 0;

    pub const OWNER: usize = 1;

    pub const VALUE: usize = 2;
}

/// An open element.
#[derive(Clone, Copy)]
pub struct OpenColumn {}

impl OpenColumn {
    pub const TAG: usize = 0;

    pub const STATE: usize = 1;

    pub const TRANSITION: usize = 2;

    pub const LENGTH: usize = 3;
}

#[derive(Clone, Copy)]
pub struct OpenRegionColumn {}

impl OpenRegionColumn {
    pub const REGION: usize = 0;

    pub const TAG: usize = 1;
}

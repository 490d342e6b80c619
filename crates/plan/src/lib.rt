// What one event does: a group for each table of the chart; and all that is seen of the store to decide it.

#![tactic(auto)]

ghost use Rattle.std.specs.Prelude.{◌≡◌};
ghost use Rattle.definition.specs.Codes.{kind_number, tag_number};
ghost use Rattle.plan.specs.Ids.{shape_number, mode_number, kind_counted, tag_counted};

use definition::codes::{EntryKind, Kind, ListKind, OwnerKind, Tag};
use definition::{RegionId, StateId, TransitionId};

/// An event's kind and its element.
#[derive(Clone, Copy, PartialEq, Eq)]
pub struct Element {
    pub kind: Kind,
    pub tag: Tag,
}

impl Element {
    /// By an event's numbers, whatever they are: a kind past the last counts as `End`, an element past the last as `Unknown`.
    #[inline]
    pub fn of(kind: u32, tag: u32) -> Element
        ensures kind { kind_number result.kind ≡ kind_counted kind }
        ensures tag { tag_number result.tag ≡ tag_counted tag }
    {
        Element {
            kind: kind_of(kind),
            tag: tag_of(tag),
        }
    }
}

#[tactic(auto, unfolding(crate::specs::Ids::kind_counted), using(crate::proofs::Elements::kind_past))]
#[inline]
fn kind_of(kind: u32) -> Kind
    ensures { kind_number result ≡ kind_counted kind }
{
    match kind {
        0 => Kind::Open,
        1 => Kind::Empty,
        2 => Kind::Whole,
        _ => Kind::End,
    }
}

#[tactic(auto, unfolding(crate::specs::Ids::tag_counted), using(crate::proofs::Elements::tag_past))]
#[inline]
fn tag_of(tag: u32) -> Tag
    ensures { tag_number result ≡ tag_counted tag }
{
    match tag {
        1 => Tag::Scxml,
        2 => Tag::State,
        3 => Tag::Parallel,
        4 => Tag::Datamodel,
        5 => Tag::Final,
        6 => Tag::History,
        7 => Tag::Initial,
        8 => Tag::Invoke,
        9 => Tag::Data,
        10 => Tag::Donedata,
        11 => Tag::Finalize,
        12 => Tag::Else,
        13 => Tag::Elseif,
        14 => Tag::Param,
        15 => Tag::Content,
        16 => Tag::Transition,
        17 => Tag::Onentry,
        18 => Tag::Onexit,
        19 => Tag::Send,
        20 => Tag::Raise,
        21 => Tag::Cancel,
        22 => Tag::Log,
        23 => Tag::Assign,
        24 => Tag::If,
        25 => Tag::Foreach,
        26 => Tag::Script,
        27 => Tag::Include,
        _ => Tag::Unknown,
    }
}

/// Which of the rows that an element's texts can fill: most elements have one; the others say below what their second and third are.
#[derive(Clone, Copy, PartialEq, Eq)]
pub enum Shape {
    First,
    /// Its text in the place of expr; a content in an invoke.
    Second,
    /// A content in a state.
    Third,
}

impl Shape {
    /// Its number in definitions.
    pub fn number(self) -> u32
        ensures { result ≡ shape_number self }
    {
        self as u32
    }
}

/// Types of a transition.
#[derive(Clone, Copy, PartialEq, Eq)]
pub enum TransitionType {
    External,
    Internal,
}

impl TransitionType {
    /// Its number in rows and definitions.
    pub fn number(self) -> u32
        ensures { result ≡ mode_number self }
    {
        self as u32
    }
}

/// Columns of the chart's row: what each is afterwards, none where it stays. The root brings the element's texts with it.
#[derive(Clone, Copy, Default)]
pub struct ChartPlan {
    pub binding: Option<u32>,
    pub root: Option<u32>,
    pub script: Option<u32>,
}

/// One row, `at`: the element's texts in it, and what each column is afterwards, none where it stays.
#[derive(Clone, Copy, Default)]
pub struct StatePlan {
    pub at: StateId,
    pub texts: Option<Shape>,
    pub initial: Option<u32>,
    pub doc: Option<u32>,
    pub parent: Option<u32>,
    pub parallel: Option<u32>,
    pub ends: Option<u32>,
    pub history: Option<u32>,
    pub donedata: Option<u32>,
    pub filled: Option<u32>,
}

/// mode and wildcard: numbers, as the row gets them (C lends rows of numbers).
#[derive(Clone, Copy)]
pub struct NewTransition {
    pub number: TransitionId,
    pub doc: u32,
    pub source: StateId,
    pub mode: u32,
    pub wildcard: u32,
    pub content: RegionId,
    pub texts: Option<Shape>,
}

/// The row `at` gets its content.
#[derive(Clone, Copy)]
pub struct TransitionChange {
    pub at: u32,
    pub content: RegionId,
}

#[derive(Clone, Copy, Default)]
pub struct TransitionPlan {
    pub added: Option<NewTransition>,
    pub altered: Option<TransitionChange>,
}

/// Up to two regions.
#[derive(Clone, Copy, Default)]
pub struct RegionPlan {
    pub one: Option<RegionId>,
    pub two: Option<RegionId>,
}

#[derive(Clone, Copy)]
pub struct NewEntry {
    pub kind: EntryKind,
    pub region: RegionId,
    pub state: StateId,
    pub content: RegionId,
    pub shape: Shape,
}

/// The row `at` gets its else region, or is filled by a content.
#[derive(Clone, Copy)]
pub struct EntryChange {
    pub at: u32,
    pub other: Option<u32>,
    pub filled: bool,
}

#[derive(Clone, Copy, Default)]
pub struct EntryPlan {
    pub added: Option<NewEntry>,
    pub altered: Option<EntryChange>,
}

#[derive(Clone, Copy)]
pub struct NewInvoke {
    pub state: StateId,
    pub autoforward: u32,
}

/// The row `at` gets its finalize, or is filled by a content.
#[derive(Clone, Copy)]
pub struct InvokeChange {
    pub at: u32,
    pub finalize: Option<u32>,
    pub filled: bool,
}

#[derive(Clone, Copy, Default)]
pub struct InvokePlan {
    pub added: Option<NewInvoke>,
    pub altered: Option<InvokeChange>,
}

#[derive(Clone, Copy)]
pub struct NewDatum {
    pub state: StateId,
    pub shape: Shape,
}

/// The row `at` gets another value.
#[derive(Clone, Copy)]
pub struct DatumChange {
    pub at: u32,
    pub shape: Shape,
}

#[derive(Clone, Copy, Default)]
pub struct DatumPlan {
    pub added: Option<NewDatum>,
    pub altered: Option<DatumChange>,
}

#[derive(Clone, Copy)]
pub struct ParameterPlan {
    pub kind: OwnerKind,
    pub owner: u32,
}

#[derive(Clone, Copy)]
pub struct MemberPlan {
    pub list: ListKind,
    pub owner: u32,
    pub value: u32,
}

/// The event's states as targets of the transition `owner`, but for the first `skip`.
#[derive(Clone, Copy)]
pub struct TargetPlan {
    pub owner: u32,
    pub skip: u32,
}

/// In this order: words (their number as value), targets, a member, another one.
#[derive(Clone, Copy, Default)]
pub struct MembersPlan {
    pub words: Option<MemberPlan>,
    pub targets: Option<TargetPlan>,
    pub one: Option<MemberPlan>,
    pub two: Option<MemberPlan>,
}

/// The state and the transition that are current inside the element, if it is open afterwards.
#[derive(Clone, Copy, Default)]
pub struct OpenPlan {
    pub state: StateId,
    pub transition: TransitionId,
}

/// A region that an element leaves open.
#[derive(Clone, Copy)]
pub struct OpenRegion {
    pub region: RegionId,
    pub tag: Tag,
}

/// kept of the open regions stay, then up to two come.
#[derive(Clone, Copy, Default)]
pub struct OpenRegionPlan {
    pub kept: u32,
    pub one: Option<OpenRegion>,
    pub two: Option<OpenRegion>,
}

#[derive(Clone, Copy, Default)]
pub struct CounterPlan {
    pub current: RegionId,
    pub ids: u32,
    pub docs: u32,
}

#[derive(Clone, Copy, Default)]
pub struct Plan {
    pub chart: Option<ChartPlan>,
    pub states: Option<StatePlan>,
    pub transitions: TransitionPlan,
    pub regions: RegionPlan,
    pub entries: EntryPlan,
    pub invokes: InvokePlan,
    pub datums: DatumPlan,
    pub parameters: Option<ParameterPlan>,
    pub members: MembersPlan,
    pub opened: OpenPlan,
    pub pending: OpenRegionPlan,
    pub counters: CounterPlan,
}

/// All that an accepted event does: its plan, where it was decided, whether it draws a name, and what it takes of the text charge.
#[derive(Clone, Copy)]
pub struct Effect<'a> {
    pub plan: &'a Plan,
    pub made: bool,
    pub charge: u32,
}

/// A state as it is declared: its columns, and what it joins.
#[derive(Clone, Copy, Default)]
pub struct Declared {
    pub parent: Option<u32>,
    pub parallel: Option<u32>,
    pub ends: Option<u32>,
    pub history: Option<u32>,
    pub joins: Option<MemberPlan>,
}

/// A region closed: kept of the open regions are left, and current goes on.
#[derive(Clone, Copy)]
pub struct Closing {
    pub current: RegionId,
    pub kept: u32,
}

/// The else walk: a region without an if, no walk, or the entry of the if that was met.
#[derive(Clone, Copy)]
pub enum Walked {
    NoIf,
    Nowhere,
    Met(u32),
}

/// All that is seen of the store; parent and kind are numbers, as the rows have them (C lends rows of numbers). closed is none where no region is current.
#[derive(Clone, Copy)]
pub struct Seen {
    pub state: StateId,
    pub transition: TransitionId,
    pub parent: u32,
    pub current: RegionId,
    pub ids: u32,
    pub docs: u32,
    pub regions: u32,
    pub entries: u32,
    pub invokes: u32,
    pub datums: u32,
    pub parameters: u32,
    pub closed: Option<Closing>,
    pub walk: Walked,
    pub entry: u32,
    pub kind: u32,
    pub invoke: u32,
    pub place: u32,
    pub initial: TransitionId,
    pub donedata: u32,
    pub first: StateId,
    pub root: StateId,
    pub begins: TransitionId,
    pub child: StateId,
    pub joined: bool,
    pub own: TransitionId,
    pub eldest: StateId,
}

/// What the event says: the look without its texts and lists. whole: it has a text. Codes of words are numbers, as rows get them (C lends rows of numbers).
#[derive(Clone, Copy)]
pub struct Heard {
    pub whole: bool,
    pub own: StateId,
    pub initial: bool,
    pub expr: bool,
    pub binds: bool,
    pub binding: u32,
    pub mode: u32,
    pub history: u32,
    pub wildcard: u32,
    pub forward: u32,
    pub events: u32,
    pub names: u32,
    pub found: u32,
}

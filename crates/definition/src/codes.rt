// Kinds of event, elements, keys and the codes that rows hold, by name: the numbers are the definition's.

ghost use Rattle.std.specs.Prelude.{◌≡◌, ◌≤◌, ◌<◌, MatchResult};
ghost use Rattle.definition.specs.Codes.{kind_number, tag_number, key_number, entry_number, owner_number, list_number, refusal_number};

/// Kinds of event: `open`, `empty`, `whole`, `end`.
#[derive(Clone, Copy, PartialEq, Eq)]
pub enum Kind {
    Open,
    Empty,
    Whole,
    End,
}

impl Kind {
    /// Its number in rows and definitions.
    pub fn number(self) -> u32
        ensures { result ≡ kind_number self }
    {
        self as u32
    }
}

/// Elements by number; 0 is every other name.
#[derive(Clone, Copy, PartialEq, Eq)]
pub enum Tag {
    Unknown,
    Scxml,
    State,
    Parallel,
    Datamodel,
    Final,
    History,
    Initial,
    Invoke,
    Data,
    Donedata,
    Finalize,
    Else,
    Elseif,
    Param,
    Content,
    Transition,
    Onentry,
    Onexit,
    Send,
    Raise,
    Cancel,
    Log,
    Assign,
    If,
    Foreach,
    Script,
    Include,
}

impl Tag {
    /// Its number in rows and definitions.
    pub fn number(self) -> u32
        ensures { result ≡ tag_number self }
    {
        self as u32
    }
}

/// Keys by number, as places of an index; 0 is every other key.
#[derive(Clone, Copy, PartialEq, Eq)]
pub enum Key {
    Id = 1,
    Initial,
    Name,
    Datamodel,
    Binding,
    Version,
    Type,
    Typeexpr,
    Src,
    Srcexpr,
    Idlocation,
    Namelist,
    Autoforward,
    Event,
    Eventexpr,
    Cond,
    Target,
    Targetexpr,
    Expr,
    Array,
    Item,
    Index,
    Sendid,
    Sendidexpr,
    Delay,
    Delayexpr,
    Location,
    Label,
}

impl Key {
    /// Its number in rows and definitions.
    pub fn number(self) -> u32
        ensures { result ≡ key_number self }
    {
        self as u32
    }
}

/// What an entry is.
#[derive(Clone, Copy, PartialEq, Eq)]
pub enum EntryKind {
    If = 1,
    Script,
    Log,
    Foreach,
    Send,
    Raise,
    Cancel,
    Assign,
}

impl EntryKind {
    /// Its number in rows and definitions.
    pub fn number(self) -> u32
        ensures { result ≡ entry_number self }
    {
        self as u32
    }
}

/// Whose parameter it is.
#[derive(Clone, Copy, PartialEq, Eq)]
pub enum OwnerKind {
    Send = 1,
    Invoke,
    Donedata,
}

impl OwnerKind {
    /// Its number in rows and definitions.
    pub fn number(self) -> u32
        ensures { result ≡ owner_number self }
    {
        self as u32
    }
}

/// Lists that members belong to.
#[derive(Clone, Copy, PartialEq, Eq)]
pub enum ListKind {
    Children = 1,
    History,
    Onentry,
    Onexit,
    Transitions,
    Targets,
    Events,
    SendNames,
    InvokeNames,
}

impl ListKind {
    /// Its number in rows and definitions.
    pub fn number(self) -> u32
        ensures { result ≡ list_number self }
    {
        self as u32
    }
}

/// The question that is answered no.
#[derive(Clone, Copy, PartialEq, Eq)]
pub enum Refusal {
    TooShort = 1,
    OutOfOrder,
    NotInForm,
    RepeatedKey,
    WrongEnd,
    LeftOut,
    TooDeep,
    WrongParent,
    SecondScxml,
    Missing,
    Together,
    UnknownWord,
    InitialSet,
    NoIf,
    Full,
    NoRow,
}

impl Refusal {
    /// Its number; 0 is no refusal's.
    pub fn number(self) -> u32
        ensures { result ≡ refusal_number self }
    {
        self as u32
    }
}

/// A number that no kind has.
#[derive(Clone, Copy, PartialEq, Eq)]
pub struct UnknownCode(pub u32);

impl TryFrom<u32> for EntryKind {
    type Error = UnknownCode;

    ghost try_from_gives = { λ n r. MatchResult r (λ k. entry_number k ≡ n) (λ e. 1 ≤ n → 8 < n) };

    fn try_from(number: u32) -> Result<Self, UnknownCode> {
        match number {
            1 => Ok(EntryKind::If),
            2 => Ok(EntryKind::Script),
            3 => Ok(EntryKind::Log),
            4 => Ok(EntryKind::Foreach),
            5 => Ok(EntryKind::Send),
            6 => Ok(EntryKind::Raise),
            7 => Ok(EntryKind::Cancel),
            8 => Ok(EntryKind::Assign),
            _ => Err(UnknownCode(number)),
        }
    }
}

impl TryFrom<u32> for OwnerKind {
    type Error = UnknownCode;

    ghost try_from_gives = { λ n r. MatchResult r (λ k. owner_number k ≡ n) (λ e. 1 ≤ n → 3 < n) };

    fn try_from(number: u32) -> Result<Self, UnknownCode> {
        match number {
            1 => Ok(OwnerKind::Send),
            2 => Ok(OwnerKind::Invoke),
            3 => Ok(OwnerKind::Donedata),
            _ => Err(UnknownCode(number)),
        }
    }
}

impl TryFrom<u32> for ListKind {
    type Error = UnknownCode;

    ghost try_from_gives = { λ n r. MatchResult r (λ k. list_number k ≡ n) (λ e. 1 ≤ n → 9 < n) };

    fn try_from(number: u32) -> Result<Self, UnknownCode> {
        match number {
            1 => Ok(ListKind::Children),
            2 => Ok(ListKind::History),
            3 => Ok(ListKind::Onentry),
            4 => Ok(ListKind::Onexit),
            5 => Ok(ListKind::Transitions),
            6 => Ok(ListKind::Targets),
            7 => Ok(ListKind::Events),
            8 => Ok(ListKind::SendNames),
            9 => Ok(ListKind::InvokeNames),
            _ => Err(UnknownCode(number)),
        }
    }
}

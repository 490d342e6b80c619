// Keys: a name by its mark, and one comparison.

#![tactic(auto)]

ghost use Rattle.std.specs.Prelude.{◌≡◌, MatchOption};
ghost use Rattle.definition.specs.Codes.{key_code, key_number};
ghost use Rattle.definition.specs.Elements.{key_of, key_names};
ghost use Rattle.marks.specs.Marks.{mark, key_marks, NotAny, IsName};

use definition::codes::Key;
use marks::{mark_of, only};

// The key of a mark, in the order of their numbers, and its name.
#[tactic(auto, unfolding(definition::specs::Elements::key_names, definition::specs::Text::str, marks::specs::Marks::mark))]
fn known(m: u32) -> Option<(&'static [u8], Key)>
    ensures { MatchOption result (NotAny m key_marks) (λ p. IsName key_names (key_number p.1) p.0.now × (mark p.0.now ≡ m)) }
{
    match m {
        90 => Some((b"id", Key::Id)),
        17 => Some((b"initial", Key::Initial)),
        94 => Some((b"name", Key::Name)),
        6 => Some((b"datamodel", Key::Datamodel)),
        115 => Some((b"binding", Key::Binding)),
        18 => Some((b"version", Key::Version)),
        118 => Some((b"type", Key::Type)),
        59 => Some((b"typeexpr", Key::Typeexpr)),
        100 => Some((b"src", Key::Src)),
        51 => Some((b"srcexpr", Key::Srcexpr)),
        20 => Some((b"idlocation", Key::Idlocation)),
        45 => Some((b"namelist", Key::Namelist)),
        116 => Some((b"autoforward", Key::Autoforward)),
        63 => Some((b"event", Key::Event)),
        57 => Some((b"eventexpr", Key::Eventexpr)),
        103 => Some((b"cond", Key::Cond)),
        43 => Some((b"target", Key::Target)),
        37 => Some((b"targetexpr", Key::Targetexpr)),
        54 => Some((b"expr", Key::Expr)),
        84 => Some((b"array", Key::Array)),
        25 => Some((b"item", Key::Item)),
        75 => Some((b"index", Key::Index)),
        95 => Some((b"sendid", Key::Sendid)),
        41 => Some((b"sendidexpr", Key::Sendidexpr)),
        71 => Some((b"delay", Key::Delay)),
        40 => Some((b"delayexpr", Key::Delayexpr)),
        29 => Some((b"location", Key::Location)),
        2 => Some((b"label", Key::Label)),
        _ => None,
    }
}

// The key that a name is, if it is one.
pub fn key_of(key: &[u8]) -> Option<Key>
    ensures { key_code result ≡ key_of key.now }
{
    let (name, found) = known(mark_of(key)?)?;
    only(name, key, found)
}

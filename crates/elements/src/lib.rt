// Elements: a name by its mark, and one comparison.

#![tactic(auto)]

ghost use Rattle.std.specs.Prelude.{◌≡◌, MatchOption, unwrap_or};
ghost use Rattle.definition.specs.declared.codes.Tag.TheVariants.{Unknown};
ghost use Rattle.definition.specs.Codes.{tag_number};
ghost use Rattle.definition.specs.Elements.{tag_of, element_names};
ghost use Rattle.marks.specs.Marks.{mark, element_marks, NotAny, IsName};

use definition::codes::Tag;
use marks::{mark_of, only};

// The element of a mark, in the order of their numbers, and its name.
#[tactic(auto, unfolding(definition::specs::Elements::element_names, definition::specs::Text::str, marks::specs::Marks::mark))]
fn known(m: u32) -> Option<(&'static [u8], Tag)>
    ensures { MatchOption result (NotAny m element_marks) (λ p. IsName element_names (tag_number p.1) p.0.now × (mark p.0.now ≡ m)) }
{
    match m {
        4 => Some((b"scxml", Tag::Scxml)),
        114 => Some((b"state", Tag::State)),
        5 => Some((b"parallel", Tag::Parallel)),
        6 => Some((b"datamodel", Tag::Datamodel)),
        10 => Some((b"final", Tag::Final)),
        77 => Some((b"history", Tag::History)),
        17 => Some((b"initial", Tag::Initial)),
        109 => Some((b"invoke", Tag::Invoke)),
        74 => Some((b"data", Tag::Data)),
        92 => Some((b"donedata", Tag::Donedata)),
        106 => Some((b"finalize", Tag::Finalize)),
        105 => Some((b"else", Tag::Else)),
        112 => Some((b"elseif", Tag::Elseif)),
        7 => Some((b"param", Tag::Param)),
        58 => Some((b"content", Tag::Content)),
        34 => Some((b"transition", Tag::Transition)),
        82 => Some((b"onentry", Tag::Onentry)),
        56 => Some((b"onexit", Tag::Onexit)),
        93 => Some((b"send", Tag::Send)),
        95 => Some((b"raise", Tag::Raise)),
        3 => Some((b"cancel", Tag::Cancel)),
        117 => Some((b"log", Tag::Log)),
        31 => Some((b"assign", Tag::Assign)),
        102 => Some((b"if", Tag::If)),
        126 => Some((b"foreach", Tag::Foreach)),
        45 => Some((b"script", Tag::Script)),
        110 => Some((b"include", Tag::Include)),
        _ => None,
    }
}

// The element of a name, if it is one. `keys: key_of` has the same shape over another table and mark; a generic function would take both, and is no plainer.
fn found(name: &[u8]) -> Option<Tag>
    ensures { tag_number (unwrap_or result Unknown) ≡ tag_of name.now }
{
    let (word, tag) = known(mark_of(name)?)?;
    only(word, name, tag)
}

pub fn tag_of(name: &[u8]) -> Tag
    ensures { tag_number result ≡ tag_of name.now }
{
    found(name).unwrap_or(Tag::Unknown)
}

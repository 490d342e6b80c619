// Which element may stand in which, which hold a text, which name a state.

#![tactic(auto)]

ghost use Rattle.std.specs.Prelude.{◌≡◌, [], ◌<◌, get_or};
ghost use Rattle.definition.specs.Elements.{among, holds_text, names_state};
ghost use Rattle.definition.specs.Nesting.{parent_allowed};
ghost use Rattle.nesting.specs.Tables.{parent_rows, listed};

use definition::codes::Tag;

// The elements that an element may stand in, for those numbered 2 to 26: in the Rust's order, then zeros. An array of arrays of numbers, as the project asks
// (docs/SCOPE.md, "Where to use each form").
const NESTING: &[[u8; 7]; 25] = &[
    [1, 2, 3, 0, 0, 0, 0],
    [1, 2, 3, 0, 0, 0, 0],
    [1, 2, 3, 0, 0, 0, 0],
    [1, 2, 0, 0, 0, 0, 0],
    [2, 3, 0, 0, 0, 0, 0],
    [2, 3, 0, 0, 0, 0, 0],
    [2, 3, 0, 0, 0, 0, 0],
    [4, 0, 0, 0, 0, 0, 0],
    [5, 0, 0, 0, 0, 0, 0],
    [8, 0, 0, 0, 0, 0, 0],
    [24, 0, 0, 0, 0, 0, 0],
    [24, 0, 0, 0, 0, 0, 0],
    [19, 8, 10, 0, 0, 0, 0],
    [19, 8, 10, 0, 0, 0, 0],
    [6, 7, 2, 3, 0, 0, 0],
    [2, 3, 5, 0, 0, 0, 0],
    [2, 3, 5, 0, 0, 0, 0],
    [16, 18, 17, 24, 25, 0, 0],
    [16, 18, 17, 24, 25, 0, 0],
    [16, 18, 17, 24, 25, 0, 0],
    [16, 18, 17, 24, 25, 11, 0],
    [16, 18, 17, 24, 25, 11, 0],
    [17, 18, 16, 25, 24, 11, 0],
    [17, 18, 16, 25, 24, 11, 0],
    [1, 16, 18, 17, 24, 25, 11],
];

fn parents_at(row: usize) -> [u8; 7]
    requires { row < 25 }
    ensures { result ≡ get_or parent_rows row [] }
{
    NESTING[row]
}

// Elements are numbers here, as the table and the rows of open elements hold them (C lends rows of numbers).
// Whether parent is one of a row's, which end at the first zero.
fn is_listed(row: [u8; 7], parent: u32) -> bool
    ensures { result ≡ among parent (listed row) }
{
    for p in row {
        if p == 0 {
            return false;
        }
        if u32::from(p) == parent {
            return true;
        }
    }
    false
}

// Whether an element may stand in parent: scxml (1) and unknown names (0), and what is numbered past script, anywhere.
pub fn parent_allowed(tag: u32, parent: u32) -> bool
    ensures { result ≡ parent_allowed tag parent }
{
    if tag < Tag::State as u32 {
        return true;
    }
    if (Tag::Script as u32) < tag {
        return true;
    }
    is_listed(parents_at((tag - Tag::State as u32) as usize), parent)
}

// data, script, content, assign: come as `whole` or `empty`.
pub fn holds_text(tag: u32) -> bool
    ensures { result ≡ holds_text tag }
{
    (tag == Tag::Data as u32)
        | ((tag == Tag::Script as u32)
            | ((tag == Tag::Content as u32) | (tag == Tag::Assign as u32)))
}

// scxml, state, parallel, final, history: their `id` names a state.
pub fn names_state(tag: u32) -> bool
    ensures { result ≡ names_state tag }
{
    (tag == Tag::Scxml as u32)
        | ((tag == Tag::State as u32)
            | ((tag == Tag::Parallel as u32)
                | ((tag == Tag::Final as u32) | (tag == Tag::History as u32))))
}

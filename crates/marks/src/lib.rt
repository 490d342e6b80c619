// Known names told apart by a mark.

#![tactic(auto)]

ghost use Rattle.std.specs.Prelude.{◌≡◌, MatchOption};
ghost use Rattle.std.specs.Bool.{then_some};
ghost use Rattle.definition.specs.Text.{same};
ghost use Rattle.marks.specs.Marks.{mark, IsSized};

use text::same;

// A number below 128 that tells all known names apart: by its length, its second and its last byte. Names that are shorter or longer than all known ones have none.
#[tactic(auto, unfolding(crate::specs::Marks::mark))]
pub fn mark_of(name: &[u8]) -> Option<u32>
    ensures { MatchOption result (IsSized name.now → ⊥) (λ m. m ≡ mark name.now) }
{
    let n = name.len();
    if n < 2 || 11 < n {
        return None;
    }
    Some(((n + name[n - 1] as usize * 5 + name[1] as usize) % 128) as u32)
}

// What a known name stands for, if the name is the known one.
pub fn only<T: Copy>(known: &[u8], name: &[u8], value: T) -> Option<T>
    ensures { result ≡ then_some (same known.now name.now) value }
{
    same(known, name).then_some(value)
}

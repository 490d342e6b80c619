// An event with its values by key.

#![tactic(auto)]

ghost use Rattle.std.specs.Prelude.{◌≡◌, ◌<◌, ◌≤◌, length};
ghost use Rattle.definition.specs.Codes.{key_number};
ghost use Rattle.definition.specs.Look.{payload, has_load};
ghost use Rattle.plain.specs.Plain.{slots_of, loads_in};
ghost use Rattle.plain.specs.Keyed.{keyed_of, value_in};

use crate::{Keyed, Plain};
use definition::codes::Key;
use lines::part_of;

/// An event's parts in the bytes where they stand, and what one walk over its values gives: the values by key, and how long all of them are together.
#[derive(Clone, Copy)]
pub struct Indexed<'a> {
    pub src: &'a [u8],
    pub plain: &'a Plain,
    pub keys: &'a Keyed,
    pub total: usize,
    ghost keyed: { keys.now ≡ keyed_of (slots_of plain.now) },
    ghost summed: { total ≡ length (payload (loads_in src.now (slots_of plain.now))) },
    ghost bounded: { total ≤ 1048576 },
}

impl Indexed<'_> {
    /// Whether it has a value for a key.
    pub fn has(&self, key: Key) -> bool
        ensures { result ≡ has_load (key_number key) (loads_in self.now.src.now (slots_of self.now.plain.now)) }
    {
        self.keys.there[key_index(key)] != 0
    }

    /// A key's first value; no bytes without it.
    pub fn value(&self, key: Key) -> &[u8]
        ensures result_value { result.now ≡ value_in (key_number key) (loads_in self.now.src.now (slots_of self.now.plain.now)) }
        ensures result_len_bound { length result.now < 65536 }
    {
        let k = key_index(key);
        part_of(
            self.src,
            usize::from(self.keys.at[k]),
            usize::from(self.keys.len[k]),
        )
    }
}

// A key's place in the index.
fn key_index(key: Key) -> usize
    ensures value { result ≡ key_number key }
    ensures upper_bound { result < 31 }
{
    key as usize
}

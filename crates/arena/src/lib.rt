// The texts of an accepted event, its words and its names, written.

#![tactic(auto)]

ghost use Rattle.std.specs.Prelude.{◌≡◌, replicate};
ghost use Rattle.plain.specs.Plain.{parsed_in};
ghost use Rattle.arena.specs.Storing.{owner_of, Storable, Stored};

use definition::Position;
use fill::Texts;
use payload::append_event;
use plain::Plain;
use plan::{MembersPlan, TargetPlan};
use rows::leading;
use targets::write_names;
use texts::texts_of;
use wordlists::write_words;

/// How many rows of states and of members there are then, and how much of the text is in use.
#[derive(Clone, Copy)]
pub struct Written {
    pub states: usize,
    pub members: usize,
    pub used: usize,
}

/// The transition that gets the targets; 0 where none does.
#[tactic(auto, unfolding(crate::specs::Storing::owner_of))]
fn owner_of(targets: Option<TargetPlan>) -> u32
    ensures { result ≡ owner_of targets }
{
    match targets {
        Some(targets) => targets.owner,
        None => 0,
    }
}

/// The texts of an accepted event, its words and its names; where its texts lie is put into `t`, a table of zeros.
pub fn write_texts(
    states: &mut [[u32; 24]],
    members: &mut [[u32; 8]],
    text: &mut [u8],
    p: Position,
    src: &[u8],
    pl: &Plain,
    made: bool,
    m: MembersPlan,
    t: &mut [u32],
) -> Written
    requires { (t.old ≡ replicate 64 0) × Storable p (parsed_in src.now pl.now) states.old members.old text.old made m }
    ensures { Stored p (parsed_in src.now pl.now) states.old members.old text.old m states.new members.new text.new t.new result }
{
    let e = append_event(text, p.used as usize, src, pl, made, p.names);
    texts_of(t, src, pl, p.used as usize, made, e);
    let arena = leading(text, e.all);
    let texts = Texts {
        tag: pl.tag,
        cells: t,
    };
    let next = write_words(members, p.members as usize, arena, texts, m.words);
    let named = write_names(
        states,
        members,
        arena,
        p.states as usize,
        next,
        t,
        pl.kind.number(),
        pl.tag.number(),
        owner_of(m.targets),
    );
    Written {
        states: named.states,
        members: named.members,
        used: e.all,
    }
}

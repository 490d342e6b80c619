// The small record of the open element, lent and changed where it is; `opened` and `outside` give it by value.

#![tactic(auto)]

ghost use Rattle.std.specs.Prelude.{◌≡◌};

use definition::{StateId, TransitionId};

/// Of the innermost open element: the state and the transition that its content stands in, and its tag, a number as the row has it (C lends rows of numbers).
#[derive(Clone, Copy)]
pub struct Open {
    pub state: StateId,
    pub transition: TransitionId,
    pub tag: u32,
}

impl Open {
    /// An element begins: what comes next is inside it.
    pub fn push(&mut self, state: StateId, transition: TransitionId, tag: u32)
        ensures { self.new ≡ record { state = state; transition = transition; tag = tag } }
    {
        *self = Open {
            state,
            transition,
            tag,
        };
    }

    /// Nothing is open any more: the numbers of no state, no transition and no tag.
    pub fn pop(&mut self)
        ensures { self.new ≡ record { state = record { 0 = 0 }; transition = record { 0 = 0 }; tag = 0 } }
    {
        *self = Open {
            state: StateId(0),
            transition: TransitionId(0),
            tag: 0,
        };
    }
}

/// The record inside an element.
pub fn opened(state: StateId, transition: TransitionId, tag: u32) -> Open
    ensures { result ≡ record { state = state; transition = transition; tag = tag } }
{
    let mut element = outside();
    element.push(state, transition, tag);
    element
}

/// The record outside of every element.
pub fn outside() -> Open
    ensures { result ≡ record { state = record { 0 = 0 }; transition = record { 0 = 0 }; tag = 0 } }
{
    let mut element = Open {
        state: StateId(0),
        transition: TransitionId(0),
        tag: 0,
    };
    element.pop();
    element
}

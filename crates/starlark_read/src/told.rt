//! What a reading tells beside its tree.

ghost use Rattle.std.specs.Prelude.{◌≡◌, IfOk, []};

use crate::cost::Cost;
use starlark_place::pos::Span;
use std::alloc::{AllocError, Global};

/// Where the comments of a text stand, and for each of them whether the item right before it is one, too.
#[derive(Debug, Drop)]
pub struct Comments {
    /// Each from its `#` on, in order.
    pub places: Vec<Span>,
    /// As many as there are places.
    pub joined: Vec<bool>,
}

impl Comments {
    /// The same places and flags, in memory of their own. `Err` comes only where memory lacks for these.
    pub fn clone(&self, alloc: Global) -> Result<Comments, AllocError>
        ensures places { IfOk result (λ c. c.places.items ≡ self.now.places.items) }
        ensures joined { IfOk result (λ c. c.joined.items ≡ self.now.joined.items) }
    {
        let places = self.places.as_slice().to_vec(alloc)?;
        let joined = self.joined.as_slice().to_vec(alloc)?;
        Ok(Comments { places, joined })
    }
}

/// What is told of a reading beside its tree.
#[derive(Drop)]
pub struct Told {
    pub comments: Comments,
    pub cost: Cost,
}

impl Told {
    /// What is told of a text that was not read: no comments and no cost. It takes no memory.
    pub fn nothing(alloc: Global) -> Told
        ensures cost { result.cost ≡ record { reads = 0; asks = 0 } }
        ensures places { result.comments.places.items ≡ [] }
        ensures joined { result.comments.joined.items ≡ [] }
    {
        Told {
            comments: Comments {
                places: Vec::new(alloc),
                joined: Vec::new(alloc),
            },
            cost: Cost::NONE,
        }
    }
}

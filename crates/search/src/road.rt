ghost use Rattle.std.specs.Prelude.{◌≡◌, ◌≤◌, length};

use crate::MOST_STEPS;
use arrayvec::ArrayVec;
use std::marker::Model;

// A road: the numbers of its arcs, in the order in which they are passed.
#[derive(Drop)]
pub struct Road {
    pub(super) arcs: ArrayVec<u16, MOST_STEPS>,
}

impl Model for Road {
    ghost use Rattle.std.specs.Prelude.{ℕ, List};

    ghost Value = { List ℕ };

    ghost view = { λ r. r.arcs.items };
}

impl Road {
    // The numbers of its arcs.
    pub fn arcs(&self) -> &[u16]
        ensures arcs { result.now ≡ self.now }
        ensures few { length result.now ≤ 1024 }
    {
        self.arcs.as_slice()
    }
}

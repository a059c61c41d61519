ghost use Rattle.std.specs.Prelude.{◌≡◌, ℕ, ◌-◌, ◌^◌, min};
ghost use Rattle.network.specs.Walk.{Map as Arcs};

// The step that an arc leaves, and the step that it ends at.
#[derive(Clone, Copy)]
pub struct Ends {
    pub from: usize,
    pub to: usize,
}

impl Ends {
    // The ends of the arc that goes the other way.
    pub fn reversed(self) -> Ends
        ensures from { result.from ≡ self.to }
        ensures to { result.to ≡ self.from }
    {
        Ends {
            from: self.to,
            to: self.from,
        }
    }
}

// A map of steps (a directed graph). Its arcs are numbered from 0 to `size` - 1.
pub trait Map {
    // How many arcs it has.
    ghost size: { Self → ℕ };

    // Each arc's ends, and whether one may pass.
    ghost graph: { Self → Arcs ℕ };

    // How many arcs there are; where no `usize` is that large, the largest.
    fn arcs(&self) -> usize
        ensures { result ≡ min (size self.now) (2 ^ 64 - 1) };

    // The ends of arc k, for every k.
    fn ends(&self, k: usize) -> Ends
        ensures from { result.from ≡ (graph self.now).from k }
        ensures to { result.to ≡ (graph self.now).to k };

    // Whether one may pass arc k, for every k.
    fn is_passable(&self, k: usize) -> bool
        ensures { result ≡ (graph self.now).passable k };
}

ghost use Rattle.network.specs.Walk.{reversed};

use search::map::{Ends, Map};

// The arcs of a map, each passed from its end to its start.
#[derive(Drop)]
pub struct Reversed<M> {
    pub map: M,
}

impl<M: Map> Map for Reversed<M> {
    ghost size = { λ m. M.Map.size m.map };

    ghost graph = { λ m. reversed (M.Map.graph m.map) };

    fn arcs(&self) -> usize {
        self.map.arcs()
    }

    fn ends(&self, k: usize) -> Ends {
        self.map.ends(k).reversed()
    }

    fn is_passable(&self, k: usize) -> bool {
        self.map.is_passable(k)
    }
}

ghost use Rattle.std.specs.Prelude.{◌≡◌, ◌*◌, length, ◌==◌, slice_index};
ghost use Rattle.network.specs.Arc.{move_of};
ghost use Rattle.network.specs.Move.{move_feed};
ghost use Rattle.sheets.specs.Sheets.{feeds_chart};
ghost use Rattle.maps.specs.Graphs.{ruled_arcs};
ghost use Rattle.maps.specs.Moves.{move_meant};

use super::feeds_forward::FeedsForward;
use super::rules::Rule;
use price::kind::Price;
use search::map::{Ends, Map};
use sheets::Feed;

// A move along the feed at a place of the sheet, or against it.
#[derive(Clone, Copy, Debug, PartialEq, Eq)]
pub enum Move {
    Forward(usize),
    Backward(usize),
}

// Arc 2k is the move along the feed at place k, and arc 2k + 1 the move against it.
impl From<usize> for Move {
    ghost from_gives = { λ arc move. move_meant move ≡ move_of arc };

    fn from(arc: usize) -> Move {
        if arc % 2 == 0 {
            Move::Forward(arc / 2)
        } else {
            Move::Backward(arc / 2)
        }
    }
}

impl Move {
    // The place of its feed.
    fn feed(self) -> usize
        ensures { result ≡ move_feed (move_meant self) }
    {
        match self {
            Move::Forward(k) | Move::Backward(k) => k,
        }
    }
}

// Moves of a sheet by number (arcs of the residual network): along a feed where the rule lets one pass, and against each.
#[derive(Drop)]
pub struct Moves<'a, P, R> {
    pub feeds: &'a [Feed<P>],
    pub bars: &'a [u8],
    pub rule: R,
}

// Whether the feed at place k is barred: in the product's sheet format the byte 1 alone says so. A feed past the end of the
// sheet of bars is not.
fn is_barred(bars: &[u8], k: usize) -> bool
    ensures { result ≡ (slice_index bars.now k == 1) }
{
    bars.get(k) == Some(&1)
}

impl<P: Price, R: Rule<P>> Map for Moves<'_, P, R> {
    ghost size = { λ m. 2 * length m.feeds.now };

    ghost graph = { λ m. ruled_arcs (feeds_chart P.Price.kind m.feeds.now m.bars.now) (R.Rule.may m.rule) };

    fn arcs(&self) -> usize {
        self.feeds.len().saturating_mul(2)
    }

    #[tactic(auto, using(sheets::proofs::Entries::from_same, sheets::proofs::Entries::to_same))]
    fn ends(&self, j: usize) -> Ends {
        let passed = Move::from(j);
        // looked up once: with a look-up in each arm, the backward one by `Reversed`, the search took 9 % longer
        let ends = FeedsForward { feeds: self.feeds }.ends(passed.feed());
        match passed {
            Move::Forward(_) => ends,
            Move::Backward(_) => ends.reversed(),
        }
    }

    #[tactic(auto, using(sheets::proofs::Entries::count_is))]
    fn is_passable(&self, j: usize) -> bool {
        match Move::from(j) {
            // no `is_some_and`: tried, and the proof of what its closure answers did not close
            Move::Forward(k) => match self.feeds.get(k) {
                Some(feed) => self.rule.may_pass(k, is_barred(self.bars, k), feed.price),
                None => false,
            },
            Move::Backward(k) => k < self.feeds.len(),
        }
    }
}

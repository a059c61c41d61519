ghost use Rattle.std.specs.Prelude.{[], length};
ghost use Rattle.network.specs.Border.{feeds_forward};
ghost use Rattle.sheets.specs.Sheets.{feeds_chart};

use price::kind::Price;
use search::map::{Ends, Map};
use sheets::Feed;

// Feeds, each passed from its start to its end. Arc k is the feed at place k of the sheet. Beyond the last both ends are 0, as
// in the chart, whose functions are total; with an `Option` each caller would have a case that no arc has.
#[derive(Drop)]
pub struct FeedsForward<'a, P> {
    pub feeds: &'a [Feed<P>],
}

impl<P: Price> Map for FeedsForward<'_, P> {
    ghost size = { λ m. length m.feeds.now };

    ghost graph = { λ m. feeds_forward (feeds_chart P.Price.kind m.feeds.now []) };

    fn arcs(&self) -> usize {
        self.feeds.len()
    }

    fn ends(&self, k: usize) -> Ends {
        self.feeds.get(k).map_or(
            Ends { from: 0, to: 0 },
            |feed| Ends {
                from: usize::from(feed.from),
                to: usize::from(feed.to),
            },
        )
    }

    #[tactic(auto, using(sheets::proofs::Entries::count_is))]
    fn is_passable(&self, k: usize) -> bool {
        k < self.feeds.len()
    }
}

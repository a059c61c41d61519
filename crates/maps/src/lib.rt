// The maps over the sheets of a book, and the searches of a chart on them. Every entry of the feed sheet counts; a shorter
// sheet of bars or flows is read as if it went on with zeros.
#![tactic(auto)]

ghost use Rattle.std.specs.Prelude.{ℕ, ◌*◌, List};
ghost use Rattle.search.specs.Answers.{Answers};
ghost use Rattle.sheets.specs.Sheets.{chart_of, flows_of};
ghost use Rattle.maps.specs.Charts.{chart_meant};
ghost use Rattle.maps.specs.Graphs.{ruled_arcs};
ghost use Rattle.maps.specs.Searches.{SearchFromSource, SearchOpenWay, SearchToSink, SearchUnlimitedWay};

use self::feeds_forward::FeedsForward;
use self::moves::Moves;
use self::reversed::Reversed;
use self::rules::{Open, Rule, Unlimited};
use price::kind::Price;
use search::reach::Reach;
use search::road::Road;
use search::{NoRoad, explore, search};
use sheets::Feed;

pub mod feeds_forward;
pub mod moves;
pub mod reversed;
pub mod rules;

// A chart as sheets hold it: steps 1 to `steps`, two of them source and sink, the feeds, and a bar byte for each. Feeds and
// bars are two slices, as callers keep them: a sheet of bars may be lent alone, and may be shorter.
#[derive(Clone, Copy)]
pub struct Chart<'a, P> {
    pub steps: usize,
    pub source: usize,
    pub sink: usize,
    pub feeds: &'a [Feed<P>],
    pub bars: &'a [u8],
}

impl<P: Price> Chart<'_, P> {
    // The steps to which feeds lead from the source, whatever the sink and the bars.
    pub fn from_source(&self) -> Option<Reach>
        ensures { (sink : ℕ) (bars : List ℕ) → SearchFromSource (chart_of P.kind self.now.steps self.now.source sink self.now.feeds.now bars) result }
    {
        explore(&FeedsForward { feeds: self.feeds }, self.steps, self.source)
    }

    // The steps from which feeds lead to the sink, whatever the source and the bars.
    pub fn to_sink(&self) -> Option<Reach>
        ensures { (source : ℕ) (bars : List ℕ) → SearchToSink (chart_of P.kind self.now.steps source self.now.sink self.now.feeds.now bars) result }
    {
        let feeds = FeedsForward { feeds: self.feeds };
        explore(&Reversed { map: feeds }, self.steps, self.sink)
    }

    // A shortest way from source to sink by moves without limit.
    pub fn unlimited_way(&self) -> Result<Road, NoRoad>
        ensures { SearchUnlimitedWay (chart_meant P.kind self.now) result }
    {
        self.way(Unlimited)
    }

    // A shortest open way (augmenting path) at the flows that the sheet holds; where there is none, the steps that open moves
    // reach from the source. The flows are no part of the chart: no other search has any.
    pub fn open_way(&self, flows: &[P]) -> Result<Road, NoRoad>
        ensures { SearchOpenWay (chart_meant P.kind self.now) (flows_of P.kind flows.now) result }
    {
        self.way(Open { flows })
    }

    // A shortest way from source to sink by moves under a rule.
    fn way<R: Rule<P> + Drop>(&self, rule: R) -> Result<Road, NoRoad>
        ensures { let C = chart_meant P.kind self.now in Answers (2 * C.count) (ruled_arcs C (R.may rule)) C.steps C.source C.sink result }
    {
        let moves = Moves {
            feeds: self.feeds,
            bars: self.bars,
            rule,
        };
        search(&moves, self.steps, self.source, self.sink)
    }
}

ghost use Rattle.std.specs.Prelude.{◌≡◌, ℕ, Bool, ◌||◌, ℤ, ◌<ℤ◌, int_lt, Decides};
ghost use Rattle.sheets.specs.Sheets.{flows_of};

use price::kind::Price;

// Which feeds one may pass forward.
pub trait Rule<P: Price> {
    // Whether one may pass a feed, by its place, its bar and what its price means.
    ghost may: { Self → ℕ → Bool → ℤ → Bool };

    // Whether one may pass the feed at place k, by its bar and its price.
    fn may_pass(&self, k: usize, barred: bool, price: P) -> bool
        ensures { result ≡ may self.now k barred (P.kind.means price) };
}

// The rule of moves without limit: barred feeds alone.
#[derive(Clone, Copy)]
pub struct Unlimited;

impl<P: Price> Rule<P> for Unlimited {
    ghost may = { λ rule k barred price. barred };

    fn may_pass(&self, _k: usize, barred: bool, _price: P) -> bool {
        barred
    }
}

// The rule of open moves: feeds that are barred or whose flow is less than their price.
#[derive(Clone, Copy)]
pub struct Open<'a, P> {
    pub flows: &'a [P],
}

// What flows along the feed at place k; zero where the sheet of flows has no such place.
fn flow_at<P: Price>(flows: &[P], k: usize) -> P
    ensures { P.kind.means result ≡ flows_of P.kind flows.now k }
{
    flows.get(k).copied().unwrap_or(P::zero())
}

impl<P: Price> Rule<P> for Open<'_, P> {
    ghost may = { λ rule k barred price. barred || int_lt (flows_of P.Price.kind rule.flows.now k) price };

    fn may_pass(&self, k: usize, barred: bool, price: P) -> bool {
        barred || flow_at(self.flows, k) < price
    }
}

ghost use Rattle.std.specs.Prelude.{◌≡◌, ◌^◌, ◌<◌, ◌≤◌, true, pos, ◌<ℤ◌};
ghost use Rattle.std.specs.Option.{MatchOption};
ghost use Rattle.std.specs.Cmp.Rules.{comparing};
ghost use Rattle.std.specs.Ordering.{as_partial_cmp, int_cmp, int_eq, on};
ghost use Rattle.price.specs.Kind.{Between, Same, nearest, reach_of};
ghost use Rattle.kinds.specs.RankedKind.{RanksFirst, as_one, ranked_kind, ranked_largest, ranked_means, ranked_named, ranked_of_whole};
ghost use Rattle.price.specs.WrittenKind.{PriceOf};
ghost use Rattle.std.proofs.Common.{rules};

use price::kind::{Price, is_within_flow_limit};
use price::written::Written;
use std::cmp::Ordering;

// A rank (how hard a picture is to open), and a number of MiB that counts where ranks are equal.
#[derive(Clone, Copy, Debug)]
pub struct Ranked {
    pub rank: i32,
    pub size: u64,
}

// The largest price.
const LARGEST: Ranked = Ranked {
    rank: 15,
    size: 4_294_967_295,
};

// Sizes lie below this.
const SIZES: u64 = 17_592_186_044_416;

// A number as its rank and a size below 2^44. Ranks decide before sizes.
#[derive(Clone, Copy, PartialEq, Eq, PartialOrd, Ord)]
struct Parts {
    rank: i32,
    size: u64,
    ghost below: { size < 2 ^ 44 },
}

// The ends of the reach.
const TOP: Parts = Parts {
    rank: 251_662_335,
    size: 17_592_169_267_200,
};

const BOTTOM: Parts = Parts {
    rank: -251_662_336,
    size: 16_777_216,
};

impl Parts {
    fn new(rank: i32, size: u64) -> Option<Parts>
        ensures { MatchOption result (2 ^ 44 ≤ size) (λ parts. (parts.rank ≡ rank) × (parts.size ≡ size)) }
    {
        if size < SIZES {
            Some(Parts { rank, size })
        } else {
            None
        }
    }

    // The parts of a number whose size may be too large for its rank: what is more is carried into the rank.
    fn carried(rank: i32, size: u64) -> Parts
        requires { (rank <ℤ pos (2 ^ 30)) × (size < 2 ^ 45) }
        ensures { as_one result.rank result.size ≡ as_one rank size }
    {
        if size < SIZES {
            Parts { rank, size }
        } else {
            Parts {
                rank: rank + 1,
                size: size - SIZES,
            }
        }
    }
}

impl Ranked {
    // The parts of the number that a total is read as: the upper end, where its fields give no number within the reach.
    fn read(self) -> Parts
        ensures means { as_one result.rank result.size ≡ ranked_means self }
        ensures within { Between (reach_of ranked_largest) (as_one result.rank result.size) }
    {
        let parts = Parts::new(self.rank, self.size).unwrap_or(TOP);
        if parts < BOTTOM { TOP } else { parts.min(TOP) }
    }

    // The total within the reach that is nearest to a number.
    fn held(number: Parts) -> Ranked
        ensures means { ranked_means result ≡ nearest (reach_of ranked_largest) (as_one number.rank number.size) }
        ensures named { ranked_named result ≡ true }
    {
        // no clamp, of which the compiler makes slower sums
        let Parts { rank, size } = if number < BOTTOM {
            BOTTOM
        } else {
            number.min(TOP)
        };
        Ranked { rank, size }
    }
}

// Totals compare by the numbers that they are read as, as sizes do; a derive would compare the fields.
impl Ord for Ranked {
    ghost cmp = { on ranked_means int_cmp };

    ghost total = { Prim.search (comparing, rules) };

    ghost matches_partial_cmp = { Prim.search (comparing, rules) };

    ghost matches_eq = { Prim.search (comparing, rules) };

    #[tactic(auto, using(crate::proofs::Ranks::compared))]
    fn cmp(&self, other: &Ranked) -> Ordering {
        self.read().cmp(&other.read())
    }
}

impl PartialOrd for Ranked {
    ghost partial_cmp = { as_partial_cmp (on ranked_means int_cmp) };

    ghost laws = { Prim.search (comparing, rules) };

    fn partial_cmp(&self, other: &Ranked) -> Option<Ordering> {
        Some(self.cmp(other))
    }
}

impl Eq for Ranked {
    ghost laws = { Prim.search (comparing, rules) };
}

impl PartialEq for Ranked {
    ghost eq = { on ranked_means int_eq };

    ghost laws = { Prim.search (comparing, rules) };

    fn eq(&self, other: &Ranked) -> bool {
        self.cmp(other).is_eq()
    }
}

impl Price for Ranked {
    ghost kind = { ranked_kind };

    ghost sound = { Prim.search rules };

    ghost order = { Prim.search rules };

    fn zero() -> Ranked {
        Ranked { rank: 0, size: 0 }
    }

    fn largest() -> Ranked {
        LARGEST
    }

    fn plus(self, other: Ranked) -> Ranked {
        let a = self.read();
        let b = other.read();
        Ranked::held(Parts::carried(a.rank + b.rank, a.size + b.size))
    }

    fn minus(self, other: Ranked) -> Ranked {
        let a = self.read();
        let b = other.read();
        // one rank is borrowed, and carried back where it is not needed
        Ranked::held(Parts::carried(a.rank - b.rank - 1, a.size + SIZES - b.size))
    }

    fn is_price(self) -> bool {
        self.size <= LARGEST.size && (0..=LARGEST.rank).contains(&self.rank)
    }
}

// Ranks decide before sizes, of sums too.
pub fn ranks_first()
    ensures { RanksFirst }
{}

// Rank 1 with no size, less 5 MiB: one rank is borrowed.
pub fn rank_less_five() -> Ranked
    ensures { Same ranked_kind result (record { rank = pos 0; size = 17592186044411 }) }
{
    let rank = Ranked { rank: 1, size: 0 };
    let five = Ranked { rank: 0, size: 5 };
    rank.minus(five)
}

impl Written for Ranked {
    ghost short = { Prim.search rules };

    fn whole(self) -> Option<i64> {
        if !is_within_flow_limit(self) {
            return None;
        }
        let t = self.read();
        // the casts lose nothing: sizes are below 2^44
        Some(i64::from(t.rank) * SIZES as i64 + t.size as i64)
    }

    // The quotient of n by 2^44 as rank and the remainder as size, where that is a price.
    fn price_of(n: u64) -> Option<Ranked>
        ensures price { PriceOf ranked_kind n result }
        ensures value { result ≡ ranked_of_whole n }
    {
        let t = Ranked {
            rank: (n / SIZES).try_into().ok()?,
            size: n % SIZES,
        };
        t.is_price().then_some(t)
    }
}

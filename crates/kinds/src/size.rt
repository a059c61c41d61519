ghost use Rattle.std.specs.Prelude.{◌≡◌, true};
ghost use Rattle.std.specs.Cmp.Rules.{comparing};
ghost use Rattle.std.specs.Ordering.{as_partial_cmp, int_cmp, int_eq, on};
ghost use Rattle.price.specs.Kind.{Between, nearest, reach_of};
ghost use Rattle.kinds.specs.SizeKind.{size_kind, size_largest, size_means, size_named, size_of_whole};
ghost use Rattle.price.specs.WrittenKind.{PriceOf};
ghost use Rattle.std.proofs.Common.{rules};

use price::kind::{Price, is_within_flow_limit};
use price::written::Written;
use std::cmp::Ordering;

// A number of MiB.
#[derive(Clone, Copy, Debug)]
pub struct Size {
    pub mib: i64,
}

const LARGEST: i64 = 4_294_967_295;

// 2^24 times the largest price.
const REACH: i64 = 72_057_594_021_150_720;

impl Size {
    // The MiB that a size is read as.
    fn read(self) -> i64
        ensures means { result ≡ size_means self }
        ensures within { Between (reach_of size_largest) result }
    {
        if (-REACH..=REACH).contains(&self.mib) {
            self.mib
        } else {
            REACH
        }
    }

    // The size nearest to a number of MiB. Here and in `read` the ranked kind goes by a rank and a size, which not all contents
    // give: a trait over both kinds would be longer than these bodies are.
    fn held(mib: i64) -> Size
        ensures means { size_means result ≡ nearest (reach_of size_largest) mib }
        ensures named { size_named result ≡ true }
    {
        Size {
            mib: mib.clamp(-REACH, REACH),
        }
    }
}

// Sizes compare by the MiB that they are read as; a derive would compare the fields. The ranked kind has such impls of its
// own: one for all kinds would be an impl of another crate's trait for a type parameter, which is not allowed, and the gate
// refuses impls by a macro.
impl Ord for Size {
    ghost cmp = { on size_means int_cmp };

    ghost total = { Prim.search (comparing, rules) };

    ghost matches_partial_cmp = { Prim.search (comparing, rules) };

    ghost matches_eq = { Prim.search (comparing, rules) };

    fn cmp(&self, other: &Size) -> Ordering {
        self.read().cmp(&other.read())
    }
}

impl PartialOrd for Size {
    ghost partial_cmp = { as_partial_cmp (on size_means int_cmp) };

    ghost laws = { Prim.search (comparing, rules) };

    fn partial_cmp(&self, other: &Size) -> Option<Ordering> {
        Some(self.cmp(other))
    }
}

impl Eq for Size {
    ghost laws = { Prim.search (comparing, rules) };
}

impl PartialEq for Size {
    ghost eq = { on size_means int_eq };

    ghost laws = { Prim.search (comparing, rules) };

    fn eq(&self, other: &Size) -> bool {
        self.cmp(other).is_eq()
    }
}

impl Price for Size {
    ghost kind = { size_kind };

    ghost sound = { Prim.search rules };

    ghost order = { Prim.search rules };

    fn zero() -> Size {
        Size { mib: 0 }
    }

    fn largest() -> Size {
        Size { mib: LARGEST }
    }

    fn plus(self, other: Size) -> Size {
        Size::held(self.read() + other.read())
    }

    fn minus(self, other: Size) -> Size {
        Size::held(self.read() - other.read())
    }

    fn is_price(self) -> bool {
        (0..=LARGEST).contains(&self.mib)
    }
}

impl Written for Size {
    ghost short = { Prim.search rules };

    fn whole(self) -> Option<i64> {
        // an if and no then, of which the compiler makes slower code
        if is_within_flow_limit(self) {
            Some(self.read())
        } else {
            None
        }
    }

    // The size of n MiB, where that is a price.
    fn price_of(n: u64) -> Option<Size>
        ensures price { PriceOf size_kind n result }
        ensures value { result ≡ size_of_whole n }
    {
        let size = Size {
            mib: n.try_into().ok()?,
        };
        size.is_price().then_some(size)
    }
}

ghost use Rattle.std.specs.Prelude.{◌≡◌, true, pos, ◌+ℤ◌, ◌-ℤ◌, ◌*ℤ◌, ◌<ℤ◌, Decides};
ghost use Rattle.std.specs.Ordering.{int_cmp};
ghost use Rattle.price.specs.Kind.{Between, PriceKind, Same, Sound, flow_limit, nearest, reach};

// A kind of prices (capacities). Each of its totals means one whole number within the kind's reach,
// and totals compare as their meanings do.
pub trait Price: Copy + Ord {
    // What the totals mean, the largest price, and which totals are named and which are prices. That a total is named stands
    // in the clauses and not in its type, since a sheet may hold any content, and each is taken.
    ghost kind: { PriceKind Self };

    // The price that means 0.
    fn zero() -> Self
        ensures means { kind.means result ≡ pos 0 }
        ensures price { kind.price result ≡ true }
        ensures named { kind.named result ≡ true };

    // The largest price.
    fn largest() -> Self
        ensures means { kind.means result ≡ pos kind.largest }
        ensures price { kind.price result ≡ true }
        ensures named { kind.named result ≡ true };

    // The sum, or the end of the reach that is nearer to it.
    fn plus(self, other: Self) -> Self
        ensures means { kind.means result ≡ nearest (reach kind) (kind.means self +ℤ kind.means other) }
        ensures named { kind.named result ≡ true };

    // The difference, or the end of the reach that is nearer to it.
    fn minus(self, other: Self) -> Self
        ensures means { kind.means result ≡ nearest (reach kind) (kind.means self -ℤ kind.means other) }
        ensures named { kind.named result ≡ true };

    // Whether a total is a price of the kind.
    fn is_price(self) -> bool
        ensures { result ≡ kind.price self };

    // Meanings lie within the reach, and those of prices between 0 and the largest.
    ghost sound: { Sound kind };

    // Less, equal or greater, as the meanings are.
    ghost order: { (x y : Self) → Self.Ord.cmp x y ≡ int_cmp (kind.means x) (kind.means y) };
}

// Whether two totals mean the same number: `==`, with its meaning as a clause in place of the law.
pub fn is_same<P: Price>(a: P, b: P) -> bool
    ensures { Decides result (Same P.kind a b) }
{
    a == b
}

// Whether a total means a number below 0: `<`, with its meaning as a clause.
pub fn is_negative<P: Price>(total: P) -> bool
    ensures { Decides result (P.kind.means total <ℤ pos 0) }
{
    total < P::zero()
}

// 8 times a total, or the end of the reach that is nearer to it. Always inline: else `flow_limit` is no constant to the compiler.
#[inline(always)]
fn eightfold<P: Price>(total: P) -> P
    ensures means { P.kind.means result ≡ nearest (reach P.kind) (pos 8 *ℤ P.kind.means total) }
    ensures named { P.kind.named result ≡ true }
{
    let twice = total.plus(total);
    let four = twice.plus(twice);
    four.plus(four)
}

// 4,096 times the largest price, by doubling.
pub fn flow_limit<P: Price>() -> P
    ensures means { P.kind.means result ≡ pos (flow_limit P.kind) }
    ensures named { P.kind.named result ≡ true }
{
    // no loop, which the compiler would run at each call
    eightfold(eightfold(eightfold(eightfold(P::largest()))))
}

// Whether a total lies within the flow limit, on either side of 0. A test and no type of totals within it: sums leave it.
pub fn is_within_flow_limit<P: Price>(total: P) -> bool
    ensures { Decides result (Between (flow_limit P.kind) (P.kind.means total)) }
{
    let limit = flow_limit::<P>();
    (P::zero().minus(limit)..=limit).contains(&total)
}

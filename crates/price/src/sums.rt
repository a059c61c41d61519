ghost use Rattle.std.specs.Prelude.{◌≡◌, true, map, pos};
ghost use Rattle.price.specs.Kind.{reach};
ghost use Rattle.price.specs.Sums.{Modest, held_sum, sum_of};

use super::kind::Price;

// The sum of totals, added in turn: exact where they are at most 4,096 and each lies within the flow limit.
pub fn sum_of<P: Price>(totals: &[P]) -> P
    ensures means { P.kind.means result ≡ held_sum (reach P.kind) (pos 0) (map P.kind.means totals.now) }
    ensures exact { Modest P.kind totals.now → P.kind.means result ≡ sum_of P.kind totals.now }
    ensures named { P.kind.named result ≡ true }
{
    totals.iter().fold(P::zero(), |sum, total| sum.plus(*total))
}

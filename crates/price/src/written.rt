ghost use Rattle.std.specs.Prelude.{◌≡◌, ◌^◌, ◌<◌, ◌↔◌, if◌then◌else◌, is_some, IsSome};
ghost use Rattle.std.specs.Option.{SomeIff};
ghost use Rattle.lines.specs.Texts.{joined_on};
ghost use Rattle.price.specs.Kind.{Between, flow_limit};
ghost use Rattle.price.specs.WrittenKind.{PriceOf, digits_of};

use super::kind::Price;
use lines::line::Line;

// A kind whose prices are read and written as whole numbers of at most 15 digits.
// Its two readings are no TryFrom: that would need an error type for a single cause, and laws in place of the clauses.
pub trait Written: Price {
    // The whole number that a total within the flow limit means; none beyond the limit.
    fn whole(self) -> Option<i64>
        ensures { SomeIff result (Between (flow_limit Self.Price.kind) (Self.Price.kind.means self)) (Self.Price.kind.means self) };

    // The price that means n; none where no price does.
    fn price_of(n: u64) -> Option<Self>
        ensures { PriceOf Self.Price.kind n result };

    // Puts the decimal digits of a total within the flow limit on a line, without its sign;
    // beyond the limit the answer is none and the line stays.
    fn put_digits(self, line: &mut Line) -> Option<()>
        ensures served { IsSome result ↔ Between (flow_limit Self.Price.kind) (Self.Price.kind.means self) }
        ensures line { line.new.bytes ≡ (if is_some result then joined_on line.old.bytes (digits_of Self.Price.kind self) else line.old.bytes) }
    {
        line.put_number(self.whole()?.unsigned_abs());
        Some(())
    }

    // Prices have at most 15 digits.
    ghost short: { Self.Price.kind.largest < 10 ^ 15 };
}

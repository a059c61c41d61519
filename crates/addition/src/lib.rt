#![tactic(auto)]

ghost use Rattle.std.specs.Prelude.{◌≡◌, ◌++◌, codes, MatchOption};
ghost use Rattle.price.specs.Kind.{Between, flow_limit};
ghost use Rattle.price.specs.WrittenKind.{digits_of};
ghost use Rattle.addition.specs.Adding.{AddsUp, Answers, Priced, Writes};

use lines::line::Line;
use lines::number::read_number;
use lines::split::Lines;
use price::written::Written;
use refusal::Refusal;

// A border keeps at most this many feeds.
const MOST_LINES: usize = 4_096;

// The price that a line writes.
fn price_on<W: Written>(line: &[u8]) -> Option<W>
    ensures { MatchOption result (Priced W.Price.kind line.now → ⊥) (λ p. Writes W.Price.kind line.now p) }
{
    W::price_of(read_number(line)?)
}

// Adds up the prices of a text that has one on each line.
pub fn add_up<W: Written>(text: &[u8]) -> Result<W, Refusal>
    ensures { AddsUp W.Price.kind text.now result }
{
    let mut total = W::zero();
    for (line, number) in Lines::of(text).zip(1..) {
        let price = price_on::<W>(line).ok_or(Refusal::NotAPrice { line: number })?;
        if number > MOST_LINES {
            return Err(Refusal::NoPlace { line: number });
        }
        total = total.plus(price);
    }
    Ok(total)
}

// The line `s TOTAL`, put together here since a formatter may fail and this cannot.
fn total_line<W: Written>(total: W) -> Line
    requires { Between (flow_limit W.Price.kind) (W.Price.kind.means total) }
    ensures { result.bytes ≡ codes "s " ++ (digits_of W.Price.kind total ++ codes "\n") }
{
    let mut line = Line::new();
    line.put(b"s ");
    let _ = total.put_digits(&mut line);
    line.push(b'\n');
    line
}

// What the prices of a text add up to, as a line to print; or why there is no such line.
pub fn answer_text<W: Written>(text: &[u8]) -> Result<Line, Refusal>
    ensures { Answers W.Price.kind text.now result }
{
    let total = add_up::<W>(text)?;
    Ok(total_line(total))
}

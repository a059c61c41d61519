#![tactic(auto)]

ghost use Rattle.std.specs.Prelude.{◌≡◌, Some};
ghost use Rattle.std.specs.Option.{ok_or};
ghost use Rattle.lines.specs.Buffers.{filled, fitted};
ghost use Rattle.refusal.specs.Numbered.{number_of, place_of, refusal_text, refusal_words};
ghost use Rattle.refusal.specs.declared.Refusal.TheVariants.{ShortBuffer};

use lines::line::Line;
use std::error::Error;
use std::fmt;

// Why a call was refused. In a text `line` is the line at fault, counted from 1; elsewhere it is 0, the place that the product's
// rules give such a refusal.
#[derive(Clone, Copy, Debug, PartialEq, Eq)]
pub enum Refusal {
    // Fewer than 2 steps, or more than 1,024.
    StepCount { line: usize },
    // The source or the sink is no step.
    EndOutside { line: usize },
    // The source is the sink.
    EndsEqual { line: usize },
    // No feed, step or line has this number.
    NoSuchNumber { number: usize },
    // An end of an entered feed is no step.
    FeedEndOutside { line: usize },
    // Not a price of the kind.
    NotAPrice { line: usize },
    // No place for one more feed.
    NoPlace { line: usize },
    // A sheet is shorter than the feeds or the steps.
    ShortSheet,
    // A feed whose ends, price, bar or flow cannot be used.
    UnfitFeed { feed: usize },
    // A step on no way.
    IdleStep { step: usize },
    // Each border has a feed running back or keeps a barred feed.
    NoBorder,
    // No open way (augmenting path) is left.
    NoOpenWay,
    // An open way is left.
    OpenWayLeft,
    // More than 65,536 bytes.
    LongText,
    // The line's letter is missing, unknown or without its space.
    BadLetter { line: usize },
    // A line out of its turn, given twice, or missing.
    OutOfTurn { line: usize },
    // A line with too few or too many fields.
    FieldCount { line: usize },
    // A field that is not the word or the number that belongs there.
    BadField { line: usize },
    // More or fewer arc lines than announced.
    ArcCount { line: usize },
    // The buffer is shorter than the line.
    ShortBuffer,
    // A barred feed, which a problem text cannot tell.
    BarredFeed { feed: usize },
}

impl Refusal {
    // The number by which the refusal is known: the product's table. A case that carries a value has no cast to a number.
    pub fn number(self) -> u8
        ensures { result ≡ number_of self }
    {
        match self {
            Refusal::StepCount { .. } => 11,
            Refusal::EndOutside { .. } => 12,
            Refusal::EndsEqual { .. } => 13,
            Refusal::NoSuchNumber { .. } => 14,
            Refusal::FeedEndOutside { .. } => 15,
            Refusal::NotAPrice { .. } => 16,
            Refusal::NoPlace { .. } => 17,
            Refusal::ShortSheet => 18,
            Refusal::UnfitFeed { .. } => 19,
            Refusal::IdleStep { .. } => 20,
            Refusal::NoBorder => 21,
            Refusal::NoOpenWay => 22,
            Refusal::OpenWayLeft => 23,
            Refusal::LongText => 30,
            Refusal::BadLetter { .. } => 31,
            Refusal::OutOfTurn { .. } => 32,
            Refusal::FieldCount { .. } => 33,
            Refusal::BadField { .. } => 34,
            Refusal::ArcCount { .. } => 35,
            Refusal::ShortBuffer => 36,
            Refusal::BarredFeed { .. } => 37,
        }
    }

    // The feed, step or line at fault, or 0, as the product's rules say it.
    pub fn place(self) -> usize
        ensures { result ≡ place_of self }
    {
        match self {
            Refusal::StepCount { line }
            | Refusal::EndOutside { line }
            | Refusal::EndsEqual { line }
            | Refusal::FeedEndOutside { line }
            | Refusal::NotAPrice { line }
            | Refusal::NoPlace { line }
            | Refusal::BadLetter { line }
            | Refusal::OutOfTurn { line }
            | Refusal::FieldCount { line }
            | Refusal::BadField { line }
            | Refusal::ArcCount { line } => line,
            Refusal::NoSuchNumber { number } => number,
            Refusal::UnfitFeed { feed } | Refusal::BarredFeed { feed } => feed,
            Refusal::IdleStep { step } => step,
            Refusal::ShortSheet
            | Refusal::NoBorder
            | Refusal::NoOpenWay
            | Refusal::OpenWayLeft
            | Refusal::LongText
            | Refusal::ShortBuffer => 0,
        }
    }

    // The line that tells the refusal: `c refused NUMBER PLACE`. Put together here and not by `Display`, since a formatter may
    // fail and this cannot.
    pub fn line(self) -> Line
        ensures { result.bytes ≡ refusal_text self }
    {
        let mut line = Line::new();
        line.put(b"c refused ");
        line.put_number(u64::from(self.number()));
        line.push(b' ');
        // widens: there is no `From<usize>`
        line.put_number(self.place() as u64);
        line.push(b'\n');
        line
    }

    // Copies that line to the front of a buffer and answers its length; a short buffer stays as it is.
    pub fn write_line(self, buffer: &mut [u8]) -> Result<usize, Refusal>
        ensures answer { result ≡ ok_or (fitted (refusal_text self) buffer.old) ShortBuffer }
        ensures buffer { buffer.new ≡ filled (refusal_text self) buffer.old }
    {
        self.line().copy_to(buffer).ok_or(Refusal::ShortBuffer)
    }
}

// `c refused NUMBER PLACE`, without a line feed.
impl fmt::Display for Refusal {
    ghost output = { λ refusal. Some (refusal_words refusal) };

    fn fmt<W: fmt::Write>(&self, f: &mut fmt::Formatter<W>) -> fmt::Result {
        let number = self.number();
        let place = self.place();
        write!(f, "c refused {number} {place}")
    }
}

impl Error for Refusal {}

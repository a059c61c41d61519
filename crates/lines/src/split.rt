ghost use Rattle.std.specs.Prelude.{◌≡◌, ◌<◌, [], length, MatchOption};
ghost use Rattle.std.specs.Iterator.{YieldsFirstBy, item_count};
ghost use Rattle.lines.specs.Split.{FirstLine, lines_of};
ghost use Rattle.lines.specs.Left.{lines_left};

use memchr::memchr;

// The last place, counted from 0, at which a line feed is looked for byte by byte. A line that is a number ends before it,
// and on a long text `memchr` tests a block of 64 bytes before it answers.
const NEAR: usize = 16;

// The first line of a text without its line feed, and what follows; none where the text is empty.
pub fn first_line(text: &[u8]) -> Option<(&[u8], &[u8])>
    ensures { MatchOption result (text.now ≡ []) (λ p. FirstLine text.now p.0.now p.1.now) }
{
    for (i, byte) in text.iter().enumerate() {
        if *byte == b'\n' {
            return Some((&text[..i], &text[i + 1..]));
        }
        if i == NEAR {
            return Some(first_long_line(text));
        }
    }
    if text.is_empty() {
        None
    } else {
        Some((text, &[]))
    }
}

// The same, for a text with some byte, by a search that is fast on long lines. Never inlined, so that `first_line` stays small.
#[inline(never)]
fn first_long_line(text: &[u8]) -> (&[u8], &[u8])
    requires { 0 < length text.now }
    ensures { FirstLine text.now result.0.now result.1.now }
{
    match memchr(b'\n', text) {
        Some(end) => (&text[..end], &text[end + 1..]),
        None => (text, &[]),
    }
}

// The lines of a text in turn, each without its line feed.
#[derive(Drop)]
pub struct Lines<'a> {
    rest: &'a [u8],
}

impl<'a> Lines<'a> {
    // All lines of a text.
    pub fn of(text: &'a [u8]) -> Lines<'a>
        ensures { lines_left result ≡ lines_of text.now }
    {
        Lines { rest: text }
    }
}

impl<'a> Iterator for Lines<'a> {
    type Item = &'a [u8];

    ghost next_gives = { YieldsFirstBy (λ line. line.now) lines_left };

    ghost remaining = { item_count lines_left };

    fn next(&mut self) -> Option<&'a [u8]> {
        let (line, rest) = first_line(self.rest)?;
        self.rest = rest;
        Some(line)
    }
}

ghost use Rattle.std.specs.Prelude.{◌≡◌};
ghost use Rattle.lines.specs.Numbers.{number_in};

// The most digits that a number in a text has.
const MOST_DIGITS: usize = 15;

// The number that a field of a text writes, or none where it is no number. By its digits and not by `parse`, which would want
// a `&str` and take a sign too.
pub fn read_number(field: &[u8]) -> Option<u64>
    ensures { result ≡ number_in field.now }
{
    if field.is_empty() || field.len() > MOST_DIGITS {
        return None;
    }
    let mut n: u64 = 0;
    for digit in field {
        if !digit.is_ascii_digit() {
            return None;
        }
        n = n * 10 + u64::from(*digit - b'0');
    }
    Some(n)
}

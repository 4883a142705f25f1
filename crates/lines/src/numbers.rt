// The number that an item of a line is.
ghost use Rattle.std.specs.Prelude.{◌≡◌, ◌≤◌, length};
ghost use Rattle.lines.specs.Numbers.{number_in, worth};

// How many digits a number may have.
const MOST_DIGITS: usize = 5;

// The value of at most five digits; none where a byte is no digit.
fn value_of(item: &[u8]) -> Option<u32>
    requires { length item.now ≤ 5 }
    ensures { result ≡ worth item.now }
{
    // By hand: the library's `parse` takes a plus sign, and any number of zeros in front.
    let mut value = 0;
    for b in item {
        if !b.is_ascii_digit() {
            return None;
        }
        value = value * 10 + u32::from(*b - b'0');
    }
    Some(value)
}

// The number of an item: one to five digits, at most 65,535.
#[tactic(auto, unfolding(crate::specs::Numbers::number_in))]
pub fn number(item: &[u8]) -> Option<u16>
    ensures { result ≡ number_in item.now }
{
    if item.is_empty() || item.len() > MOST_DIGITS {
        return None;
    }
    u16::try_from(value_of(item)?).ok()
}

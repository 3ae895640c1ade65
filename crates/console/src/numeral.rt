ghost use Rattle.std.specs.Prelude.{◌≡◌};
ghost use Rattle.console.specs.Numerals.{number};

// The number that 1 to 10 digits spell, up to 4,294,967,295.
pub fn number(digits: &[u8]) -> Option<u32>
    ensures { result ≡ number digits.now }
{
    if !(1..=10).contains(&digits.len()) {
        return None;
    }
    let mut value: u64 = 0;
    for digit in digits {
        if !digit.is_ascii_digit() {
            return None;
        }
        value = value * 10 + u64::from(*digit - b'0');
    }
    u32::try_from(value).ok()
}

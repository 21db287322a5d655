// What an argument of a program says.
#![tactic(auto)]

ghost use Rattle.std.specs.Prelude.{◌≡◌};
ghost use Rattle.arguments.specs.Arguments.{is_digit, record_number};

// Whether a byte is a decimal digit.
fn is_digit(byte: u8) -> bool
    ensures { result ≡ is_digit byte }
{
    (48 <= byte) & (byte <= 57)
}

// The number of a record, from 1, that an argument of 1 to 19 digits gives.
pub fn record_number(bytes: &[u8]) -> Option<u64>
    ensures { result ≡ record_number bytes.now }
{
    if 19 < bytes.len() {
        return None;
    }
    let mut value = 0;
    for &byte in bytes {
        if !is_digit(byte) {
            return None;
        }
        value = 10 * value + u64::from(byte - 48);
    }
    (0 < value).then_some(value)
}

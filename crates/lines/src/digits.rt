// Numbers as they are written.
ghost use Rattle.std.specs.Prelude.{◌≡◌, ℕ, ◌≤◌, length};
ghost use Rattle.lines.specs.Digits.{value_of, AllDigits, all_digits, is_number, numeral_of};

// Ten times the value of the digits before the last, plus the last. Only `numeral` calls it, which has looked at the bytes.
fn value(digits: &[u8]) -> u32
    requires few { length digits.now ≤ 8 }
    requires all { AllDigits digits.now }
    ensures { result ≡ value_of digits.now }
{
    match digits {
        [] => 0,
        [only] => u32::from(*only - b'0'),
        [front @ .., last] => u32::from(*last - b'0') + 10 * value(front),
    }
}

fn all_digits(bytes: &[u8]) -> bool
    ensures { result ≡ all_digits bytes.now }
{
    bytes.iter().all(|b| b.is_ascii_digit())
}

// One to eight digits, with no leading zero but 0 itself.
fn is_number(bytes: &[u8]) -> bool
    ensures { result ≡ is_number bytes.now }
{
    1 <= bytes.len()
        && bytes.len() <= 8
        && (bytes.len() == 1 || bytes[0] != b'0')
        && all_digits(bytes)
}

pub fn numeral(bytes: &[u8]) -> Option<u32>
    ensures { result ≡ numeral_of bytes.now }
{
    if is_number(bytes) {
        Some(value(bytes))
    } else {
        None
    }
}

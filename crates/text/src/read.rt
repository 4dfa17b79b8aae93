//! Reads a number in its one written form.
ghost use Rattle.std.specs.Prelude.{◌≡◌, ℕ, ◌≤◌, ℤ, decimal, MatchOption, ◌≢◌};
ghost use Rattle.text.specs.Numbers.{Writes};

// The largest number that may be written.
const LARGEST: u32 = 1_000_000;

// How many digits the largest number has.
const MOST_DIGITS: usize = 7;

/// The number within ±1,000,000 that `field` writes, if it writes one: no `+`, no leading zero, no `-0`, and nothing past the largest number.
pub fn number(field: &[u8]) -> Option<i32>
    ensures { MatchOption result ((n : ℤ) → Writes field.now n → ⊥) (λ n. Writes field.now n) }
{
    let (first, digits) = field.split_first()?;
    if *first == b'-' {
        match natural(digits)? {
            0 => None,
            n => Some(-(n as i32)),
        }
    } else {
        Some(natural(field)? as i32)
    }
}

// The number that `digits` writes with no sign, if it writes one. Seven digits at most, so the sum fits.
fn natural(digits: &[u8]) -> Option<u32>
    ensures { MatchOption result ((n : ℕ) → n ≤ 1000000 → digits.now ≢ decimal n) (λ n. (n ≤ 1000000) × (digits.now ≡ decimal n)) }
{
    if digits.is_empty() || digits.len() > MOST_DIGITS {
        return None;
    }
    if digits[0] == b'0' && digits.len() > 1 {
        return None;
    }
    let mut value = 0;
    for d in digits {
        if !d.is_ascii_digit() {
            return None;
        }
        value = 10 * value + u32::from(*d - b'0');
    }
    if value > LARGEST {
        return None;
    }
    Some(value)
}

// Hexadecimal digits, 0 to 9 and then A to F.
ghost use Rattle.std.specs.Prelude.{◌≡◌, ◌↔◌, IsNone, IfSome};
ghost use Rattle.replay_text.specs.Digits.{digit_of, with_digit};

// The value of a digit.
pub fn digit_of(b: u8) -> Option<u64>
    ensures none { IsNone result ↔ digit_of b ≡ 16 }
    ensures value { IfSome result (λ d. d ≡ digit_of b) }
{
    match b {
        b'0'..=b'9' => Some(b as u64 - 48),
        b'A'..=b'F' => Some(b as u64 - 55),
        _ => None,
    }
}

// A number with one digit more, of which the last sixteen count. A byte that is no digit counts as 0.
pub fn with_digit(number: u64, b: u8) -> u64
    ensures { result ≡ with_digit number b }
{
    number % 0x1000000000000000 * 16 + digit_of(b).unwrap_or(0)
}

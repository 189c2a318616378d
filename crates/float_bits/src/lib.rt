// The bits of a float as a word, every NaN by one word, and a word as text.
#![tactic(auto)]

ghost use Rattle.std.specs.Prelude.{◌≡◌, ◌<◌};
ghost use Rattle.std.specs.Float.{binary64};
ghost use Rattle.std.specs.Float.Ieee.{to_bits, of_bits};
ghost use Rattle.float_bits.specs.Word.{digit_of, word_of};

// A NaN's pattern, whichever it has.
const NAN_BITS: u64 = 0x7FF8000000000000;

pub fn bits_of(x: f64) -> u64
    ensures { result ≡ to_bits binary64 x }
{
    if x != x {
        return NAN_BITS;
    }
    f64::to_bits(x)
}

// The float of a pattern: a NaN for each of a NaN's.
pub fn float_of(bits: u64) -> f64
    ensures { result ≡ of_bits binary64 bits }
{
    if bits % 0x8000000000000000 <= 0x7FF0000000000000 {
        return f64::from_bits(bits);
    }
    0.0 / 0.0
}

// The code of a hexadecimal digit: 0 to 9, then A to F.
fn digit(d: u64) -> u8
    requires { d < 16 }
    ensures { result ≡ digit_of d }
{
    if d < 10 {
        return b'0' + d as u8;
    }
    b'A' - 10 + d as u8
}

// The 16 hexadecimal digits of a word, in upper case.
pub fn word_text(word: u64) -> [u8; 16]
    ensures { result ≡ word_of word }
{
    let mut text = [0u8; 16];
    let mut rest = word;
    let mut i = 16;
    while i > 0 {
        i -= 1;
        text[i] = digit(rest % 16);
        rest /= 16;
    }
    text
}

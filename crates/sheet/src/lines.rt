// Numbers and lines written into bytes that the caller lends, one behind the other: no io.
ghost use Rattle.std.specs.Prelude.{◌+◌, ◌≤◌, [], ◌≡◌, length};
ghost use Rattle.sheet.specs.Decimal.{decimal_of, whole_text};
ghost use Rattle.sheet.specs.Lines.{line_of};
ghost use Rattle.sheet.specs.program.Lines.{Printed, Appends, digits_in};

// The digits of a number, from the place `first` on.
#[derive(Clone, Copy)]
pub struct Digits {
    pub digits: [u8; 20],
    pub first: usize,
}

fn decimal(v: usize) -> Digits
    ensures { (digits_in result ≡ decimal_of v) × (result.first ≤ 20) × (length result.digits ≡ 20) }
{
    let mut digits = [0u8; 20];
    let mut rest = v;
    let mut first = 20;
    while rest >= 10 {
        first -= 1;
        digits[first] = b'0' + (rest % 10) as u8;
        rest /= 10;
    }
    first -= 1;
    digits[first] = b'0' + rest as u8;
    Digits { digits, first }
}

// Clears all bytes.
pub fn clear_bytes(out: &mut [u8])
    ensures { Printed (length out.old) [] out.new 0 }
{
    out.fill(0);
}

// Writes a text behind what is written, and returns the place behind it.
pub fn append(out: &mut [u8], place: usize, text: &[u8]) -> usize
    requires { place + length text.now ≤ length out.old }
    ensures { (result ≡ place + length text.now) ×
        Appends out.old place text.now out.new result }
{
    let end = place + text.len();
    out[place..end].copy_from_slice(text);
    end
}

// A number without leading zeros.
pub fn number(out: &mut [u8], place: usize, v: usize) -> usize
    requires { place + 20 ≤ length out.old }
    ensures { (result ≤ place + 20) × Appends out.old place (decimal_of v) out.new result }
{
    let d = decimal(v);
    let first = d.first;
    let digits = d.digits;
    append(out, place, &digits[first..])
}

// A whole number, with a minus sign below 0. The size of v is one more than that of v + 1, which is one of an i64 for
// every v.
pub fn whole_number(out: &mut [u8], place: usize, v: i64) -> usize
    requires { place + 21 ≤ length out.old }
    ensures { (result ≤ place + 21) × Appends out.old place (whole_text v) out.new result }
{
    if v < 0 {
        let digits = append(out, place, b"-");
        return number(out, digits, (0 - (v + 1)) as usize + 1);
    }
    number(out, place, v as usize)
}

// A key, a number, and the line's end.
pub fn number_line(out: &mut [u8], place: usize, key: &[u8], v: usize) -> usize
    requires { place + length key.now + 21 ≤ length out.old }
    ensures { (result ≤ place + length key.now + 21) ×
        Appends out.old place (line_of key.now (decimal_of v)) out.new result }
{
    let second = append(out, place, key);
    let third = number(out, second, v);
    append(out, third, b"\n")
}

// The numbers of a sheet. A size is kept up to a cap, which is out of every range: digits may go on as long as they
// like.
ghost use Rattle.std.specs.Prelude.{◌≤◌, ◌≡◌, drop};
ghost use Rattle.sheet.specs.Numbers.{is_digit, unsigned_of, number_of, field_of, one_of, two_of, three_of};
ghost use Rattle.sheet.specs.Numbers.{whole_of, is_natural, is_between};
ghost use Rattle.sheet.specs.program.Numbers.{CAP, capped, capped_one, capped_two, capped_three};
ghost use Rattle.sheet.specs.program.Text.{read_in};

use crate::fault::Fault;
use crate::text::{Read, behind, byte_at};

const PLUS: u8 = b'+';

const MINUS: u8 = b'-';

const COMMA: u8 = b',';

const LINE_FEED: u8 = b'\n';

const CAP: usize = 10000001;

// A sign and a size. Of size 0 it is 0, whatever its sign.
#[derive(Clone, Copy)]
pub struct Number {
    pub negative: bool,
    pub size: usize,
}

fn is_digit(b: u8) -> bool
    ensures { result ≡ is_digit b }
{
    b.is_ascii_digit()
}

fn capped(v: usize) -> usize
    ensures { result ≡ capped v }
{
    v.min(CAP)
}

// At least one digit.
fn unsigned(text: &[u8], at: usize, negative: bool) -> Read<Number>
    ensures { read_in text.now result ≡ capped_one (unsigned_of negative (drop at text.now)) }
{
    if !is_digit(byte_at(text, at)) {
        return Err(Fault::Malformed);
    }
    let mut size = 0;
    for i in at..text.len() {
        let b = text[i];
        if !is_digit(b) {
            return Ok((Number { negative, size }, i));
        }
        size = capped(10 * size + (b - b'0') as usize);
    }
    Ok((Number { negative, size }, text.len()))
}

fn signed(text: &[u8], at: usize) -> Read<Number>
    ensures { read_in text.now result ≡ capped_one (number_of (drop at text.now)) }
{
    let sign = byte_at(text, at);
    if sign == MINUS {
        return unsigned(text, at + 1, true);
    }
    if sign == PLUS {
        return unsigned(text, at + 1, false);
    }
    unsigned(text, at, false)
}

// A number and the byte that ends it.
fn field(text: &[u8], at: usize, end: u8) -> Read<Number>
    ensures { read_in text.now result ≡ capped_one (field_of end (drop at text.now)) }
{
    let (x, next) = signed(text, at)?;
    let rest = behind(text, next, end)?;
    Ok((x, rest))
}

// The last number of a line.
pub fn one_field(text: &[u8], at: usize) -> Read<Number>
    ensures { read_in text.now result ≡ capped_one (one_of (drop at text.now)) }
{
    field(text, at, LINE_FEED)
}

pub fn two_fields(text: &[u8], at: usize) -> Read<(Number, Number)>
    ensures { read_in text.now result ≡ capped_two (two_of (drop at text.now)) }
{
    let (x, next) = field(text, at, COMMA)?;
    let (y, rest) = one_field(text, next)?;
    Ok(((x, y), rest))
}

pub fn three_fields(text: &[u8], at: usize) -> Read<(Number, Number, Number)>
    ensures { read_in text.now result ≡ capped_three (three_of (drop at text.now)) }
{
    let (x, next) = field(text, at, COMMA)?;
    let ((y, z), rest) = two_fields(text, next)?;
    Ok(((x, y, z), rest))
}

// ---- what a number says

// Not below 0.
pub fn is_natural(x: Number) -> bool
    ensures { result ≡ is_natural x }
{
    !x.negative || x.size == 0
}

pub fn is_between(least: usize, most: usize, x: Number) -> bool
    ensures { result ≡ is_between least most x }
{
    is_natural(x) && least <= x.size && x.size <= most
}

// The whole number that is written.
pub fn whole(x: Number) -> i64
    requires { x.size ≤ CAP }
    ensures { result ≡ whole_of x }
{
    let size = x.size as i64;
    if x.negative {
        return 0 - size;
    }
    size
}

// What the interval crate answers for a line's code and operands, in words.
use float_bits::{bits_of, float_of};
use interval::{GeopError, Scalar};

// What a line has behind its sign: 0 and a value's words, or the number of a refusal and zeros.
#[derive(Clone, Copy)]
pub struct Answer(pub [u64; 3]);

impl From<f64> for Answer {
    fn from(x: f64) -> Answer {
        Answer([0, bits_of(x), 0])
    }
}

impl From<bool> for Answer {
    fn from(b: bool) -> Answer {
        Answer([0, b as u64, 0])
    }
}

impl From<Scalar> for Answer {
    fn from(x: Scalar) -> Answer {
        Answer([0, bits_of(x.lo), bits_of(x.hi)])
    }
}

impl From<Result<Scalar, GeopError>> for Answer {
    fn from(r: Result<Scalar, GeopError>) -> Answer {
        match r {
            Ok(x) => x.into(),
            Err(e) => Answer([usize::from(e) as u64, 0, 0]),
        }
    }
}

impl Answer {
    // For a code that the list does not have: a line's number has one digit, so none records this.
    const UNKNOWN: Answer = Answer([255, 0, 0]);
}

fn of_numbers(code: u64, a: u64, b: u64) -> Answer {
    match code {
        0x00 => interval::next_up(float_of(a)).into(),
        0x01 => interval::next_down(float_of(a)).into(),
        0x02 => Scalar::degenerate(float_of(a)).into(),
        0x03 => Scalar::from_i64(a.cast_signed()).into(),
        0x04 => Scalar::from_ratio(a.cast_signed(), b.cast_signed()).into(),
        _ => Answer::UNKNOWN,
    }
}

fn of_one(code: u64, x: Scalar) -> Answer {
    match code {
        0x10 => x.neg().into(),
        0x11 => x.abs().into(),
        0x12 => x.sqrt().into(),
        0x13 => x.midpoint().into(),
        0x14 => x.lower().into(),
        0x15 => x.upper().into(),
        0x16 => x.sharpen().into(),
        0x20 => x.is_zero().into(),
        0x21 => x.is_finite().into(),
        0x22 => x.is_sharp().into(),
        _ => Answer::UNKNOWN,
    }
}

fn of_two(code: u64, x: Scalar, y: Scalar) -> Answer {
    match code {
        0x30 => x.add(y).into(),
        0x31 => x.sub(y).into(),
        0x32 => x.mul(y).into(),
        0x33 => x.div(y).into(),
        0x34 => x.max(y).into(),
        0x40 => x.could_be_equal(y).into(),
        0x41 => x.definitely_not_equal(y).into(),
        0x42 => x.could_be_greater(y).into(),
        0x43 => x.definitely_greater(y).into(),
        0x44 => x.could_be_less(y).into(),
        0x45 => x.definitely_less(y).into(),
        _ => Answer::UNKNOWN,
    }
}

// Codes below 10 take numbers, those below 30 one scalar, the others two.
pub fn answer_of(code: u64, operands: [u64; 4]) -> Answer {
    let [a, b, c, d] = operands;
    let x = Scalar {
        lo: float_of(a),
        hi: float_of(b),
    };
    let y = Scalar {
        lo: float_of(c),
        hi: float_of(d),
    };
    match code {
        0x00..0x10 => of_numbers(code, a, b),
        0x10..0x30 => of_one(code, x),
        _ => of_two(code, x, y),
    }
}

// The kernel's number: an interval [lo, hi] of f64 with every operation rounded outward, so that a value encloses every
// real it could be, and comparisons are three-valued. It is the module `scalars` of geop-core-math, as far as the
// solver calls it, in the same order and by the same names.
//
// Every function is total and equals a definition of `specs/` for all floats, NaN, infinities, both zeros and inverted
// ends included. The operations also promise enclosure (`specs/Enclosure.antt`).
#![tactic(auto)]

ghost use Rattle.std.specs.Prelude.{◌≡◌};
ghost use Rattle.interval.specs.Result.{number_of};

mod arithmetic;
mod compare;
mod construct;
mod float;
mod root;
mod sets;
mod step;

pub use float::{greater_of, greatest_of, lesser_of};
pub use step::{next_down, next_up};

#[repr(C)]
#[derive(Clone, Copy)]
pub struct Scalar {
    pub lo: f64,
    pub hi: f64,
}

// Why an operation is refused: numbers 5 and 6 of PROTOCOL, Refusals, by which it crosses to C and is printed.
#[derive(Clone, Copy)]
pub enum GeopError {
    SqrtOfNegative,
    DivisorContainsZero,
}

impl From<GeopError> for usize {
    ghost from_gives = { λ e n. n ≡ number_of e };

    fn from(e: GeopError) -> usize {
        match e {
            GeopError::SqrtOfNegative => 5,
            GeopError::DivisorContainsZero => 6,
        }
    }
}

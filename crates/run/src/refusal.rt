// Why a call is refused, and the number of each refusal, by which it crosses to C and is printed.
ghost use Rattle.std.specs.Prelude.{◌≡◌};
ghost use Rattle.linear.specs.LinearResult as linear;
ghost use Rattle.run.specs.Refusal.{number_of, refusal_at};

use interval::GeopError;
use linear::LinearError;

// The first four are found by a check, before anything is worked out; the last is met on the way.
#[derive(Clone, Copy)]
pub enum Refusal {
    TooMany,
    WrongLength,
    OutsideDomain,
    Altered,
    Arithmetic(GeopError),
}

impl From<LinearError> for Refusal {
    ghost from_gives = { λ e r. r ≡ refusal_at (linear.number_of e) };

    fn from(e: LinearError) -> Refusal {
        match e {
            LinearError::TooMany => Refusal::TooMany,
            LinearError::WrongLength => Refusal::WrongLength,
            LinearError::Arithmetic(g) => Refusal::Arithmetic(g),
        }
    }
}

impl From<Refusal> for usize {
    ghost from_gives = { λ r n. n ≡ number_of r };

    fn from(r: Refusal) -> usize {
        match r {
            Refusal::TooMany => 1,
            Refusal::WrongLength => 2,
            Refusal::OutsideDomain => 3,
            Refusal::Altered => 4,
            Refusal::Arithmetic(g) => usize::from(g),
        }
    }
}

// Why a call is refused, and the number of each refusal (PROTOCOL, Refusals).
ghost use Rattle.std.specs.Prelude.{◌≡◌};
ghost use Rattle.linear.specs.LinearResult.{number_of};
ghost use Rattle.linear.specs.declared.results.LinearError.TheVariants.{Arithmetic};

use interval::GeopError;

#[derive(Clone, Copy)]
pub enum LinearError {
    TooMany,
    WrongLength,
    Arithmetic(GeopError),
}

impl From<GeopError> for LinearError {
    ghost from_gives = { λ e r. r ≡ Arithmetic e };

    fn from(e: GeopError) -> LinearError {
        LinearError::Arithmetic(e)
    }
}

impl From<LinearError> for usize {
    ghost from_gives = { λ e n. n ≡ number_of e };

    fn from(e: LinearError) -> usize {
        match e {
            LinearError::TooMany => 1,
            LinearError::WrongLength => 2,
            LinearError::Arithmetic(g) => usize::from(g),
        }
    }
}

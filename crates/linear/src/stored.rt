// A scalar that may be refused, stored.
ghost use Rattle.std.specs.Prelude.{◌≡◌};
ghost use Rattle.interval.specs.Result as scalar;
ghost use Rattle.linear.specs.LinearResult.{done_of};
ghost use Rattle.linear.specs.Substitution.{store_r};

use crate::flat::put;
use crate::results::LinearError;
use interval::{GeopError, Scalar};

// Stores a value, or hands its refusal on.
pub fn store(xs: &mut [f64], i: usize, q: Result<Scalar, GeopError>) -> Result<(), LinearError>
    ensures { done_of result xs.new ≡ store_r xs.old i (scalar.result_of q) }
{
    put(xs, i, q?);
    Ok(())
}

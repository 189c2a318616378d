// A value chosen from its enclosure: zero where zero is among it, else the middle. Any value within would serve, since
// what is chosen is a step, or the model that a step is worked out from, and whether a step is taken is decided by
// enclosures. What could be zero is taken for rounding around an exact zero: made a small number it would couple
// variables that do not depend on each other, and one that little else holds would follow such a coupling far.
ghost use Rattle.std.specs.Prelude.{◌≡◌, ◌*◌, length};
ghost use Rattle.linear.specs.Calls.{sharp_reply};
ghost use Rattle.linear.specs.Choose.{choose_of, sharp_of};
ghost use Rattle.linear.specs.Replies.{replied};

use crate::flat::{at, put};
use crate::results::LinearError;
use interval::Scalar;

pub fn choose(v: Scalar) -> Scalar
    ensures { result ≡ choose_of v }
{
    if v.could_be_equal(Scalar::ZERO) {
        return Scalar::ZERO;
    }
    v.sharpen()
}

// The first n chosen.
fn sharp_into(v: &[f64], out: &mut [f64], n: usize)
    requires { length out.old ≡ 2 * n }
    ensures { out.new ≡ sharp_of v.now n }
{
    for i in 0..n {
        put(out, i, choose(at(v, i)));
    }
}

// Each of v chosen, into out: sharp values do not widen what is worked out from them.
pub fn sharp(n: usize, v: &[f64], out: &mut [f64]) -> Result<(), LinearError>
    ensures { replied result out.new ≡ sharp_reply n v.now out.old }
{
    if n > 24 {
        return Err(LinearError::TooMany);
    }
    if v.len() != 2 * n {
        return Err(LinearError::WrongLength);
    }
    if out.len() != 2 * n {
        return Err(LinearError::WrongLength);
    }
    sharp_into(v, out, n);
    Ok(())
}

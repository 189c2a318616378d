// The radius: a step cut to it, and what it is after a step was taken. It bounds the part of a step along the
// constraints, which no damping shortens, since their linearization holds only so far.
ghost use Rattle.std.specs.Prelude.{◌≤◌, ◌≡◌, length};
ghost use Rattle.linear.specs.LinearResult.{done_of};
ghost use Rattle.run.specs.Area.{point_len};
ghost use Rattle.run.specs.Limits.{VARIABLES};
ghost use Rattle.run.specs.Radius.{cut_of, cut_within, radius_after};

use crate::vectors::norm_of;
use interval::Scalar;
use linear::{LinearError, at, choose, put};

// A step times shrink, chosen.
pub fn cut(n: usize, delta: &mut [f64], shrink: Scalar)
    ensures { delta.new ≡ cut_of n delta.old shrink }
{
    for i in 0..n {
        let d = at(delta, i);
        put(delta, i, choose(d.mul(shrink)));
    }
}

// A step, cut to the radius where it is definitely longer.
pub fn cut_within(n: usize, radius: Scalar, delta: &mut [f64]) -> Result<(), LinearError>
    requires { (n ≤ VARIABLES) × (length delta.old ≡ point_len) }
    ensures { done_of result delta.new ≡ cut_within n radius delta.old }
{
    let length = norm_of(delta, n)?;
    if length.definitely_greater(radius) {
        let shrink = radius.div(length)?;
        cut(n, delta, shrink);
    }
    Ok(())
}

// The radius after a step of that length: the next may be twice as long. Beyond the longest step that the caller allows
// it goes only where the constraints came as near as their linearization said, so that a start from far away is not
// brought in by one such step at a time.
pub fn radius_after(length: Scalar, radius: Scalar, max: Scalar, linear: bool) -> Scalar
    ensures { result ≡ radius_after length radius max linear }
{
    let reach = Scalar::TWO.mul(length);
    if !reach.definitely_greater(radius) {
        return radius;
    }
    if linear {
        return reach.upper();
    }
    if reach.definitely_less(max) {
        return reach.upper();
    }
    max
}

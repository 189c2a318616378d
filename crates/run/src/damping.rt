// The damping mu of Levenberg and Marquardt: the first, the next after a step was taken, and more of it after one was
// turned down. More damping makes a step shorter and turns it towards the steepest descent, where the model is better
// trusted; less lets the next step come near the full one of Gauss and Newton. It is sharpened each time, since an
// interval that grew with every factor would in the end say nothing.
ghost use Rattle.std.specs.Prelude.{◌^◌, ◌<◌, ◌≡◌};
ghost use Rattle.run.specs.Damping.{first_mu, damped, shrunk};
ghost use Rattle.run.specs.State.{rejected_for, with_radius};
ghost use Rattle.run.specs.program.Damping.{goes_on, stops_at};

use crate::state::{Rejection, Search, Stop};
use crate::vectors::or_zero;
use interval::Scalar;

// The first damping, 1/1000: little beside the scaling D, so that a run begins near the full step.
pub fn first_damping() -> Scalar
    ensures { result ≡ first_mu }
{
    or_zero(Scalar::from_ratio(1, 1000))
}

// Whether the search goes on with more damping, or stops.
#[derive(Clone, Copy)]
pub enum Damped {
    On(Search),
    Stop(Search, Stop),
}

// A proposal is rejected, with that radius from now on: four times the damping and a turn-down, while that damping is
// finite. So every search ends: from a positive damping it grows at most 1,048 times.
pub fn damp(x: Search, radius: Scalar, why: Rejection) -> Damped
    requires { x.turned_down < 2 ^ 32 }
    ensures { result ≡ damped goes_on stops_at (rejected_for (with_radius x radius) why) }
{
    let mu = x.mu.mul(Scalar::degenerate(4.0)).sharpen();
    let y = Search {
        mu,
        radius,
        turned_down: x.turned_down + 1,
        first: false,
        plain: x.plain,
        rejected: Some(why),
    };
    if mu.is_finite() {
        return Damped::On(y);
    }
    Damped::Stop(y, Stop::Damped(Some(why)))
}

// A third of the damping, sharp, where that is positive: below the least positive float it would be none.
pub fn shrunk(mu: Scalar, third: Scalar) -> Scalar
    ensures { result ≡ shrunk mu third }
{
    let q = third.sharpen();
    if q.definitely_greater(Scalar::ZERO) {
        return q;
    }
    mu
}

// How a call ends: a question, the finish, a refusal. A finish and a refusal keep the standing point, the last that was
// shown to be progress, so a caller whose run is refused still has a point to save.
ghost use Rattle.std.specs.Prelude.{◌<◌, ◌^◌, List, ◌≡◌, Float};
ghost use Rattle.linear.specs.LinearResult.{number_of};
ghost use Rattle.run.specs.Area.{Memory, HasRoom};
ghost use Rattle.run.specs.Endings as run;
ghost use Rattle.run.specs.program.Area.{Limits, Working, Holds};
ghost use Rattle.run.specs.program.Endings.{Leaves};

use crate::area::keep_standing;
use crate::refusal::Refusal;
use crate::state::{Event, Kind, Returned, State, Stop, with_none_open, with_question};
use linear::LinearError;

// The run is over with its counts; the area keeps the standing point alone.
pub fn finish(st: State, area: &mut [f64], stop: Stop) -> Returned
    requires { HasRoom st.sizes area.old × Limits st }
    ensures { (w : Memory) → Working st w area.old →
        Leaves (run.finish st w stop) result area.new }
{
    keep_standing(area, st);
    Returned {
        state: with_none_open(st),
        event: Event::Finish(
            stop,
            st.counts.iterations,
            st.search.turned_down,
            st.counts.standing,
        ),
    }
}

// The run is over with a refusal; the area keeps the standing point alone.
pub fn refuse(st: State, area: &mut [f64], e: LinearError) -> Returned
    requires { HasRoom st.sizes area.old × Limits st }
    ensures { (w : Memory) → Working st w area.old →
        Leaves (run.refuse st w (number_of e)) result area.new }
{
    keep_standing(area, st);
    Returned {
        state: with_none_open(st),
        event: Event::Refused(Refusal::from(e)),
    }
}

// The next question, over an area that has its point.
pub fn ask(st: State, kind: Kind, corrections: usize) -> Returned
    requires { st.counts.question < 2 ^ 32 }
    ensures { (w : Memory) (a : List Float) → Holds st.sizes w a →
        Leaves (run.question st w kind corrections) result a }
{
    Returned {
        state: with_question(st, kind, corrections),
        event: Event::Question(st.counts.question + 1, kind, st.counts.standing),
    }
}

// What a run carries from call to call, by value, what a call returns, and the state changed in one part.
ghost use Rattle.std.specs.Prelude.{◌<◌, ◌^◌, List, ◌≡◌, Float};
ghost use Rattle.run.specs.State.{searching, starting, asking, landing, trying, standing_on, anew, rejected_for};
ghost use Rattle.run.specs.State.{state_with, over};

use crate::refusal::Refusal;
use interval::Scalar;

// What a question asks the rows of: the start, a trial, or a trial moved back onto the constraints.
#[derive(Clone, Copy)]
pub enum Kind {
    Start,
    Trial,
    Correction,
}

// Why a step was turned down.
#[derive(Clone, Copy)]
pub enum Rejection {
    NotPositive,
    Infeasible,
    Unresolved,
    NotLower,
}

// Why a run finished. Damped and NoChange name the last rejection, so that a caller can tell a minimum from a wall.
#[derive(Clone, Copy)]
pub enum Stop {
    Infeasible,
    NoChange(Option<Rejection>),
    Undecided,
    Flat(usize, usize),
    Damped(Option<Rejection>),
    Budget,
}

// What a call returns: a question with its number, kind and the standing number; the finish with its stop, iterations,
// turn-downs and the standing number; or a refusal.
#[derive(Clone, Copy)]
pub enum Event {
    Question(usize, Kind, usize),
    Finish(Stop, usize, usize, usize),
    Refused(Refusal),
}

// Variables, sum rows, and the most iterations.
#[derive(Clone, Copy)]
pub struct Sizes {
    pub n: usize,
    pub s: usize,
    pub limit: usize,
}

// How far the run is. A point is known by the number of the question that asked for it: `standing` and `landed` are
// such numbers, so that points are compared by number, never by their coordinates.
#[derive(Clone, Copy)]
pub struct Counts {
    pub iterations: usize,
    pub question: usize,
    pub standing: usize,
    pub landed: usize,
    pub corrections: usize,
}

// What the area holds: how many constraint rows the standing and the landed answer have, 0 where their slots are not in
// use. Each answer has an m of its own, since a stop is a constraint only while the parts meet.
#[derive(Clone, Copy)]
pub struct Contents {
    pub standing_m: usize,
    pub landed_m: usize,
}

// What a search for a proposal changes. `first` tells a proposal made with the damping that its iteration began with,
// since only then can a step that is undecided be taken; `plain` tells one made without the curvature learned.
#[derive(Clone, Copy)]
pub struct Search {
    pub mu: Scalar,
    pub radius: Scalar,
    pub turned_down: usize,
    pub first: bool,
    pub plain: bool,
    pub rejected: Option<Rejection>,
}

// Of an open trial: the violation predicted where it leads, and its length as tried.
#[derive(Clone, Copy)]
pub struct Trial {
    pub predicted: Scalar,
    pub tried: Scalar,
}

// A run between two calls, without the numbers of the area. `last` is the length of the last step
// taken, and `phase` the kind of the open question: a run that is over has none, and answers no reply.
#[derive(Clone, Copy)]
pub struct State {
    pub sizes: Sizes,
    pub counts: Counts,
    pub contents: Contents,
    pub search: Search,
    pub trial: Trial,
    pub max_step: Scalar,
    pub last: Option<Scalar>,
    pub phase: Option<Kind>,
    pub moving: [bool; 12],
}

// What a call returns, beside what it leaves in the area.
#[derive(Clone, Copy)]
pub struct Returned {
    pub state: State,
    pub event: Event,
}

pub fn with_search(st: State, search: Search) -> State
    ensures { result ≡ searching st search }
{
    State { search, ..st }
}

// No question is open: of the slots only that of the standing point is in use.
pub fn with_none_open(st: State) -> State
    ensures { result ≡ over st }
{
    State {
        contents: Contents {
            standing_m: 0,
            landed_m: 0,
        },
        phase: None,
        ..st
    }
}

// The start was answered with m constraint rows.
pub fn with_start(st: State, m: usize, moving: [bool; 12]) -> State
    ensures { result ≡ starting st m moving }
{
    State {
        contents: Contents {
            standing_m: m,
            landed_m: 0,
        },
        moving,
        ..st
    }
}

// The next question, of that kind and after so many corrections.
pub fn with_question(st: State, kind: Kind, corrections: usize) -> State
    requires { st.counts.question < 2 ^ 32 }
    ensures { result ≡ asking st kind corrections }
{
    State {
        counts: Counts {
            question: st.counts.question + 1,
            corrections,
            ..st.counts
        },
        phase: Some(kind),
        ..st
    }
}

// The open question's point landed, with m constraint rows and after so many corrections.
pub fn with_landed(st: State, m: usize, corrections: usize) -> State
    ensures { result ≡ landing st m corrections }
{
    State {
        counts: Counts {
            landed: st.counts.question,
            corrections,
            ..st.counts
        },
        contents: Contents {
            landed_m: m,
            ..st.contents
        },
        ..st
    }
}

// A search left with a trial, whose step, multipliers and point stand elsewhere: nothing has landed.
pub fn with_trial_of(st: State, search: Search, trial: Trial) -> State
    ensures { (delta lambda next : List Float) → result ≡ trying st search (record {
      delta = delta;
      lambda = lambda;
      next = next;
      predicted = trial.predicted;
      tried = trial.tried;
    }) }
{
    State {
        contents: Contents {
            landed_m: 0,
            ..st.contents
        },
        search,
        trial,
        ..st
    }
}

// The landed point stands.
pub fn standing_on(st: State, length: Scalar, mu: Scalar, radius: Scalar) -> State
    requires { st.counts.iterations < 2 ^ 32 }
    ensures { result ≡ standing_on st length mu radius }
{
    let c = st.counts;
    let held = st.contents.landed_m;
    State {
        counts: Counts {
            iterations: c.iterations + 1,
            standing: c.landed,
            ..c
        },
        contents: Contents {
            standing_m: held,
            landed_m: held,
        },
        search: renew(st.search, mu, radius),
        last: Some(length),
        ..st
    }
}

// The search of a new iteration: turn-downs count on over the whole run, all else begins anew.
pub fn renew(x: Search, mu: Scalar, radius: Scalar) -> Search
    ensures { result ≡ anew x mu radius }
{
    Search {
        mu,
        radius,
        turned_down: x.turned_down,
        first: true,
        plain: false,
        rejected: None,
    }
}

// Why the last proposal was rejected, which a stop may name.
pub fn reject(x: Search, why: Rejection) -> Search
    ensures { result ≡ rejected_for x why }
{
    Search {
        rejected: Some(why),
        ..x
    }
}

// A run before its first answer.
pub fn state_with(z: Sizes, mu: Scalar, max: Scalar, phase: Option<Kind>) -> State
    ensures { result ≡ state_with z mu max phase }
{
    let moving = [false; 12];
    let counts = Counts {
        iterations: 0,
        question: 0,
        standing: 0,
        landed: 0,
        corrections: 0,
    };
    let contents = Contents {
        standing_m: 0,
        landed_m: 0,
    };
    let search = Search {
        mu,
        radius: max,
        turned_down: 0,
        first: true,
        plain: false,
        rejected: None,
    };
    let trial = Trial {
        predicted: Scalar::ZERO,
        tried: Scalar::ZERO,
    };
    State {
        sizes: z,
        counts,
        contents,
        search,
        trial,
        max_step: max,
        last: None,
        phase,
        moving,
    }
}

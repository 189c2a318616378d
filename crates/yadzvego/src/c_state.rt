// The run as C and Rust hold it between two calls: its enums are numbers, by specs/CState.antt, which `numbers_fit`
// checks.
ghost use Rattle.std.specs.Prelude.{◌≡◌};
ghost use Rattle.yadzvego.specs.CState.{kind_number, phase_number, rejection_number, last_number, last_length};
ghost use Rattle.yadzvego.specs.CState.{c_state_of, numbers_fit, phase_at, rejection_at, last_at, sizes_at, counts_at};
ghost use Rattle.yadzvego.specs.CState.{contents_at, search_at, state_at};

use interval::Scalar;
use run::{Contents, Counts, Kind, Rejection, Search, Sizes, State, Trial};

#[repr(C)]
#[derive(Clone, Copy)]
pub struct Run {
    pub n: usize,
    pub s: usize,
    pub limit: usize,
    pub iterations: usize,
    pub question: usize,
    pub standing: usize,
    pub landed: usize,
    pub corrections: usize,
    pub standing_m: usize,
    pub landed_m: usize,
    pub turned_down: usize,
    pub mu: Scalar,
    pub radius: Scalar,
    pub predicted: Scalar,
    pub tried: Scalar,
    pub max_step: Scalar,
    pub last_length: Scalar,
    pub phase: u8,
    pub rejected: u8,
    pub last: u8,
    pub first: bool,
    pub plain: bool,
    pub moving: [bool; 12],
}

pub fn kind_number(k: Kind) -> u8
    ensures { result ≡ kind_number k }
{
    match k {
        Kind::Start => 0,
        Kind::Trial => 1,
        Kind::Correction => 2,
    }
}

fn phase_number(p: Option<Kind>) -> u8
    ensures { result ≡ phase_number p }
{
    match p {
        Some(k) => kind_number(k),
        None => 3,
    }
}

pub fn rejection_number(r: Option<Rejection>) -> u8
    ensures { result ≡ rejection_number r }
{
    match r {
        None => 0,
        Some(Rejection::NotPositive) => 1,
        Some(Rejection::Infeasible) => 2,
        Some(Rejection::Unresolved) => 3,
        Some(Rejection::NotLower) => 4,
    }
}

fn last_number(l: Option<Scalar>) -> u8
    ensures { result ≡ last_number l }
{
    match l {
        None => 0,
        Some(_) => 1,
    }
}

fn last_length(l: Option<Scalar>) -> Scalar
    ensures { result ≡ last_length l }
{
    l.unwrap_or(Scalar::ZERO)
}

fn phase_at(k: u8) -> Option<Kind>
    ensures { result ≡ phase_at k }
{
    match k {
        0 => Some(Kind::Start),
        1 => Some(Kind::Trial),
        2 => Some(Kind::Correction),
        _ => None,
    }
}

fn rejection_at(k: u8) -> Option<Rejection>
    ensures { result ≡ rejection_at k }
{
    match k {
        0 => None,
        1 => Some(Rejection::NotPositive),
        2 => Some(Rejection::Infeasible),
        3 => Some(Rejection::Unresolved),
        _ => Some(Rejection::NotLower),
    }
}

fn last_at(k: u8, length: Scalar) -> Option<Scalar>
    ensures { result ≡ last_at k length }
{
    match k {
        0 => None,
        _ => Some(length),
    }
}

// Whether each number of an enum is one of its cases.
pub fn numbers_fit(r: Run) -> bool
    ensures { result ≡ numbers_fit r }
{
    r.phase < 4 && r.rejected < 5 && r.last < 2
}

pub fn c_state_of(st: State) -> Run
    ensures { result ≡ c_state_of st }
{
    let z = st.sizes;
    let c = st.counts;
    let held = st.contents;
    let x = st.search;
    let t = st.trial;
    let rejected = x.rejected;
    let phase = st.phase;
    let last = st.last;
    let max_step = st.max_step;
    let moving = st.moving;
    let mu = x.mu;
    let radius = x.radius;
    let predicted = t.predicted;
    let tried = t.tried;
    Run {
        n: z.n,
        s: z.s,
        limit: z.limit,
        iterations: c.iterations,
        question: c.question,
        standing: c.standing,
        landed: c.landed,
        corrections: c.corrections,
        standing_m: held.standing_m,
        landed_m: held.landed_m,
        turned_down: x.turned_down,
        mu,
        radius,
        predicted,
        tried,
        max_step,
        last_length: last_length(last),
        phase: phase_number(phase),
        rejected: rejection_number(rejected),
        last: last_number(last),
        first: x.first,
        plain: x.plain,
        moving,
    }
}

fn sizes_at(r: Run) -> Sizes
    ensures { result ≡ sizes_at r }
{
    Sizes {
        n: r.n,
        s: r.s,
        limit: r.limit,
    }
}

fn counts_at(r: Run) -> Counts
    ensures { result ≡ counts_at r }
{
    Counts {
        iterations: r.iterations,
        question: r.question,
        standing: r.standing,
        landed: r.landed,
        corrections: r.corrections,
    }
}

fn contents_at(r: Run) -> Contents
    ensures { result ≡ contents_at r }
{
    Contents {
        standing_m: r.standing_m,
        landed_m: r.landed_m,
    }
}

fn search_at(r: Run) -> Search
    ensures { result ≡ search_at r }
{
    let mu = r.mu;
    let radius = r.radius;
    Search {
        mu,
        radius,
        turned_down: r.turned_down,
        first: r.first,
        plain: r.plain,
        rejected: rejection_at(r.rejected),
    }
}

// The state of a run whose numbers fit.
pub fn state_at(r: Run) -> State
    ensures { result ≡ state_at r }
{
    let predicted = r.predicted;
    let tried = r.tried;
    let length = r.last_length;
    let max_step = r.max_step;
    let moving = r.moving;
    let trial = Trial { predicted, tried };
    State {
        sizes: sizes_at(r),
        counts: counts_at(r),
        contents: contents_at(r),
        search: search_at(r),
        trial,
        max_step,
        last: last_at(r.last, length),
        phase: phase_at(r.phase),
        moving,
    }
}

// The checks of every call, in the order of PROTOCOL, Refusals: altered, too many, wrong length, outside the domain. A
// caller may hand in any state, area and rows; what passes them is within the limits that every sum of counts and every
// place relies on.
ghost use Rattle.std.specs.Prelude.{◌≤◌, ◌≡◌};
ghost use Rattle.interval.specs.Scaling.{is_positive};
ghost use Rattle.run.specs.Checks.{in_domain, all_in_domain, sizes_fit, counts_fit, valid, most_turn_downs};
ghost use Rattle.run.specs.Checks.{most_questions, contents_fit, phase_fits};
ghost use Rattle.run.specs.Limits.{ITERATIONS};
ghost use Rattle.run.specs.program.Checks.{open_of, check_of, check_rows_of, begin_check};

use crate::area::area_length;
use crate::limits::{
    CONSTRAINTS, CORRECTIONS, DOMAIN_BITS, ITERATIONS, QUESTIONS, SUM_ROWS, TURN_DOWNS, VARIABLES,
};
use crate::refusal::Refusal;
use crate::state::{Contents, Kind, Sizes, State};
use interval::Scalar;

// Whether the ends are in order, with magnitudes of at most 2^400: sums of squares of such numbers stay finite.
pub fn in_domain(x: Scalar) -> bool
    ensures { result ≡ in_domain x }
{
    let most = f64::from_bits(DOMAIN_BITS);
    (-most <= x.lo) & ((x.lo <= x.hi) & (x.hi <= most))
}

// Whether the first `count` are in the domain. Nearly always all are, so none is left out by a branch, and one test
// before the loop tells that all are inside the slice.
pub fn all_in_domain(xs: &[f64], count: usize) -> bool
    ensures { result ≡ all_in_domain xs.now count }
{
    if count > xs.len() / 2 {
        return false;
    }
    let mut inside = true;
    for i in 0..count {
        inside = inside
            & in_domain(Scalar {
                lo: xs[2 * i],
                hi: xs[2 * i + 1],
            });
    }
    inside
}

// Whether the counts of a run are within the limits.
pub fn sizes_fit(z: Sizes) -> bool
    ensures { result ≡ sizes_fit z }
{
    z.n <= VARIABLES && z.s <= SUM_ROWS && z.limit <= ITERATIONS
}

// Whether each m that the state keeps is within its limit.
fn contents_fit(c: Contents) -> bool
    ensures { result ≡ contents_fit c }
{
    c.standing_m <= CONSTRAINTS && c.landed_m <= CONSTRAINTS
}

// The most turn-downs that a run may have, and the most questions.
fn most_turn_downs(st: State) -> usize
    requires { st.counts.iterations ≤ ITERATIONS }
    ensures { result ≡ most_turn_downs st }
{
    TURN_DOWNS * (st.counts.iterations + 1)
}

fn most_questions(z: Sizes) -> usize
    requires { z.limit ≤ ITERATIONS }
    ensures { result ≡ most_questions z }
{
    QUESTIONS * z.limit
}

// Whether the counts of a run are such as its calls leave.
fn counts_fit(st: State) -> bool
    requires { st.sizes.limit ≤ ITERATIONS }
    ensures { result ≡ counts_fit st }
{
    st.counts.iterations <= st.sizes.limit
        && st.search.turned_down <= most_turn_downs(st)
        && st.counts.question <= most_questions(st.sizes)
        && st.counts.corrections <= CORRECTIONS
}

// Whether finite with 0 < lo ≤ hi.
fn is_positive(x: Scalar) -> bool
    ensures { result ≡ is_positive x }
{
    x.is_finite() && x.definitely_greater(Scalar::ZERO) && x.lo <= x.hi
}

// Whether the damping and the iterations are such as calls leave with that question open, or with none.
fn phase_fits(st: State) -> bool
    ensures { result ≡ phase_fits st st.phase }
{
    match st.phase {
        Some(Kind::Start) => is_positive(st.search.mu),
        Some(Kind::Trial | Kind::Correction) => {
            st.counts.iterations < st.sizes.limit && is_positive(st.search.mu)
        }
        None => true,
    }
}

// Whether a call could have left this run.
pub fn valid(st: State) -> bool
    ensures { result ≡ valid st }
{
    sizes_fit(st.sizes) && contents_fit(st.contents) && counts_fit(st) && phase_fits(st)
}

// The kind of the open question of a run that a call could have left.
fn check_open(st: State) -> Result<Kind, Refusal>
    ensures { result ≡ open_of st }
{
    if !valid(st) {
        return Err(Refusal::Altered);
    }
    st.phase.ok_or(Refusal::Altered)
}

// The checks of reply none, with an area of that length: the kind of the question that is answered.
pub fn check(st: State, area: usize) -> Result<Kind, Refusal>
    ensures { result ≡ check_of st area }
{
    let kind = check_open(st)?;
    if area != area_length(st.sizes) {
        return Err(Refusal::WrongLength);
    }
    Ok(kind)
}

// The checks of a reply with rows, m constraint rows among them, with an area of that length. How many rows there must
// be is known only once m is within its limit.
pub fn check_rows(st: State, area: usize, m: usize, rows: &[f64]) -> Result<Kind, Refusal>
    ensures { result ≡ check_rows_of st area m rows.now }
{
    let kind = check_open(st)?;
    if m > CONSTRAINTS {
        return Err(Refusal::TooMany);
    }
    if area != area_length(st.sizes) {
        return Err(Refusal::WrongLength);
    }
    let count = (m + st.sizes.s) * (st.sizes.n + 1);
    if rows.len() != 2 * count {
        return Err(Refusal::WrongLength);
    }
    if !all_in_domain(rows, count) {
        return Err(Refusal::OutsideDomain);
    }
    Ok(kind)
}

// The checks of a begin, with an area of that length.
pub fn check_begin(z: Sizes, start: &[f64], max_step: Scalar, area: usize) -> Result<(), Refusal>
    ensures { result ≡ begin_check z start.now max_step area }
{
    if !sizes_fit(z) {
        return Err(Refusal::TooMany);
    }
    if start.len() != 2 * z.n {
        return Err(Refusal::WrongLength);
    }
    if area != area_length(z) {
        return Err(Refusal::WrongLength);
    }
    if !all_in_domain(start, z.n) {
        return Err(Refusal::OutsideDomain);
    }
    if !in_domain(max_step) {
        return Err(Refusal::OutsideDomain);
    }
    if !max_step.definitely_greater(Scalar::ZERO) {
        return Err(Refusal::OutsideDomain);
    }
    Ok(())
}

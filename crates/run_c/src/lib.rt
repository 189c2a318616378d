// The pieces of a run for C and Rust: each by name. A slice is passed as its pointer and count. Every
// function takes every number and every length, and equals the definition of the call beneath it.
#![tactic(auto)]

ghost use Rattle.std.specs.Prelude.{◌≡◌};
ghost use Rattle.yadzvego.specs.ScalarResult.{scalar_result_of};
ghost use Rattle.yadzvego.specs.Written.{written, written_of};
ghost use Rattle.run.specs.program.Judgement.{judgement_of};
ghost use Rattle.run.specs.Pieces.{squared_reply, predicted_reply, transposed_reply, moving_reply, judge_reply};
ghost use Rattle.run.specs.Pieces.{expects_reply, cut_reply, along_reply, shift_reply, update_reply, learned_reply};
ghost use Rattle.run.specs.Pieces.{step_reply, ending_of};
ghost use Rattle.run.specs.Results.{truth_of};
ghost use Rattle.run_c.specs.Replies.{counts_of, decision_of, judged_of, last_of, stepped_of, step_written};
ghost use Rattle.run_c.specs.Replies.{step_written_of};

use interval::Scalar;
use linear::LinearError;
use run::{Judged, RowCounts};
use yadzvego::lists::{number_of, number_of_done, scalar_result_of};
use yadzvego::scalars::ScalarResult;

// Number 0 and whether it holds, or the number of the refusal.
#[repr(C)]
#[derive(Clone, Copy)]
pub struct Decision {
    pub number: u64,
    pub holds: bool,
}

// Number 0 and how a step fares, or the number of the refusal.
#[repr(C)]
#[derive(Clone, Copy)]
pub struct JudgedStep {
    pub number: u64,
    pub length: Scalar,
    pub lower: bool,
    pub undecided: bool,
    pub contracting: bool,
}

// Number 0 and whether a step was found, with how many rows are independent, or the number of the refusal.
#[repr(C)]
#[derive(Clone, Copy)]
pub struct Stepped {
    pub number: u64,
    pub found: bool,
    pub independent: usize,
}

fn stepped_of(e: Result<Option<usize>, LinearError>) -> Stepped
    ensures { result ≡ stepped_of (ending_of e) }
{
    match e {
        Ok(Some(r)) => Stepped {
            number: 0,
            found: true,
            independent: r,
        },
        Ok(None) => Stepped {
            number: 0,
            found: false,
            independent: 0,
        },
        Err(e) => Stepped {
            number: number_of(e),
            found: false,
            independent: 0,
        },
    }
}

fn decision_of(t: Result<bool, LinearError>) -> Decision
    ensures { result ≡ decision_of (truth_of t) }
{
    match t {
        Ok(holds) => Decision { number: 0, holds },
        Err(e) => Decision {
            number: number_of(e),
            holds: false,
        },
    }
}

fn judged_of(j: Result<Judged, LinearError>) -> JudgedStep
    ensures { result ≡ judged_of (judgement_of j) }
{
    match j {
        Ok(x) => {
            let length = x.length;
            JudgedStep {
                number: 0,
                length,
                lower: x.lower,
                undecided: x.undecided,
                contracting: x.contracting,
            }
        }
        Err(e) => JudgedStep {
            number: number_of(e),
            length: Scalar::ZERO,
            lower: false,
            undecided: false,
            contracting: false,
        },
    }
}

fn last_of(taken: bool, length: Scalar) -> Option<Scalar>
    ensures { result ≡ last_of taken length }
{
    taken.then_some(length)
}

#[unsafe(no_mangle)]
pub extern "C" fn run_squared(
    n: usize,
    m: usize,
    s: usize,
    rows: &[f64],
    delta: &[f64],
    d: usize,
) -> ScalarResult
    ensures { result ≡ scalar_result_of (squared_reply (counts_of n m s) rows.now delta.now d) }
{
    scalar_result_of(run::squared(RowCounts { n, m, s }, rows, delta, d))
}

#[unsafe(no_mangle)]
pub extern "C" fn run_predicted(
    n: usize,
    m: usize,
    s: usize,
    rows: &[f64],
    delta: &[f64],
) -> ScalarResult
    ensures { result ≡ scalar_result_of (predicted_reply (counts_of n m s) rows.now delta.now) }
{
    scalar_result_of(run::predicted(RowCounts { n, m, s }, rows, delta))
}

#[unsafe(no_mangle)]
pub extern "C" fn run_transposed(
    n: usize,
    m: usize,
    s: usize,
    rows: &[f64],
    w: &[f64],
    out: &mut [f64],
) -> u64
    ensures { written result out.new
        ≡ written_of (transposed_reply (counts_of n m s) rows.now w.now out.old) }
{
    number_of_done(run::transposed(RowCounts { n, m, s }, rows, w, out))
}

#[unsafe(no_mangle)]
pub extern "C" fn run_moving(n: usize, m: usize, s: usize, rows: &[f64], marks: &mut [bool]) -> u64
    ensures { written result marks.new
        ≡ written_of (moving_reply (counts_of n m s) rows.now marks.old) }
{
    number_of_done(run::moving(RowCounts { n, m, s }, rows, marks))
}

#[unsafe(no_mangle)]
pub extern "C" fn run_judge(
    n: usize,
    m: usize,
    s: usize,
    rows: &[f64],
    next_m: usize,
    next: &[f64],
    theta: Scalar,
    filter: &[f64],
    count: usize,
    taken: bool,
    last: Scalar,
    step: &[f64],
) -> JudgedStep
    ensures { result
        ≡ judged_of (judge_reply (counts_of n m s) rows.now next_m next.now theta
        filter.now count (last_of taken last) step.now) }
{
    judged_of(run::judge(
        RowCounts { n, m, s },
        rows,
        next_m,
        next,
        theta,
        filter,
        count,
        last_of(taken, last),
        step,
    ))
}

#[unsafe(no_mangle)]
pub extern "C" fn run_expects(
    n: usize,
    m: usize,
    s: usize,
    rows: &[f64],
    b: &[f64],
    f: Scalar,
    theta: Scalar,
    delta: &[f64],
) -> Decision
    ensures { result
        ≡ decision_of (expects_reply (counts_of n m s) rows.now b.now f theta
        delta.now) }
{
    decision_of(run::expects(RowCounts { n, m, s }, rows, b, f, theta, delta))
}

#[unsafe(no_mangle)]
pub extern "C" fn run_along(
    n: usize,
    m: usize,
    s: usize,
    rows: &[f64],
    v: &[f64],
    out: &mut [f64],
) -> u64
    ensures { written result out.new
        ≡ written_of (along_reply (counts_of n m s) rows.now v.now out.old) }
{
    number_of_done(run::along(RowCounts { n, m, s }, rows, v, out))
}

#[unsafe(no_mangle)]
pub extern "C" fn run_shift(
    n: usize,
    m: usize,
    s: usize,
    rows: &[f64],
    moving: &[bool],
    d: &mut [f64],
) -> u64
    ensures { written result d.new
        ≡ written_of (shift_reply (counts_of n m s) rows.now moving.now d.old) }
{
    number_of_done(run::shift(RowCounts { n, m, s }, rows, moving, d))
}

#[unsafe(no_mangle)]
pub extern "C" fn run_cut(n: usize, radius: Scalar, delta: &mut [f64]) -> u64
    ensures { written result delta.new ≡ written_of (cut_reply n radius delta.old) }
{
    number_of_done(run::cut(n, radius, delta))
}

#[unsafe(no_mangle)]
pub extern "C" fn run_update_curvature(
    n: usize,
    m: usize,
    s: usize,
    b: &mut [f64],
    step: &[f64],
    rows: &[f64],
    next_m: usize,
    next: &[f64],
    lambda: &[f64],
) -> u64
    ensures { written result b.new
        ≡ written_of (update_reply (counts_of n m s) b.old step.now
        rows.now next_m next.now lambda.now) }
{
    number_of_done(run::update_curvature(
        RowCounts { n, m, s },
        b,
        step,
        rows,
        next_m,
        next,
        lambda,
    ))
}

#[unsafe(no_mangle)]
pub extern "C" fn run_learned(n: usize, b: &[f64]) -> Decision
    ensures { result ≡ decision_of (learned_reply n b.now) }
{
    decision_of(run::learned(n, b))
}

#[unsafe(no_mangle)]
pub extern "C" fn run_step(
    n: usize,
    m: usize,
    s: usize,
    rows: &[f64],
    b: &[f64],
    moving: &[bool],
    mu: Scalar,
    delta: &mut [f64],
    lambda: &mut [f64],
) -> Stepped
    ensures { step_written result delta.new lambda.new
        ≡ step_written_of (step_reply (counts_of n m s)
        rows.now b.now moving.now mu delta.old lambda.old) }
{
    stepped_of(run::step_at(RowCounts { n, m, s }, rows, b, moving, mu, delta, lambda))
}

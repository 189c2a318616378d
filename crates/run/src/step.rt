// The step over the kept variables and over all: what no damping changes of it is prepared once, then each damping has
// its own step from that. A step that is not finite, or whose H is not, is none: a search then goes on with more
// damping.
ghost use Rattle.std.specs.Prelude.{◌≤◌, ◌&&◌, List, [], ◌≡◌, Float, length, replicate};
ghost use Rattle.linear.specs.LinearResult.{done_of};
ghost use Rattle.linear.specs.Flat.{zeros};
ghost use Rattle.run.specs.Limits.{VARIABLES, CONSTRAINTS};
ghost use Rattle.run.specs.Reduced.{pull_of};
ghost use Rattle.run.specs.Rows.{rows_in, value_at, evaluation_of};
ghost use Rattle.run.specs.Step.{free_step, kept_step, step_of};
ghost use Rattle.run.specs.Vectors.{vector, all_finite};
ghost use Rattle.run.specs.program.Basis.{basis_by, ForPreparing};
ghost use Rattle.run.specs.program.Problem.{problem_in};
ghost use Rattle.run.specs.program.Reduced.{curved};
ghost use Rattle.run.specs.program.Rows.{FewRows};
ghost use Rattle.run.specs.program.Step.{end_of, step_from_basis, Few, step_from_factors};
ghost use Rattle.run.specs.program.Step.{DimensionsFit, basis_with, directions_with, damped_step, prepared_step};
ghost use Rattle.run.specs.program.Step.{FactorLengths, StepLengths, fixed_len, PreparedSizes, PreparedFor};

use crate::area::write;
use crate::basis::{Shape, basis, correction, multipliers};
use crate::null_space::free_directions;
use crate::problem::{damped, keep, problem};
use crate::reduced::{free_part, pull};
use crate::rows::{RowCounts, RowSet, constraints};
use crate::vectors::{all_finite, spread};
use interval::Scalar;
use linear::LinearError;

// What no damping changes, beside the factors: how many rows are independent and how many directions are free.
#[derive(Clone, Copy)]
pub struct Prepared {
    pub independent: usize,
    pub free: usize,
}

// How many variables are kept, how many rows are independent, and how many directions are free.
#[derive(Clone, Copy)]
pub struct Dimensions {
    pub kept: usize,
    pub independent: usize,
    pub free: usize,
}

// What no damping changes is one slice: what is undamped, of which the gradient is the last, and then the factors.
const GRADIENT_AT: usize = 312;

const FACTORS_AT: usize = 336;

pub const FIXED_LEN: usize = 1224;

// Where each part of the factors begins, behind Q.
const COEFFICIENTS_AT: usize = 288;

const CORRECTION_AT: usize = 576;

const DIRECTIONS_AT: usize = 600;

const FACTORS_LEN: usize = 888;

// What pulls against the kept step, and whether both are finite: a step is none where they are not.
pub fn finite_pull(k: usize, h: &[f64], g: &[f64], kept: &[f64], out: &mut [f64]) -> bool
    requires { (k ≤ VARIABLES) × (out.old ≡ vector) }
    ensures { (out.new ≡ pull_of (curved k h.now g.now) kept.now) ×
        (result ≡ (all_finite kept.now 12 && all_finite out.new 12)) }
{
    pull(k, h, g, kept, out);
    all_finite(kept, 12) && all_finite(out, 12)
}

// The step along the free directions, from the correction delta on, with its multipliers: the number of its independent
// rows, where it and what pulls against it are finite.
fn free_step(
    d: Dimensions,
    h: &[f64],
    g: &[f64],
    order: &[usize],
    factors: &[f64],
    delta: &mut [f64],
    lambda: &mut [f64],
) -> Result<Option<usize>, LinearError>
    requires { DimensionsFit d × FactorLengths order.now factors.now × (length lambda.old ≡ 24) }
    ensures { end_of result delta.new lambda.new
        ≡ free_step (curved d.kept h.now g.now)
        (basis_with d.independent order.now factors.now) delta.old
        (directions_with d.free factors.now) }
{
    let mut p = [0.0; 24];
    let is_positive = free_part(
        d.kept,
        d.free,
        h,
        g,
        &factors[DIRECTIONS_AT..FACTORS_LEN],
        delta,
    )?;
    if !is_positive {
        return Ok(None);
    }
    if !finite_pull(d.kept, h, g, delta, &mut p) {
        return Ok(None);
    }
    multipliers(d.kept, d.independent, factors, order, &p, lambda)?;
    Ok(Some(d.independent))
}

// ---- what no damping changes

// A factors, clear at first, from the basis on: Q, the coefficients, the correction and the free directions, one behind
// the other.
fn prepare_free(
    shape: Shape,
    q: &[f64],
    coefficients: &[f64],
    dependent: &[f64],
    order: &[usize],
    xs: &[f64],
    c: RowSet,
    factors: &mut [f64],
) -> Result<Prepared, LinearError>
    requires { ForPreparing shape (length q.now) (length coefficients.now) (length order.now) factors.old }
    ensures { ((h g : List Float)
        → step_from_factors result (curved shape.k h g) order.now factors.new
        ≡ step_from_basis (problem_in shape.k shape.m (value_at (rows_in xs.now c)) [] [] h g)
        (basis_by shape.r q.now [] coefficients.now dependent.now
        order.now))
        × Few result }
{
    write(factors, 0, q);
    write(factors, COEFFICIENTS_AT, coefficients);
    correction(
        shape,
        q,
        coefficients,
        dependent,
        order,
        xs,
        c,
        &mut factors[CORRECTION_AT..DIRECTIONS_AT],
    )?;
    let free = free_directions(
        shape.k,
        shape.r,
        q,
        &mut factors[DIRECTIONS_AT..FACTORS_LEN],
    )?;
    Ok(Prepared {
        independent: shape.r,
        free,
    })
}

// The basis, and what follows from it, for the constraint values in xs.
fn prepare_kept(
    k: usize,
    m: usize,
    wide: &[f64],
    jc: &[f64],
    xs: &[f64],
    c: RowSet,
    order: &mut [usize],
    factors: &mut [f64],
) -> Result<Prepared, LinearError>
    requires { (k ≤ VARIABLES) × ((m ≤ CONSTRAINTS) × ((order.old ≡ replicate 24 0) × (factors.old ≡ zeros 888))) }
    ensures { ((h g : List Float)
        → step_from_factors result (curved k h g) order.new factors.new
        ≡ kept_step (problem_in k m (value_at (rows_in xs.now c)) wide.now jc.now h g))
        × Few result }
{
    let mut q = [0.0; 288];
    let mut coefficients = [0.0; 288];
    let mut dependent = [0.0; 288];
    let r = basis(
        k,
        m,
        wide,
        jc,
        &mut q,
        &mut coefficients,
        &mut dependent,
        order,
    )?;
    let shape = Shape { k, m, r };
    prepare_free(shape, &q, &coefficients, &dependent, order, xs, c, factors)
}

// What no damping changes of the step from an answer's rows and the curvature b, over the variables that move, into
// clear slices.
pub fn prepare(
    c: RowCounts,
    rows: &[f64],
    b: &[f64],
    moving: &[bool],
    order: &mut [usize],
    fixed: &mut [f64],
) -> Result<Prepared, LinearError>
    requires { FewRows c × (length moving.now ≡ 12) × (order.old ≡ replicate 24 0) ×
        (fixed.old ≡ zeros fixed_len) }
    ensures { PreparedFor c.n (evaluation_of c rows.now) b.now moving.now
        result order.new fixed.new }
{
    let mut index = [0; 12];
    let mut wide = [0.0; 288];
    let mut jc = [0.0; 288];
    let k = keep(moving, c.n, &mut index);
    problem(
        c,
        &index,
        k,
        rows,
        b,
        &mut wide,
        &mut jc,
        &mut fixed[0..FACTORS_AT],
    );
    prepare_kept(
        k,
        c.m,
        &wide,
        &jc,
        rows,
        constraints(c),
        order,
        &mut fixed[FACTORS_AT..FIXED_LEN],
    )
}

// ---- with a damping

// The step from what was prepared, for an H that is finite.
fn prepared_step(
    k: usize,
    prepared: Result<Prepared, LinearError>,
    order: &[usize],
    h: &[f64],
    g: &[f64],
    factors: &[f64],
    kept: &mut [f64],
    lambda: &mut [f64],
) -> Result<Option<usize>, LinearError>
    requires { (k ≤ VARIABLES) × Few prepared × FactorLengths order.now factors.now ×
        StepLengths kept.old lambda.old }
    ensures { end_of result kept.new lambda.new
        ≡ step_from_factors prepared (curved k h.now g.now) order.now
        factors.now }
{
    let Prepared { independent, free } = prepared?;
    write(kept, 0, &factors[CORRECTION_AT..DIRECTIONS_AT]);
    let d = Dimensions {
        kept: k,
        independent,
        free,
    };
    free_step(d, h, g, order, factors, kept, lambda)
}

// The step over the k kept variables, with the damping mu; none where H is not finite.
fn kept_step(
    k: usize,
    prepared: Result<Prepared, LinearError>,
    order: &[usize],
    fixed: &[f64],
    mu: Scalar,
    kept: &mut [f64],
    lambda: &mut [f64],
) -> Result<Option<usize>, LinearError>
    requires { (k ≤ VARIABLES) × PreparedSizes prepared order.now fixed.now ×
        StepLengths kept.old lambda.old }
    ensures { end_of result kept.new lambda.new
        ≡ damped_step k prepared order.now fixed.now mu }
{
    let mut h = [0.0; 288];
    damped(k, fixed, mu, &mut h);
    if all_finite(&h, 12 * k) {
        return prepared_step(
            k,
            prepared,
            order,
            &h,
            &fixed[GRADIENT_AT..FACTORS_AT],
            &fixed[FACTORS_AT..FIXED_LEN],
            kept,
            lambda,
        );
    }
    Ok(None)
}

// ---- over all variables

// The step with the damping mu, from what was prepared for the variables that move, with the constraints' multipliers.
// Where there is none, what delta holds has no meaning.
pub fn damped_step(
    n: usize,
    moving: &[bool],
    prepared: Result<Prepared, LinearError>,
    order: &[usize],
    fixed: &[f64],
    mu: Scalar,
    delta: &mut [f64],
    lambda: &mut [f64],
) -> Result<Option<usize>, LinearError>
    requires { (n ≤ VARIABLES) × (length moving.now ≡ 12) × PreparedSizes prepared order.now fixed.now ×
        StepLengths delta.old lambda.old }
    ensures { end_of result delta.new lambda.new
        ≡ prepared_step n moving.now prepared order.now fixed.now mu }
{
    let mut index = [0; 12];
    let mut kept = [0.0; 24];
    let k = keep(moving, n, &mut index);
    let end = kept_step(k, prepared, order, fixed, mu, &mut kept, lambda);
    spread(&index, &kept, k, delta);
    end
}

// The step of the linearized problem, from an answer's rows and the curvature b, over the variables that move, with the
// constraints' multipliers.
pub fn step(
    c: RowCounts,
    rows: &[f64],
    b: &[f64],
    moving: &[bool],
    mu: Scalar,
    delta: &mut [f64],
    lambda: &mut [f64],
) -> Result<Option<usize>, LinearError>
    requires { FewRows c × (length moving.now ≡ 12) × StepLengths delta.old lambda.old }
    ensures { end_of result delta.new lambda.new
        ≡ step_of c.n (evaluation_of c rows.now) b.now moving.now mu }
{
    let mut order = [0; 24];
    let mut fixed = [0.0; FIXED_LEN];
    let end = prepare(c, rows, b, moving, &mut order, &mut fixed);
    damped_step(c.n, moving, end, &order, &fixed, mu, delta, lambda)
}

// The slots of the work area: their places, and what a call writes into them. All that a run knows beyond its state is
// here, in memory that the caller lends, so a run needs no allocation and a call leaves nothing behind that a reader
// could take for a number in use: behind the numbers in use all is +0. Where a slot stands is known here alone.
ghost use Rattle.std.specs.Prelude.{◌+◌, ◌≤◌, ℕ, ◌<◌, ◌*◌, ◌++◌, ◌≡◌, length, take, drop, get_or, Some};
ghost use Rattle.linear.specs.Flat.{zeros};
ghost use Rattle.run.specs.declared.state.Kind.TheVariants as kinds;
ghost use Rattle.run.specs.Limits.{VARIABLES, CONSTRAINTS, ITERATIONS};
ghost use Rattle.run.specs.Area.{slot_sizes, places_of, area_length, in_order, numbers_in, used_in, HasRoom, part_of};
ghost use Rattle.run.specs.Area.{pairs_in, point_at, rows_len};
ghost use Rattle.run.specs.Area.{start_of, spare_at, point_len, Memory, memory_of, begun_memory, only_standing};
ghost use Rattle.run.specs.Area.{with_start, with_trial, with_landed, with_taken};
ghost use Rattle.run.specs.Filter.{filter_with};
ghost use Rattle.run.specs.Rows.{row_numbers};
ghost use Rattle.run.specs.Vectors.{moved_of};
ghost use Rattle.run.specs.program.Area.{numbers_of, written, cleared_to, Limits, Uses, Holds, Working};
ghost use Rattle.run.specs.program.Area.{StandingWhole, TrialWhole, LandedWhole, standing_alone};
ghost use Rattle.run.specs.program.Proposal.{standing_part, rows_of, curvature_for};
ghost use Rattle.run.specs.program.Rows.{FewRows};
ghost use Rattle.run.specs.program.Step.{StepLengths};

use crate::filter::pair_numbers;
use crate::limits::AREA;
use crate::rows::{RowCounts, landed_counts, standing_counts};
use crate::state::{Kind, Sizes, State};
use crate::vectors::moved;
use interval::Scalar;
use linear::clear;

// A number for each slot: its size, its place, or how many of its numbers are in use.
#[derive(Clone, Copy)]
pub struct SlotNumbers {
    pub standing: usize,
    pub landed: usize,
    pub asked: usize,
    pub standing_rows: usize,
    pub landed_rows: usize,
    pub step: usize,
    pub multipliers: usize,
    pub curvature: usize,
    pub filter: usize,
}

// How many numbers a point, an answer's rows, the curvature and the filter have at most.
pub const POINT_LEN: usize = 24;

pub const ROWS_LEN: usize = 936;

pub const CURVATURE_LEN: usize = 288;

pub const FILTER_LEN: usize = 800;

// ---- the layout

// How many numbers each slot has in the area of a run of these sizes.
fn slot_sizes(z: Sizes) -> SlotNumbers
    ensures { numbers_of result ≡ slot_sizes z }
{
    SlotNumbers {
        standing: POINT_LEN,
        landed: POINT_LEN,
        asked: POINT_LEN,
        standing_rows: ROWS_LEN,
        landed_rows: ROWS_LEN,
        step: POINT_LEN,
        multipliers: POINT_LEN,
        curvature: CURVATURE_LEN,
        filter: FILTER_LEN,
    }
}

// The slots in the order in which they stand.
fn in_order(x: SlotNumbers) -> [usize; 9]
    ensures { result ≡ in_order (numbers_of x) }
{
    [
        x.standing,
        x.landed,
        x.asked,
        x.standing_rows,
        x.landed_rows,
        x.step,
        x.multipliers,
        x.curvature,
        x.filter,
    ]
}

// Where each slot begins: one behind the other, in that order.
pub fn places(z: Sizes) -> SlotNumbers
    ensures { numbers_of result ≡ places_of z }
{
    let size = in_order(slot_sizes(z));
    let second = size[0];
    let third = second + size[1];
    let fourth = third + size[2];
    let fifth = fourth + size[3];
    let sixth = fifth + size[4];
    let seventh = sixth + size[5];
    let eighth = seventh + size[6];
    let ninth = eighth + size[7];
    SlotNumbers {
        standing: 0,
        landed: second,
        asked: third,
        standing_rows: fourth,
        landed_rows: fifth,
        step: sixth,
        multipliers: seventh,
        curvature: eighth,
        filter: ninth,
    }
}

// How many numbers the area has.
pub fn area_length(z: Sizes) -> usize
    ensures { result ≡ area_length z }
{
    AREA
}

// Where the last numbers begin, which are in no slot.
fn spare_at(z: Sizes) -> usize
    ensures { result ≡ spare_at z }
{
    let size = slot_sizes(z);
    let points = size.standing + size.landed + size.asked;
    let rows = size.standing_rows + size.landed_rows;
    let trial = size.step + size.multipliers;
    points + rows + trial + size.curvature + size.filter
}

// Where the point begins that a caller reads: the asked one, or the standing one where no question is open.
pub fn point_place(st: State) -> usize
    ensures { result ≡ point_at st.sizes st.phase }
{
    let at = places(st.sizes);
    match st.phase {
        Some(_) => at.asked,
        None => at.standing,
    }
}

// ---- runs of numbers

// Writes src from the place base on.
pub fn write(area: &mut [f64], base: usize, src: &[f64])
    requires { base + length src.now ≤ length area.old }
    ensures { area.new ≡ written area.old base src.now }
{
    let end = base + src.len();
    area[base..end].copy_from_slice(src);
}

// Writes +0 to `count` places from base on.
fn clear_from(area: &mut [f64], base: usize, count: usize)
    requires { base + count ≤ length area.old }
    ensures { area.new ≡ written area.old base (zeros count) }
{
    clear(&mut area[base..base + count]);
}

// Copies so many numbers to another place.
fn copy(area: &mut [f64], from: usize, to: usize, count: usize)
    requires { (from + count ≤ length area.old) × (to + count ≤ length area.old) }
    ensures { area.new ≡ written area.old to (take count (drop from area.old)) }
{
    area.copy_within(from..from + count, to);
}

// Clears in each slot the numbers between two places.
fn clear_slots(area: &mut [f64], sizes: &[usize], from: &[usize], to: &[usize])
    requires { (length from.now ≡ length sizes.now) × (length to.now ≡ length sizes.now) ×
        (start_of sizes.now (length sizes.now) ≤ length area.old) ×
        ((k : ℕ) → k < length sizes.now →
        (get_or from.now k 0 ≤ get_or to.now k 0) × (get_or to.now k 0 ≤ get_or sizes.now k 0)) }
    ensures { area.new
        ≡ cleared_to sizes.now from.now to.now area.old
        (length sizes.now)
        ++ drop (start_of sizes.now (length sizes.now)) area.old }
{
    let mut base = 0;
    for k in 0..sizes.len() {
        let first = from[k];
        clear_from(area, base + first, to[k] - first);
        base += sizes[k];
    }
}

// ---- what is in use

// How many numbers an answer's rows have.
fn row_numbers(c: RowCounts) -> usize
    requires { FewRows c }
    ensures { result ≡ row_numbers c }
{
    2 * ((c.m + c.s) * (c.n + 1))
}

// How many pairs the filter has: one for each point that stood before.
pub fn pairs_in(st: State) -> usize
    ensures { result ≡ pairs_in st }
{
    st.counts.iterations
}

// How many numbers of each slot its contents have.
fn numbers_in(st: State) -> SlotNumbers
    requires { Limits st }
    ensures { numbers_of result ≡ numbers_in st }
{
    let c = standing_counts(st);
    let point = 2 * c.n;
    SlotNumbers {
        standing: point,
        landed: point,
        asked: point,
        standing_rows: row_numbers(c),
        landed_rows: row_numbers(landed_counts(st)),
        step: point,
        multipliers: 2 * c.m,
        curvature: 2 * (c.n * c.n),
        filter: 4 * pairs_in(st),
    }
}

// Of all slots the standing point's alone.
fn standing_alone(x: SlotNumbers) -> SlotNumbers
    ensures { numbers_of result ≡ standing_alone (numbers_of x) }
{
    SlotNumbers {
        landed: 0,
        asked: 0,
        standing_rows: 0,
        landed_rows: 0,
        step: 0,
        multipliers: 0,
        curvature: 0,
        filter: 0,
        ..x
    }
}

// How many numbers of each slot are in use between two calls.
fn used_in(st: State) -> SlotNumbers
    requires { Limits st }
    ensures { numbers_of result ≡ used_in st }
{
    let all = numbers_in(st);
    let alone = standing_alone(all);
    match st.phase {
        Some(Kind::Start) => SlotNumbers {
            asked: all.asked,
            ..alone
        },
        Some(Kind::Trial) => SlotNumbers {
            landed: 0,
            landed_rows: 0,
            ..all
        },
        Some(Kind::Correction) => all,
        None => alone,
    }
}

// Clears every place that is not in use. A caller may have written anything there, and the definitions read +0.
pub fn clear_unused(area: &mut [f64], st: State)
    requires { HasRoom st.sizes area.old × Limits st }
    ensures { Uses st.sizes (used_in st) (memory_of st area.old) area.new }
{
    let z = st.sizes;
    let sizes = in_order(slot_sizes(z));
    let used = in_order(used_in(st));
    clear_slots(area, &sizes, &used, &sizes);
    let spare = spare_at(z);
    clear_from(area, spare, area_length(z) - spare);
}

// ---- what is read of a slot: the numbers in use

// So many numbers from a place on.
pub fn part(area: &[f64], at: usize, count: usize) -> &[f64]
    requires { at + count ≤ length area.now }
    ensures { result.now ≡ part_of area.now at count }
{
    &area[at..at + count]
}

pub fn standing_point(area: &[f64], z: Sizes) -> &[f64]
    requires { HasRoom z area.now × (z.n ≤ VARIABLES) }
    ensures { result.now ≡ standing_part z area.now }
{
    part(area, places(z).standing, 2 * z.n)
}

pub fn landed_point(area: &[f64], z: Sizes) -> &[f64]
    requires { HasRoom z area.now × (z.n ≤ VARIABLES) }
    ensures { result.now ≡ part_of area.now (places_of z).landed (2 * z.n) }
{
    part(area, places(z).landed, 2 * z.n)
}

pub fn standing_rows(area: &[f64], z: Sizes, c: RowCounts) -> &[f64]
    requires { HasRoom z area.now × FewRows c }
    ensures { result.now ≡ rows_of z c area.now }
{
    part(area, places(z).standing_rows, row_numbers(c))
}

pub fn landed_rows(area: &[f64], z: Sizes, c: RowCounts) -> &[f64]
    requires { HasRoom z area.now × FewRows c }
    ensures { result.now ≡ part_of area.now (places_of z).landed_rows (row_numbers c) }
{
    part(area, places(z).landed_rows, row_numbers(c))
}

pub fn step(area: &[f64], z: Sizes) -> &[f64]
    requires { HasRoom z area.now × (z.n ≤ VARIABLES) }
    ensures { result.now ≡ part_of area.now (places_of z).step (2 * z.n) }
{
    part(area, places(z).step, 2 * z.n)
}

pub fn multipliers(area: &[f64], z: Sizes, c: RowCounts) -> &[f64]
    requires { HasRoom z area.now × (c.m ≤ CONSTRAINTS) }
    ensures { result.now ≡ part_of area.now (places_of z).multipliers (2 * c.m) }
{
    part(area, places(z).multipliers, 2 * c.m)
}

// The curvature that a search goes by. In plain there is none: the last numbers of the area are +0.
pub fn curvature_for(plain: bool, area: &[f64], z: Sizes) -> &[f64]
    requires { HasRoom z area.now × (z.n ≤ VARIABLES) }
    ensures { result.now ≡ curvature_for z plain area.now }
{
    let entries = 2 * (z.n * z.n);
    let mut at = places(z).curvature;
    if plain {
        at = spare_at(z);
    }
    part(area, at, entries)
}

pub fn filter(area: &[f64], z: Sizes, pairs: usize) -> &[f64]
    requires { HasRoom z area.now × (pairs ≤ ITERATIONS) }
    ensures { result.now ≡ part_of area.now (places_of z).filter (4 * pairs) }
{
    part(area, places(z).filter, 4 * pairs)
}

// ---- what a call writes

// After a begin: the start point stands and is asked.
pub fn write_begun(area: &mut [f64], z: Sizes, start: &[f64])
    requires { HasRoom z area.old × (length start.now ≤ point_len) }
    ensures { Holds z (begun_memory start.now) area.new }
{
    let at = places(z);
    clear(area);
    write(area, at.standing, start);
    write(area, at.asked, start);
}

// After a finish, or refusal 5 or 6: only the standing point. Behind the numbers in use all is +0 already, and at the
// smallest drawings clearing is most of a call's time.
pub fn keep_standing(area: &mut [f64], st: State)
    requires { HasRoom st.sizes area.old × Limits st }
    ensures { (w : Memory) → Working st w area.old →
        Holds st.sizes (only_standing w) area.new }
{
    let all = numbers_in(st);
    let sizes = in_order(slot_sizes(st.sizes));
    let from = in_order(standing_alone(all));
    let to = in_order(all);
    clear_slots(area, &sizes, &from, &to);
}

// A start's answer. Before it only the two points are in use, so all else is +0 already.
pub fn write_start(area: &mut [f64], st: State, rows: &[f64])
    requires { HasRoom st.sizes area.old × Limits st ×
        (length rows.now ≤ rows_len) × (st.phase ≡ Some kinds.Start) }
    ensures { (w : Memory) → Uses st.sizes (used_in st) w area.old →
        Holds st.sizes (with_start st w rows.now) area.new }
{
    let at = places(st.sizes);
    clear_from(area, at.asked, 2 * st.sizes.n);
    write(area, at.standing_rows, rows);
}

// Writes the asked point.
pub fn write_asked(area: &mut [f64], z: Sizes, next: &[f64])
    requires { HasRoom z area.old × (z.n ≤ VARIABLES) × (length next.now ≡ point_len) }
    ensures { area.new
        ≡ written area.old (places_of z).asked (take (2 * z.n) next.now) }
{
    write(area, places(z).asked, &next[..2 * z.n]);
}

// The point that a step leads to from the standing one is asked.
fn write_next(area: &mut [f64], z: Sizes, delta: &[f64])
    requires { HasRoom z area.old × (z.n ≤ VARIABLES) }
    ensures { area.new
        ≡ written area.old (places_of z).asked
        (take (2 * z.n) (moved_of z.n (standing_part z area.old) delta.now)) }
{
    let mut next = [0.0; 24];
    moved(z.n, standing_point(area, z), delta, &mut next);
    write_asked(area, z, &next);
}

// A trial asked, where the step leads: nothing has landed. Of what landed before the numbers in use are cleared.
pub fn write_trial(area: &mut [f64], st: State, delta: &[f64], lambda: &[f64])
    requires { HasRoom st.sizes area.old × Limits st ×
        StepLengths delta.now lambda.now }
    ensures { (w : Memory) → Working st w area.old → StandingWhole (numbers_in st) w →
        Holds st.sizes
        (with_trial st w (moved_of st.sizes.n w.standing delta.now) delta.now
        lambda.now) area.new }
{
    let at = places(st.sizes);
    let count = numbers_in(st);
    write_next(area, st.sizes, delta);
    clear_from(area, at.landed, count.landed);
    clear_from(area, at.landed_rows, count.landed_rows);
    write(area, at.step, &delta[..count.step]);
    write(area, at.multipliers, &lambda[..count.multipliers]);
}

// The asked point landed, with its rows. Those that landed before may have been more.
pub fn write_landed(area: &mut [f64], st: State, rows: &[f64])
    requires { HasRoom st.sizes area.old × Limits st × (length rows.now ≤ rows_len) }
    ensures { (w : Memory) → Working st w area.old → TrialWhole (numbers_in st) w →
        Holds st.sizes (with_landed w rows.now w.step) area.new }
{
    let at = places(st.sizes);
    let count = numbers_in(st);
    copy(area, at.asked, at.landed, count.landed);
    clear_from(area, at.landed_rows, count.landed_rows);
    write(area, at.landed_rows, rows);
}

// The landed point stands, with the curvature after it; the filter has the pair of the point that stood. Its rows may
// have been more, and the multipliers are theirs.
pub fn write_taken(area: &mut [f64], st: State, curvature: &[f64], f: Scalar, theta: Scalar)
    requires { HasRoom st.sizes area.old × Limits st × (pairs_in st < ITERATIONS) ×
        (length curvature.now ≡ (numbers_in st).curvature) }
    ensures { (w : Memory) → Working st w area.old → StandingWhole (numbers_in st) w →
        LandedWhole (numbers_in st) w →
        Holds st.sizes (with_taken w curvature.now (filter_with w.filter f theta))
        area.new }
{
    let at = places(st.sizes);
    let count = numbers_in(st);
    copy(area, at.landed, at.standing, count.landed);
    clear_from(area, at.standing_rows, count.standing_rows);
    copy(area, at.landed_rows, at.standing_rows, count.landed_rows);
    clear_from(area, at.multipliers, count.multipliers);
    write(area, at.curvature, curvature);
    let pair = pair_numbers(f, theta);
    write(area, at.filter + count.filter, &pair);
}

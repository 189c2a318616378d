// The known answers about runs (PROTOCOL, Known answers), P10 to P13, and the cases that it has executed only: each is
// played by
// `begin`, `reply` and `reply_none`.
use crate::printing::{print_case, print_scalar};
use float_bits::float_of;
use interval::Scalar;
use run::Returned;
use std::io;

// The bits of 2^400, the greatest end.
const MOST: u64 = 0x58F0000000000000;

fn unit() -> Scalar {
    Scalar { lo: 1.0, hi: 1.0 }
}

// A run of one variable, from 0, with steps up to 1.
fn begin_one(s: usize, limit: usize, area: &mut [f64]) -> Returned {
    let start = [0.0; 2];
    run::begin(1, s, limit, &start, unit(), area)
}

// ---- P10 to P13

fn print_first_mu(rt: &impl Print) -> io::Result<()> {
    let mut area = [0.0; 8000];
    let r = begin_one(1, 5, &mut area);
    print!(rt; "P10 first mu = ")?;
    print_scalar(rt, r.state.search.mu)?;
    println!(rt;)
}

fn print_none(rt: &impl Print) -> io::Result<()> {
    let mut area = [0.0; 8000];
    let r = begin_one(1, 0, &mut area);
    let a = run::reply_none(r.state, &mut area);
    print_case(rt, "P11 start none, limit 0", a)
}

fn print_budget(rt: &impl Print) -> io::Result<()> {
    let mut area = [0.0; 8000];
    let rows = [1.0; 8];
    let r = begin_one(1, 0, &mut area);
    let a = run::reply(r.state, &mut area, 1, &rows);
    print_case(rt, "P12 start answered, limit 0", a)
}

fn print_flat(rt: &impl Print) -> io::Result<()> {
    let mut area = [0.0; 8000];
    let nothing = [0.0; 0];
    let r = run::begin(0, 0, 5, &nothing, unit(), &mut area);
    let a = run::reply(r.state, &mut area, 0, &nothing);
    print_case(rt, "P13 n = m = s = 0, limit 5", a)
}

// ---- counts

fn print_begin(
    rt: &impl Print,
    name: &str,
    n: usize,
    s: usize,
    limit: usize,
    start: &[f64],
) -> io::Result<()> {
    let mut area = [0.0; 8000];
    let r = run::begin(n, s, limit, start, unit(), &mut area);
    print_case(rt, name, r)
}

// A reply of 13 constraint rows is refused before the length of its rows is asked, and the question stays open for one
// of 12.
fn print_constraints(rt: &impl Print) -> io::Result<()> {
    let mut area = [0.0; 8000];
    let r = begin_one(1, 0, &mut area);
    let refused = run::reply(r.state, &mut area, 13, &[1.0; 56]);
    print_case(rt, "m 13", refused)?;
    let short = run::reply(refused.state, &mut area, 13, &[1.0; 55]);
    print_case(rt, "m 13, rows one short", short)?;
    let a = run::reply(short.state, &mut area, 12, &[1.0; 52]);
    print_case(rt, "then m 12", a)
}

fn print_counts(rt: &impl Print) -> io::Result<()> {
    let one = [0.0; 2];
    print_begin(rt, "n 12", 12, 1, 5, &[0.0; 24])?;
    print_begin(rt, "n 13", 13, 1, 5, &[0.0; 26])?;
    print_begin(rt, "s 24", 1, 24, 5, &one)?;
    print_begin(rt, "s 25", 1, 25, 5, &one)?;
    print_begin(rt, "limit 200", 1, 1, 200, &one)?;
    print_begin(rt, "limit 201", 1, 1, 201, &one)?;
    print_constraints(rt)
}

// ---- ends

fn print_start(rt: &impl Print, name: &str, lo: f64, hi: f64) -> io::Result<()> {
    print_begin(rt, name, 1, 1, 5, &[lo, hi])
}

// A reply to the start with this value of the constraint.
fn print_row(rt: &impl Print, name: &str, lo: f64, hi: f64) -> io::Result<()> {
    let mut area = [0.0; 8000];
    let rows = [lo, hi, 0.0, 0.0];
    let r = begin_one(0, 0, &mut area);
    let a = run::reply(r.state, &mut area, 1, &rows);
    print_case(rt, name, a)
}

fn print_max_step(rt: &impl Print, name: &str, lo: f64, hi: f64) -> io::Result<()> {
    let mut area = [0.0; 8000];
    let start = [0.0; 2];
    let max = Scalar { lo, hi };
    let r = run::begin(1, 1, 5, &start, max, &mut area);
    print_case(rt, name, r)
}

fn print_ends(rt: &impl Print) -> io::Result<()> {
    let most = float_of(MOST);
    let more = interval::next_up(most);
    print_start(rt, "start up to 2^400", 0.0, most)?;
    print_start(rt, "start up to the next float", 0.0, more)?;
    print_start(rt, "start down to -2^400", -most, 0.0)?;
    print_start(rt, "start down to the next float", -more, 0.0)?;
    print_row(rt, "row up to 2^400", 0.0, most)?;
    print_row(rt, "row up to the next float", 0.0, more)?;
    print_row(rt, "row down to -2^400", -most, 0.0)?;
    print_row(rt, "row down to the next float", -more, 0.0)?;
    print_max_step(rt, "max_step up to 2^400", 1.0, most)?;
    print_max_step(rt, "max_step up to the next float", 1.0, more)?;
    print_max_step(rt, "max_step from 0", 0.0, 1.0)
}

// ---- lengths

// Rows of one number less are refused, and the question stays open.
fn print_short_rows(rt: &impl Print) -> io::Result<()> {
    let mut area = [0.0; 8000];
    let short = [1.0; 3];
    let rows = [1.0; 4];
    let r = begin_one(1, 5, &mut area);
    let refused = run::reply(r.state, &mut area, 0, &short);
    print_case(rt, "rows one short", refused)?;
    let a = run::reply(refused.state, &mut area, 0, &rows);
    print_case(rt, "then all rows", a)
}

fn print_begin_in(rt: &impl Print, name: &str, area: &mut [f64]) -> io::Result<()> {
    print_case(rt, name, begin_one(1, 0, area))
}

// An area of another length is refused, and the question stays open.
fn print_reply_in(rt: &impl Print, name: &str, other: &mut [f64]) -> io::Result<()> {
    let mut area = [0.0; 8000];
    let r = begin_one(1, 0, &mut area);
    let refused = run::reply_none(r.state, other);
    print_case(rt, name, refused)?;
    let a = run::reply_none(refused.state, &mut area);
    print_case(rt, "then with all of the area", a)
}

fn print_areas(rt: &impl Print) -> io::Result<()> {
    let mut short = [0.0; 7999];
    let mut long = [0.0; 8001];
    print_begin_in(rt, "begin with an area of 7999", &mut short)?;
    print_begin_in(rt, "begin with an area of 8001", &mut long)?;
    print_reply_in(rt, "none with an area of 7999", &mut short)?;
    print_reply_in(rt, "none with an area of 8001", &mut long)
}

// ---- no open question

fn print_over(rt: &impl Print) -> io::Result<()> {
    let mut area = [0.0; 8000];
    let rows = [1.0; 8];
    let r = begin_one(1, 0, &mut area);
    let finished = run::reply_none(r.state, &mut area);
    let a = run::reply(finished.state, &mut area, 1, &rows);
    print_case(rt, "rows to a finished run", a)?;
    let b = run::reply_none(finished.state, &mut area);
    print_case(rt, "none to a finished run", b)
}

pub fn print_runs(rt: &impl Print) -> io::Result<()> {
    print_first_mu(rt)?;
    print_none(rt)?;
    print_budget(rt)?;
    print_flat(rt)?;
    print_counts(rt)?;
    print_ends(rt)?;
    print_short_rows(rt)?;
    print_areas(rt)?;
    print_over(rt)
}

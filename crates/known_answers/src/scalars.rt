// The known answers about scalars (PROTOCOL, Known answers): P1 to P9.
use crate::printing::{print_float, print_result, print_scalar, yes_or_no};
use interval::Scalar;
use std::io;

fn scalar(lo: f64, hi: f64) -> Scalar {
    Scalar { lo, hi }
}

fn print_steps(rt: &impl Print) -> io::Result<()> {
    print!(rt; "P1 next_up -0 = ")?;
    print_float(rt, interval::next_up(-0.0))?;
    print!(rt; "\nP2 next_down +infinity = ")?;
    print_float(rt, interval::next_down(1.0 / 0.0))?;
    println!(rt;)
}

fn print_roots(rt: &impl Print) -> io::Result<()> {
    print!(rt; "P3 sqrt [4, 4] = ")?;
    print_result(rt, scalar(4.0, 4.0).sqrt())?;
    print!(rt; "P4 sqrt [0, 0] = ")?;
    print_result(rt, Scalar::ZERO.sqrt())?;
    print!(rt; "P5 sqrt [-1, 4] = ")?;
    print_result(rt, scalar(-1.0, 4.0).sqrt())?;
    print!(rt; "P6 sqrt [-2, -1] = ")?;
    print_result(rt, scalar(-2.0, -1.0).sqrt())
}

fn print_choices(rt: &impl Print) -> io::Result<()> {
    print!(rt; "P7 choose [0, 2] = ")?;
    print_scalar(rt, linear::choose(scalar(0.0, 2.0)))?;
    print!(rt; "\nP8 choose [1, 3] = ")?;
    print_scalar(rt, linear::choose(scalar(1.0, 3.0)))?;
    println!(rt;)
}

fn print_comparison(rt: &impl Print) -> io::Result<()> {
    let x = scalar(1.0, 2.0);
    let y = scalar(2.0, 3.0);
    let equal = yes_or_no(x.could_be_equal(y));
    let less = yes_or_no(x.definitely_less(y));
    let greater = yes_or_no(x.definitely_greater(y));
    print!(rt; "P9 [1, 2] and [2, 3]: could be equal {equal}")?;
    println!(rt; ", definitely less {less}, definitely greater {greater}")
}

pub fn print_scalars(rt: &impl Print) -> io::Result<()> {
    print_steps(rt)?;
    print_roots(rt)?;
    print_choices(rt)?;
    print_comparison(rt)
}

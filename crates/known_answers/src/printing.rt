// What the program prints: floats by their bits, and the answers of the crates with the protocol's numbers.
use float_bits::{bits_of, word_text};
use interval::{GeopError, Scalar};
use run::{Event, Kind, Returned, Stop};
use std::io;

pub fn print_float(rt: &impl Print, x: f64) -> io::Result<()> {
    rt.write_all(&word_text(bits_of(x)))
}

// The two ends.
pub fn print_scalar(rt: &impl Print, x: Scalar) -> io::Result<()> {
    print_float(rt, x.lo)?;
    print!(rt; ", ")?;
    print_float(rt, x.hi)
}

fn print_refusal(rt: &impl Print, number: usize) -> io::Result<()> {
    print!(rt; "refusal {number}")
}

// The two ends, or the number of the refusal.
pub fn print_result(rt: &impl Print, r: Result<Scalar, GeopError>) -> io::Result<()> {
    match r {
        Ok(x) => print_scalar(rt, x)?,
        Err(e) => print_refusal(rt, usize::from(e))?,
    }
    println!(rt;)
}

pub fn yes_or_no(b: bool) -> &'static str {
    if b { "yes" } else { "no" }
}

fn name_of(kind: Kind) -> &'static str {
    match kind {
        Kind::Start => "start",
        Kind::Trial => "trial",
        Kind::Correction => "correction",
    }
}

fn print_stop(rt: &impl Print, stop: Stop) -> io::Result<()> {
    match stop {
        Stop::Infeasible => print!(rt; "Infeasible"),
        Stop::NoChange(_) => print!(rt; "NoChange"),
        Stop::Undecided => print!(rt; "Undecided"),
        Stop::Flat(independent, _) => print!(rt; "Flat, {independent} independent"),
        Stop::Damped(_) => print!(rt; "Damped"),
        Stop::Budget => print!(rt; "Budget"),
    }
}

fn print_question(rt: &impl Print, number: usize, kind: Kind, standing: usize) -> io::Result<()> {
    print!(rt; "question {number}, {}, standing {standing}", name_of(kind))
}

fn print_finish(
    rt: &impl Print,
    stop: Stop,
    iterations: usize,
    turn_downs: usize,
    standing: usize,
) -> io::Result<()> {
    print!(rt; "finish ")?;
    print_stop(rt, stop)?;
    print!(rt; ", iterations {iterations}, turn-downs {turn_downs}, standing {standing}")
}

// A line: the name of a case, and what a call of a run answered.
pub fn print_case(rt: &impl Print, name: &str, r: Returned) -> io::Result<()> {
    print!(rt; "{name}: ")?;
    let answer = r.event;
    match answer {
        Event::Question(number, kind, standing) => print_question(rt, number, kind, standing)?,
        Event::Finish(stop, iterations, turn_downs, standing) => {
            print_finish(rt, stop, iterations, turn_downs, standing)?
        }
        Event::Refused(refusal) => print_refusal(rt, usize::from(refusal))?,
    }
    println!(rt;)
}

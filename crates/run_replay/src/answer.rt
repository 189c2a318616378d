// What a call answered, held to what the list says next. An answer there is `q` with the question's number,
// kind and standing, or `f` with the stop, its rejection, its independent rows and constraints, iterations,
// turn-downs and standing, each with the words of the point; or `x` with the number of the refusal.
use replay_text::tokens::next_token;
use replay_text::words::{both, same_words};
use run::{Event, Kind, Rejection, Stop};
use std::io;
use std::io::BufRead;

const QUESTION: u64 = 0x71;

const FINISH: u64 = 0x66;

const REFUSED: u64 = 0x78;

fn kind_of(k: Kind) -> u64 {
    match k {
        Kind::Start => 0,
        Kind::Trial => 1,
        Kind::Correction => 2,
    }
}

fn rejection_of(r: Option<Rejection>) -> u64 {
    match r {
        None => 0,
        Some(Rejection::NotPositive) => 1,
        Some(Rejection::Infeasible) => 2,
        Some(Rejection::Unresolved) => 3,
        Some(Rejection::NotLower) => 4,
    }
}

// The stop's number, its rejection, its independent rows and its constraints.
fn words_of(stop: Stop) -> [u64; 4] {
    match stop {
        Stop::Infeasible => [0, 0, 0, 0],
        Stop::NoChange(r) => [1, rejection_of(r), 0, 0],
        Stop::Undecided => [2, 0, 0, 0],
        Stop::Flat(independent, constraints) => [3, 0, independent as u64, constraints as u64],
        Stop::Damped(r) => [4, rejection_of(r), 0, 0],
        Stop::Budget => [5, 0, 0, 0],
    }
}

// The letter, and the numbers behind it.
fn line_of(answer: Event) -> [u64; 8] {
    match answer {
        Event::Question(number, kind, standing) => {
            let kind = kind_of(kind);
            [QUESTION, number as u64, kind, standing as u64, 0, 0, 0, 0]
        }
        Event::Finish(stop, iterations, turned, standing) => {
            let [stop, rejected, independent, constraints] = words_of(stop);
            [
                FINISH,
                stop,
                rejected,
                independent,
                constraints,
                iterations as u64,
                turned as u64,
                standing as u64,
            ]
        }
        Event::Refused(refusal) => [REFUSED, usize::from(refusal) as u64, 0, 0, 0, 0, 0, 0],
    }
}

// Reads the words of a point, which must have so many numbers.
fn same_point(list: &mut impl BufRead, point: &[f64], numbers: usize) -> io::Result<Option<bool>> {
    let same = same_words(list, point.get(..numbers).unwrap_or(point))?;
    Ok(both(same, Some(point.len() == numbers)))
}

// Reads the answer that the list has next, with so many words for a point, and says whether it is the same, or none
// where it is malformed. The list's own letter says what stands behind it, and all of that is read.
pub fn same_answer(
    list: &mut impl BufRead,
    answer: Event,
    point: &[f64],
    numbers: usize,
) -> io::Result<Option<bool>> {
    let line = line_of(answer);
    let Some(t) = next_token(list)? else {
        return Ok(None);
    };
    let (words, has_point) = match t.text {
        QUESTION => (&line[1..4], true),
        FINISH => (&line[1..8], true),
        REFUSED => (&line[1..2], false),
        _ => return Ok(None),
    };
    let mut same = same_words(list, words)?;
    if has_point {
        same = both(same, same_point(list, point, numbers)?);
    }
    let same_letter = (t.length == 1).then_some(t.text == line[0]);
    Ok(both(same_letter, same))
}

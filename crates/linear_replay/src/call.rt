// A call of the list: its head, then the words of the slices a, b and c and of the marks, which the
// function reads, then those of the output and of the marks, which it leaves.
use interval::Scalar;
use replay_text::error::ListError;
use replay_text::words::{both, first_of, read_words, same_words};
use std::io::BufRead;
use yadzvego::lists;
use yadzvego::scalars::ScalarResult;

// The function's code, its counts (one alone is n), the lengths of its slices, and the number of the
// refusal or 0.
#[derive(Clone, Copy)]
pub struct Head {
    pub code: u64,
    pub m: usize,
    pub n: usize,
    pub a: usize,
    pub b: usize,
    pub c: usize,
    pub marks: usize,
    pub out: usize,
    pub number: u64,
}

// A value goes to the output.
fn given(r: ScalarResult, out: &mut [f64]) -> u64 {
    linear::put(out, 0, r.value);
    r.number
}

fn chosen(v: Scalar, out: &mut [f64]) -> u64 {
    linear::put(out, 0, lists::yadzvego_linear_choose(v));
    0
}

// The slices that a function only reads.
#[derive(Clone, Copy)]
struct Operands<'a> {
    a: &'a [f64],
    b: &'a [f64],
    c: &'a [f64],
}

impl Head {
    // The number of the refusal, 0, or 255 for a code that the list does not have.
    fn call(self, x: Operands, out: &mut [f64], marks: &mut [bool]) -> u64 {
        let Head { m, n, .. } = self;
        match self.code {
            1 => given(lists::yadzvego_linear_dot(n, x.a, x.b), out),
            2 => given(lists::yadzvego_linear_norm(n, x.a), out),
            3 => chosen(linear::at(x.a, 0), out),
            4 => lists::yadzvego_linear_sharp(n, x.a, out),
            5 => lists::yadzvego_linear_cholesky(n, x.a, out, marks),
            6 => lists::yadzvego_linear_solve_cholesky(n, x.a, marks, x.b, out),
            7 => lists::yadzvego_linear_least_squares(m, n, x.a, x.b, out),
            8 => lists::yadzvego_linear_minus_solved(m, n, x.a, x.b, x.c, out),
            _ => 255,
        }
    }
}

// Makes the call and says whether it leaves what the list says. There is room for a count of 25, and for a slice that
// is too long.
pub fn replay_call(list: &mut impl BufRead, head: Head) -> Result<bool, ListError> {
    // A call that is refused leaves what the output holds before.
    let mut out = [1.0; 1260];
    let mut a = [0.0; 1260];
    let mut b = [0.0; 60];
    let mut c = [0.0; 60];
    let mut marks = [false; 30];
    let a = first_of(&mut a, head.a)?;
    let b = first_of(&mut b, head.b)?;
    let c = first_of(&mut c, head.c)?;
    let out = first_of(&mut out, head.out)?;
    let marks = first_of(&mut marks, head.marks)?;
    read_words(list, a)?;
    read_words(list, b)?;
    read_words(list, c)?;
    read_words(list, marks)?;
    let number = head.call(Operands { a, b, c }, out, marks);
    let same_out = same_words(list, out)?;
    let same_marks = same_words(list, marks)?;
    let same_number = Some(number == head.number);
    both(both(same_out, same_marks), same_number).ok_or(ListError::Malformed)
}

// Replays the list of calls on standard input against the crate linear, through the functions for C: a
// line for each call, with what the Rust gives. Prints the number of each call that differs, then how
// many calls there were.
#![tactic(auto)]

mod call;

use call::{Head, replay_call};
use replay_text::error::ListError;
use replay_text::tally::replay_list;
use replay_text::tokens::Token;
use replay_text::words::read_words;
use std::io;
use std::io::{BufRead, Input};

// The call that starts with a token, the function's code.
fn replay(list: &mut impl BufRead, first: Token) -> Result<bool, ListError> {
    let code = first.number.ok_or(ListError::Malformed)?;
    let mut words = [0; 8];
    read_words(list, &mut words)?;
    let [m, n, a, b, c, marks, out, number] = words;
    let head = Head {
        code,
        m: m as usize,
        n: n as usize,
        a: a as usize,
        b: b as usize,
        c: c as usize,
        marks: marks as usize,
        out: out as usize,
        number,
    };
    replay_call(list, head)
}

fn main(rt: HostRuntime) -> io::Result<()> {
    let mut list = rt.reader();
    replay_list(&rt, &mut list, "call ", " calls, ", |list, first| {
        replay(list, first)
    })
}

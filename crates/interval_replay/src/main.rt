// Replays the list of answers on standard input against the interval crate: a line for each answer
// of the Rust. Prints the number of each line that differs, then how many lines there were.
#![tactic(auto)]

mod answer;

use answer::answer_of;
use replay_text::error::ListError;
use replay_text::tally::replay_list;
use replay_text::tokens::{Token, next_token};
use replay_text::words::{read_words, same_words};
use std::io;
use std::io::{BufRead, Input};

const EQUALS: u64 = 0x3D;

// The line that starts with a token, the function's code; four operands follow it. The answer to them is held to what
// the list has behind its sign =, which is read behind another sign too.
fn replay(list: &mut impl BufRead, first: Token) -> Result<bool, ListError> {
    let code = first.number.ok_or(ListError::Malformed)?;
    let mut operands = [0; 4];
    read_words(list, &mut operands)?;
    let sign = next_token(list)?;
    let same = same_words(list, &answer_of(code, operands).0)?;
    match sign {
        Some(t) if t.text == EQUALS => same.ok_or(ListError::Malformed),
        _ => Err(ListError::Malformed),
    }
}

fn main(rt: HostRuntime) -> io::Result<()> {
    let mut list = rt.reader();
    replay_list(&rt, &mut list, "line ", " answers, ", |list, first| {
        replay(list, first)
    })
}

// Replays the list of runs on standard input against the crate run: what each call answers is held to what the
// Rust gives, with the asked or the last point. Prints the run and the call of each answer that differs, both
// counted from 0 and a run's beginning among its calls, then how many runs and calls there were.
#![tactic(auto)]

mod answer;
mod replay;

use replay::Replay;
use replay_text::error::{ListError, is_malformed};
use replay_text::tokens::next_token;
use std::io;
use std::io::{BufRead, Input};

// More runs are not read: their number shows it.
const MOST_RUNS: u64 = 1000000;

// Runs until the list ends.
fn replay_list(
    rt: &impl Print,
    list: &mut impl BufRead,
    runs: &mut Replay,
) -> Result<(), ListError> {
    for _ in 0..MOST_RUNS {
        let Some(first) = next_token(list)? else {
            break;
        };
        runs.replay(rt, list, first)?;
    }
    Ok(())
}

fn main(rt: HostRuntime) -> io::Result<()> {
    let mut runs = Replay::new();
    let malformed = is_malformed(replay_list(&rt, &mut rt.reader(), &mut runs))?;
    print!(rt; "{} runs, ", runs.runs)?;
    runs.calls.print(&rt, " calls, ", malformed)
}

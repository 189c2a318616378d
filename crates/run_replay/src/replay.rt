// A run of the list: `run` with its counts, limit, longest step and start, and the answer to its beginning;
// then for each reply `r` with its constraint rows and the numbers of its rows, or `n`, and the answer to it;
// then `end`.
use crate::answer::same_answer;
use float_bits::float_of;
use interval::Scalar;
use replay_text::error::ListError;
use replay_text::tally::{Tally, one_more};
use replay_text::tokens::{Token, next_token};
use replay_text::words::{first_of, read_words};
use run::{Returned, State};
use std::io;
use std::io::BufRead;

const RUN: u64 = 0x72756E;

const END: u64 = 0x656E64;

const ROWS: u64 = 0x72;

const NONE: u64 = 0x6E;

// More are not read: their numbers show it.
const MOST: u64 = 100000000;

// The tally of the calls, how many runs there were, the call's number in its run, and room for a start of 30 variables
// and for rows that are too many.
#[derive(Drop)]
pub struct Replay {
    pub calls: Tally,
    pub runs: u64,
    call: u64,
    start: [f64; 60],
    rows: [f64; 1000],
    area: [f64; 8000],
}

impl Replay {
    pub fn new() -> Replay {
        Replay {
            calls: Tally::default(),
            runs: 0,
            call: 0,
            start: [0.0; 60],
            rows: [0.0; 1000],
            area: [0.0; 8000],
        }
    }

    // The answer to a call, where points have so many numbers; says whether it is well formed. Where it differs the
    // run's number is printed before the call's.
    fn compare(
        &mut self,
        rt: &impl Print,
        list: &mut impl BufRead,
        out: Returned,
        numbers: usize,
    ) -> io::Result<bool> {
        let point = run::point(out.state, &self.area);
        let Some(same) = same_answer(list, out.event, point, numbers)? else {
            return Ok(false);
        };
        if !same {
            print!(rt; "run {}", self.runs)?;
        }
        self.calls.count(rt, ", call ", self.call, same)?;
        self.call = one_more(self.call);
        Ok(true)
    }

    // Begins the run that the list has next, and says how many numbers a point has.
    fn begin(&mut self, list: &mut impl BufRead) -> Result<(Returned, usize), ListError> {
        let mut head = [0; 5];
        read_words(list, &mut head)?;
        let [n, s, limit, lo, hi] = head;
        let numbers = (n as usize).saturating_mul(2);
        let start = first_of(&mut self.start, numbers)?;
        read_words(list, start)?;
        let max_step = Scalar {
            lo: float_of(lo),
            hi: float_of(hi),
        };
        let out = run::begin(
            n as usize,
            s as usize,
            limit as usize,
            start,
            max_step,
            &mut self.area,
        );
        Ok((out, numbers))
    }

    // Makes the reply that the list has next, or none at the end of the run.
    fn reply(
        &mut self,
        list: &mut impl BufRead,
        state: State,
    ) -> Result<Option<Returned>, ListError> {
        let t = next_token(list)?.ok_or(ListError::Malformed)?;
        match t.text {
            ROWS => {
                let mut counts = [0; 2];
                read_words(list, &mut counts)?;
                let [m, count] = counts;
                let rows = first_of(&mut self.rows, count as usize)?;
                read_words(list, rows)?;
                Ok(Some(run::reply(state, &mut self.area, m as usize, rows)))
            }
            NONE => Ok(Some(run::reply_none(state, &mut self.area))),
            END => Ok(None),
            _ => Err(ListError::Malformed),
        }
    }

    fn replay_calls(&mut self, rt: &impl Print, list: &mut impl BufRead) -> Result<(), ListError> {
        let (mut out, numbers) = self.begin(list)?;
        let begun = self.compare(rt, list, out, numbers)?;
        for _ in 0..MOST {
            // One reply is read behind a malformed answer to the beginning too.
            let next = self.reply(list, out.state)?;
            if !begun {
                return Err(ListError::Malformed);
            }
            let Some(next) = next else {
                break;
            };
            out = next;
            if !self.compare(rt, list, out, numbers)? {
                return Err(ListError::Malformed);
            }
        }
        Ok(())
    }

    // The run that starts with a token. One that is malformed is counted too.
    pub fn replay(
        &mut self,
        rt: &impl Print,
        list: &mut impl BufRead,
        first: Token,
    ) -> Result<(), ListError> {
        if first.text != RUN {
            return Err(ListError::Malformed);
        }
        self.call = 0;
        let ended = self.replay_calls(rt, list);
        self.runs = one_more(self.runs);
        ended
    }
}

// A list of replies played through the calls of a run. The contract of `play` is the fold of demand 3's own definition
// of a call, and demand 3 of what it returns.
#![tactic(auto)]

ghost use Rattle.std.specs.Prelude.{◌≡◌, ◌+◌, ◌-◌, ◌≤◌, min, get_or};
ghost use Rattle.interval.specs.Scalar.{pick};
ghost use Rattle.run.specs.Calls.{after_call, reply_of, reply_none_of};
ghost use Rattle.call_list.specs.CallList.{count_of, call_result_of, Called, Plays};

use interval::Scalar;
use run::{Returned, State};

// A reply with the rows, m constraint rows among them, or with none.
fn answer(st: State, area: &mut [f64], none: bool, m: usize, rows: &[f64]) -> Returned
    ensures { after_call result area.new
        ≡ pick none (reply_none_of st area.old) (reply_of st area.old m rows.now) }
{
    if none {
        return run::reply_none(st, area);
    }
    run::reply(st, area, m, rows)
}

// The call that a code names: over the area, or over no numbers of it.
fn call(st: State, area: &mut [f64], code: usize, m: usize, rows: &[f64]) -> Returned
    ensures { Called (record { state = st; area = area.old }) code m rows.now
        (call_result_of result area.new) }
{
    if code % 2 == 0 {
        return answer(st, area, code < 2, m, rows);
    }
    answer(st, &mut area[..0], code < 2, m, rows)
}

// Where the rows end that begin at `at`: with the numbers, if fewer are left.
fn end_of(code: usize, at: usize, count: usize) -> usize
    requires { at ≤ count }
    ensures { result ≡ at + min (count_of code) (count - at) }
{
    at + (code / 2).saturating_sub(1).min(count - at)
}

// How many constraint rows the i-th call has: none, where the list is shorter.
fn constraints_of(ms: &[usize], i: usize) -> usize
    ensures { result ≡ get_or ms.now i 0 }
{
    ms.get(i).copied().unwrap_or(0)
}

// Begins a run as `run::begin` does and makes one call for each of `codes`: an even code over the area, an odd one over
// an area of no numbers, which is refused. Codes 0 and 1 reply none; 2 k + 2 and 2 k + 3 reply with rows, the next k of
// `numbers`, with as many constraint rows as `ms` has for the call. It returns the state and the answer of the last
// call. Where begin is refused, the calls are replies to no run.
pub fn play(
    n: usize,
    s: usize,
    limit: usize,
    start: &[f64],
    max_step: Scalar,
    area: &mut [f64],
    codes: &[usize],
    ms: &[usize],
    numbers: &[f64],
) -> Returned
    ensures { Plays (record { n = n; s = s; limit = limit }) start.now max_step
        area.old codes.now ms.now numbers.now
        (call_result_of result area.new) }
{
    let mut out = run::begin(n, s, limit, start, max_step, area);
    let mut at = 0;
    let mut i = 0;
    while i < codes.len() {
        let code = codes[i];
        let st = out.state;
        let end = end_of(code, at, numbers.len());
        out = call(st, area, code, constraints_of(ms, i), &numbers[at..end]);
        at = end;
        i += 1;
    }
    out
}

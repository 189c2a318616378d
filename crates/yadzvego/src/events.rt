// The event that a call returns, as numbers. The cases are numbered in specs/Events.antt; a number that an event does
// not tell is 0.
ghost use Rattle.std.specs.Prelude.{◌≡◌};
ghost use Rattle.yadzvego.specs.Events.{ended, ending_of, asked, finished, numbers_of};
ghost use Rattle.run.specs.Calls.{refused_by_check};
ghost use Rattle.yadzvego.specs.Exports.{returned_from, refused_with, run_after, returned_after};

use crate::c_state::{Run, c_state_of, kind_number, rejection_number};
use run::{Event, Refusal, Returned, State, Stop};

#[repr(C)]
#[derive(Clone, Copy)]
pub struct EventNumbers {
    pub which: u8,
    pub kind: u8,
    pub stop: u8,
    pub rejected: u8,
    pub number: usize,
    pub standing: usize,
    pub independent: usize,
    pub constraints: usize,
    pub iterations: usize,
    pub turned_down: usize,
}

// What a call returns: the run after it, and the event.
#[repr(C)]
#[derive(Clone, Copy)]
pub struct CReturned {
    pub run: Run,
    pub event: EventNumbers,
}

// Why a run stopped.
#[derive(Clone, Copy)]
pub struct Ending {
    pub stop: u8,
    pub rejected: u8,
    pub independent: usize,
    pub constraints: usize,
}

fn ended(stop: u8, rejected: u8, independent: usize, constraints: usize) -> Ending
    ensures { result ≡ ended stop rejected independent constraints }
{
    Ending {
        stop,
        rejected,
        independent,
        constraints,
    }
}

fn ending_of(s: Stop) -> Ending
    ensures { result ≡ ending_of s }
{
    match s {
        Stop::Infeasible => ended(0, 0, 0, 0),
        Stop::NoChange(r) => ended(1, rejection_number(r), 0, 0),
        Stop::Undecided => ended(2, 0, 0, 0),
        Stop::Flat(independent, constraints) => ended(3, 0, independent, constraints),
        Stop::Damped(r) => ended(4, rejection_number(r), 0, 0),
        Stop::Budget => ended(5, 0, 0, 0),
    }
}

fn finished(e: Ending, iterations: usize, turned_down: usize, standing: usize) -> EventNumbers
    ensures { result ≡ finished e iterations turned_down standing }
{
    EventNumbers {
        which: 1,
        kind: 0,
        stop: e.stop,
        rejected: e.rejected,
        number: 0,
        standing,
        independent: e.independent,
        constraints: e.constraints,
        iterations,
        turned_down,
    }
}

// A question, or a refusal with the kind and the standing 0.
fn asked(which: u8, kind: u8, number: usize, standing: usize) -> EventNumbers
    ensures { result ≡ asked which kind number standing }
{
    EventNumbers {
        which,
        kind,
        stop: 0,
        rejected: 0,
        number,
        standing,
        independent: 0,
        constraints: 0,
        iterations: 0,
        turned_down: 0,
    }
}

fn numbers_of(a: Event) -> EventNumbers
    ensures { result ≡ numbers_of a }
{
    match a {
        Event::Question(number, kind, standing) => asked(0, kind_number(kind), number, standing),
        Event::Finish(stop, iterations, turned_down, standing) => {
            finished(ending_of(stop), iterations, turned_down, standing)
        }
        Event::Refused(refusal) => asked(2, 0, usize::from(refusal), 0),
    }
}

pub fn returned_of(o: Returned) -> CReturned
    ensures { result ≡ returned_from o }
{
    let state = o.state;
    let event = o.event;
    CReturned {
        run: c_state_of(state),
        event: numbers_of(event),
    }
}

// Whether an event is a refusal by 1 to 4.
fn refused_by_check(a: Event) -> bool
    ensures { result ≡ refused_by_check a }
{
    match a {
        Event::Question(_, _, _) => false,
        Event::Finish(_, _, _, _) => false,
        Event::Refused(refusal) => !matches!(refusal, Refusal::Arithmetic(_)),
    }
}

// The run after a call over it: unchanged in every bit where the call is refused by 1 to 4.
fn run_after(run: Run, state: State, event: Event) -> Run
    ensures { result ≡ run_after run state event }
{
    if refused_by_check(event) {
        return run;
    }
    c_state_of(state)
}

// What a call over a run returns.
pub fn returned_after(run: Run, o: Returned) -> CReturned
    ensures { result ≡ returned_after run o.state o.event }
{
    let state = o.state;
    let event = o.event;
    CReturned {
        run: run_after(run, state, event),
        event: numbers_of(event),
    }
}

// Refusal 4 with the run as it was.
pub fn altered(run: Run) -> CReturned
    ensures { result ≡ refused_with run 4 }
{
    CReturned {
        run,
        event: asked(2, 0, 4, 0),
    }
}

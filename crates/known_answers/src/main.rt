// Prints the known answers (PROTOCOL, Known answers): what the crates give for P1 to P13, then the cases that are
// executed only, sheets among them.
// That the definitions give P1 to P13 is proved (the contract of `defined`).
#![tactic(auto)]

ghost use Rattle.known_answers.specs.KnownAnswers.{KnownAnswers};

mod printing;
mod runs;
mod scalars;
mod sheets;

use runs::print_runs;
use scalars::print_scalars;
use sheets::print_sheets;
use std::io;

// The definitions that the contracts of the crates cite give P1 to P13.
fn defined()
    ensures { KnownAnswers }
{}

fn main(rt: HostRuntime) -> io::Result<()> {
    defined();
    print_scalars(&rt)?;
    print_runs(&rt)?;
    print_sheets(&rt)
}

// Every limit of the protocol, once: a caller may rely on them, and every sum of counts and every place does.

// The most variables, constraint rows and sum rows of an answer, and the most iterations of a run.
pub const VARIABLES: usize = 12;

pub const CONSTRAINTS: usize = 12;

pub const SUM_ROWS: usize = 24;

pub const ITERATIONS: usize = 200;

// The most turn-downs for each iteration and one more, and the most questions for each iteration that a run may make.
pub const TURN_DOWNS: usize = 1100;

pub const QUESTIONS: usize = 5500;

// The most corrections of a trial.
pub const CORRECTIONS: usize = 4;

// How many numbers the work area has.
pub const AREA: usize = 8000;

// The bits of 2^400, the greatest magnitude of an end.
pub const DOMAIN_BITS: u64 = 0x58F0000000000000;

// What a sheet says.

// What a rule asks of two points: a distance, the same height, or to stand one above the other.
#[derive(Clone, Copy, Debug, PartialEq, Eq)]
pub enum Kind {
    Span,
    Level,
    Plumb,
}

// The length of a span; 0 for the others.
#[derive(Clone, Copy)]
pub struct Rule {
    pub kind: Kind,
    pub first: usize,
    pub second: usize,
    pub length: usize,
}

// x and y of each point, one after the other; those behind `count` points have no meaning.
#[derive(Clone, Copy)]
pub struct Points {
    pub count: usize,
    pub coordinates: [i64; 12],
}

// Those behind `count` rules have no meaning.
#[derive(Clone, Copy)]
pub struct Rules {
    pub count: usize,
    pub list: [Rule; 12],
}

// Points, the most iterations, how far a step goes, and the rules between the points.
#[derive(Clone, Copy)]
pub struct Sheet {
    pub points: Points,
    pub limit: usize,
    pub reach: usize,
    pub rules: Rules,
}

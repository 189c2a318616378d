// The next float either way, by the bit pattern: patterns of numbers with one sign are ordered as their sizes are. From
// either zero the step goes to the smallest subnormal, as from every other float to its neighbour. A longer step there
// would give every value near zero a width that the values beside it do not have, and what lies between them could not
// be told apart.
ghost use Rattle.std.specs.Prelude.{◌≡◌, ◌+◌, ◌-◌, ◌%◌, ◌<◌, ◌≤◌, true, false, cond};
ghost use Rattle.interval.specs.Step.{next_up, next_down};

// The pattern one step up from b: away from zero for a number that is not negative, whose sign bit is dropped so that
// -0 counts as +0, and towards zero for a negative one. The sign comes as a bool, so that the compiler chooses between
// the two patterns without a branch: the signs of a run come in no order that could be predicted.
fn pattern_above(not_negative: bool, b: u64) -> u64
    requires { not_negative ≡ false → 1 ≤ b }
    ensures { result ≡ cond not_negative (b % 9223372036854775808 + 1) (b - 1) }
{
    if not_negative {
        return b % 9223372036854775808 + 1;
    }
    b - 1
}

// From either zero: the smallest subnormal. Infinity and NaN stay.
pub fn next_up(x: f64) -> f64
    ensures { result ≡ next_up x }
{
    if x < f64::INFINITY {
        return f64::from_bits(pattern_above(x >= 0.0, f64::to_bits(x)));
    }
    x
}

// The pattern one step down from b: away from zero for a number that is not positive, whose sign bit is set so that +0
// counts as -0, and towards zero for a positive one.
fn pattern_below(not_positive: bool, b: u64) -> u64
    requires { (not_positive ≡ true → b % 9223372036854775808 < 9223372036854775807)
        × (not_positive ≡ false → 1 ≤ b) }
    ensures { result ≡ cond not_positive (b % 9223372036854775808 + 9223372036854775809) (b - 1) }
{
    if not_positive {
        return b % 9223372036854775808 + 9223372036854775809;
    }
    b - 1
}

pub fn next_down(x: f64) -> f64
    ensures { result ≡ next_down x }
{
    if -x < f64::INFINITY {
        return f64::from_bits(pattern_below(-x >= 0.0, f64::to_bits(x)));
    }
    x
}

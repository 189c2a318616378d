// Lists of scalars and small matrices, at most 24 rows and 24 columns, over flat f64 slices: two numbers for each
// scalar, lo then hi, matrices row by row. The functions are those of geop-core-math's solvers, by the same names, some
// also in parts, since one part may serve several calls. Nothing is kept on a heap.
//
// Public functions are total: they answer 1 where a count is above 24, then 2 where a slice has the wrong length, with
// nothing written, and 5 or 6 in the Rust's order of operations, with the output slice all +0. Inputs are never
// written. `at`, `along`, the sums of products and `minus_scaled` read NaN outside a slice, and `put` and
// `minus_scaled` change nothing there.
#![tactic(auto)]

mod bounds;
mod choices;
mod dots;
mod factor;
mod flat;
mod householder;
mod norms;
mod results;
mod scaled;
mod solved;
mod stored;
mod substitution;

pub use choices::{choose, sharp};
pub use dots::{Two, dot, minus_dot, plus_dot, row_dot, two_minus, two_rows};
pub use factor::cholesky;
pub use flat::{Places, along, at, clear, in_column, in_row, put};
pub use householder::least_squares;
pub use norms::norm;
pub use results::LinearError;
pub use scaled::minus_scaled;
pub use solved::{gram_factor, minus_factored, minus_solved};
pub use stored::store;
pub use substitution::solve_cholesky;

// A run of `minimize` (geop-core-math, solvers/least_squares.rs) by question and reply.
#![tactic(auto)]

mod answered;
mod area;
mod basis;
mod calls;
mod checks;
mod corrected;
mod curvature;
mod damping;
mod decide;
mod endings;
mod filter;
mod iterate;
mod judgement;
mod limits;
mod null_space;
mod pieces;
mod problem;
mod proposal;
mod radius;
mod reduced;
mod refusal;
mod residuals;
mod rows;
mod search;
mod state;
mod step;
mod vectors;

pub use area::{area_length, point_place};
pub use calls::{begin, point, reply, reply_none};
pub use checks::valid;
pub use judgement::Judged;
pub use limits::AREA;
pub use pieces::{
    along, cut, expects, judge, learned, moving, predicted, shift, squared, step_at, transposed,
    update_curvature,
};
pub use refusal::Refusal;
pub use rows::RowCounts;
pub use state::{
    Contents, Counts, Event, Kind, Rejection, Returned, Search, Sizes, State, Stop, Trial,
};

// Sheets: a text that describes points and the rules between them is read, settled and printed, or spelled in its one
// way, with no io.
#![tactic(auto)]

mod fault;
mod lines;
mod numbers;
mod printing;
mod reader;
mod rows;
mod settling;
mod sheet;
mod spelling;
mod text;

pub use fault::Fault;
pub use settling::settle_text;
pub use spelling::{print_spelling, spell_text};

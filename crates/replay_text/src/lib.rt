// What the programs share that replay a fixed list on standard input: the list's tokens, the words they write, held
// to what a crate gives, and the count of its cases.
#![tactic(auto)]

mod digits;
pub mod error;
pub mod tally;
pub mod tokens;
pub mod words;

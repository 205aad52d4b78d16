// What a waiting item's line says of its state: the word and the references before its terms, behind them whether a sent cycle
// has fixed it, and the marks of a pair.
#![tactic(auto)]

mod marks;
mod state;

pub use marks::{put_marks, put_sent};
pub use state::put_state;

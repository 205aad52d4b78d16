// What the printing program makes of records and of a book, as lines in a buffer.
#![tactic(auto)]

mod answers;
mod custody;

pub use answers::{put_answers, put_block};
pub use custody::put_custody;

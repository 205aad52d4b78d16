// The settlement of marked trades, on a book of words: their movements, their rows, and the waiting list without them.
#![tactic(auto)]

mod booking;
mod leaving;
mod postings;

pub use booking::book_marked;
pub use leaving::leave_marked;
pub use postings::write_marked;

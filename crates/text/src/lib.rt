// Texts as bytes: a buffer that words and numbers are put into, a text cut at a mark.
#![tactic(auto)]

mod buffer;
mod parts;

pub use buffer::Buffer;
pub use parts::{end_of, part, put_part, same};

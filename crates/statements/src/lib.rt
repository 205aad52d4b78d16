// What a statement tells of records: the answer of each in words, and a line for each row that its call wrote.
#![tactic(auto)]

mod calls;

pub use calls::{Part, RECORD, put_part, put_record};

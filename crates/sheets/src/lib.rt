// The handover sheet of a book, in a buffer. Each function puts bytes behind those that were put.
#![tactic(auto)]

mod page;
mod sheet;

pub use sheet::{SHEET_BYTES, put_sheet};

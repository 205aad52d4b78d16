// A table that is read into a buffer, block after block: its first line, the lines that end in the buffer, and what is left of it.
#![tactic(auto)]

pub mod first;
pub mod lines;

use table::Refused;

// Bytes of the buffer, the last of which is kept for a line feed.
pub const INPUT: usize = 16384;

pub const BLOCK: usize = 16383;

// What comes behind the bytes that were read: maybe more, or nothing, as the file ended there.
#[derive(Clone, Copy)]
pub enum Rest {
    More,
    Ended,
}

// The lines in the buffer: the place of the first, and the bytes of the buffer that were read; what comes behind them; the number of the first line,
// and the first of the empty lines just before it.
#[derive(Clone, Copy)]
pub struct Reading {
    pub from: usize,
    pub size: usize,
    pub rest: Rest,
    pub line: u64,
    pub empty: Option<u64>,
}

// What lines came to that are not refused: the end of the file, with the number behind that of the last line; or the bytes at the buffer's start that
// are left, where more may follow, and the line that was reached.
#[derive(Clone, Copy)]
pub enum Next {
    Ended {
        line: u64,
    },
    More {
        held: usize,
        line: u64,
        empty: Option<u64>,
    },
}

// And the bytes of the records that were written.
#[derive(Clone, Copy)]
pub struct Converted {
    pub next: Result<Next, Refused>,
    pub wrote: usize,
}

// The first line of a table.
ghost use Rattle.std.specs.Prelude.{◌≡◌, ◌+◌, ◌≤◌, ◌<◌, length, drop};
ghost use Rattle.table_buffer.specs.declared.Rest.TheVariants.{More};
ghost use Rattle.table_buffer.specs.First.{Headed, FirstRead, NoLine};

use crate::Rest;
use cells::Kind;
use table::{Columns, Wrong};

// Where the line starts and ends, where the lines behind it start, and its columns.
#[derive(Clone, Copy)]
pub struct First {
    pub start: usize,
    pub end: usize,
    pub from: usize,
    pub columns: Result<Columns, Wrong>,
}

// There is no line, or none that ends.
fn no_line(kind: Kind, at: usize) -> First
    ensures { NoLine kind at result }
{
    let wrong = Wrong {
        kind,
        column: 0,
        place: 18,
    };
    First {
        start: at,
        end: at,
        from: at,
        columns: Err(wrong),
    }
}

// Where the next line starts.
fn behind(block: &[u8], end: usize) -> usize
    requires { end ≤ length block.now }
    ensures { (result ≤ length block.now) × (drop result block.now ≡ drop (end + 1) block.now) }
{
    if end < block.len() {
        return end + 1;
    }
    end
}

// The columns of a line.
fn headed(block: &[u8], start: usize, end: usize) -> First
    requires { (start ≤ end) × (end ≤ length block.now) }
    ensures { Headed block.now start end result }
{
    let from = behind(block, end);
    let columns = first_line::header(&block[start..end]);
    First {
        start,
        end,
        from,
        columns,
    }
}

// The first line of these bytes; where more may follow, it is too long if it does not end in them.
pub fn first_line(block: &[u8], rest: Rest) -> First
    requires { rest ≡ More → 3 < length block.now }
    ensures { FirstRead block.now rest result }
{
    let start = first_line::text_start(block);
    if start == block.len() {
        return no_line(Kind::NoHeader, start);
    }
    let end = text::end_of(block, start, b'\n');
    match rest {
        Rest::Ended => headed(block, start, end),
        Rest::More => {
            if end == block.len() {
                return no_line(Kind::LongLine, start);
            }
            headed(block, start, end)
        }
    }
}

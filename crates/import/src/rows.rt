// The lines of a table, block after block.
ghost use Rattle.std.specs.Prelude.{◌≡◌, ◌≤◌, length, take, MatchResult};
ghost use Rattle.table_buffer.specs.Buffers.{INPUT, BLOCK};
ghost use Rattle.table_buffer.specs.Blocks.{Given};
ghost use Rattle.import.specs.declared.Stop.TheVariants.{Failed};
ghost use Rattle.import.specs.Reading.{ReadOn, RowsRead, Comes};

use crate::{Stop, telling};
use std::io;
use streams::{Follows, Streams};
use table_buffer::{Next, Reading, Rest};

// More blocks, and more lines, than any file has.
const LAST: u64 = 1 << 62;

// Writes records to standard output where they are to be printed; false where it takes no more.
fn put(streams: Streams, bytes: &[u8], print: bool) -> bool {
    if !print {
        return true;
    }
    streams::print(streams, bytes, b"import: standard output cannot be written").is_ok()
}

// Converts the lines in the buffer, and writes their records. A refusal is told.
fn convert(
    streams: Streams,
    file: &[u8],
    input: &mut [u8],
    out: &mut [u8],
    places: &[usize],
    reading: Reading,
    print: bool,
) -> Result<Next, Stop>
    requires { (length file.now ≤ 4096) × Given places.now input.old out.old reading }
    ensures { Comes places.now reading input.old input.new result }
{
    let converted = table_buffer::lines::convert(input, out, places, reading);
    if !put(streams, &out[..converted.wrote], print) {
        return Err(Stop::Failed);
    }
    match converted.next {
        Ok(next) => Ok(next),
        Err(why) => Err(telling::refused(streams, file, b"", why)),
    }
}

// Reads on behind the bytes that are left at the buffer's start: these stay, where the read fails too.
pub fn read_on<F: io::Read>(
    from: &mut F,
    streams: Streams,
    file: &[u8],
    input: &mut [u8],
    held: usize,
    line: u64,
    empty: Option<u64>,
) -> Result<Reading, Stop>
    requires { (length input.old ≡ INPUT) × (held ≤ BLOCK) }
    ensures { MatchResult result (ReadOn input.old held line empty input.new) (λ stop. (stop ≡ Failed) × (take held input.new ≡ take held input.old)) }
{
    let filled = streams::fill(from, &mut input[held..16383], streams.error, file);
    let rest = match filled.follows {
        Follows::More => Rest::More,
        Follows::Ended => Rest::Ended,
        Follows::Failed => return Err(Stop::Failed),
    };
    Ok(Reading {
        from: 0,
        size: held + filled.size,
        rest,
        line,
        empty,
    })
}

// The lines in the buffer, then those of the next block, until the file ends: the number behind that of the last line.
pub fn rows<F: io::Read>(
    from: &mut F,
    streams: Streams,
    file: &[u8],
    input: &mut [u8],
    out: &mut [u8],
    places: &[usize],
    first: Reading,
    print: bool,
) -> Result<u64, Stop>
    requires { (length file.now ≤ 4096) × Given places.now input.old out.old first }
    ensures { RowsRead places.now input.old first result }
{
    let mut reading = first;
    for _turn in 0..LAST {
        if LAST <= reading.line {
            return Err(Stop::Failed);
        }
        match convert(streams, file, input, out, places, reading, print)? {
            Next::Ended { line } => return Ok(line),
            Next::More { held, line, empty } => {
                reading = read_on(from, streams, file, input, held, line, empty)?;
            }
        }
    }
    Err(Stop::Failed)
}

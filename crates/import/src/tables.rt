// A table: its first line, then the others.
ghost use Rattle.std.specs.Prelude.{◌≡◌, ◌≤◌, length};
ghost use Rattle.table_buffer.specs.Buffers.{INPUT, OUT};
ghost use Rattle.import.specs.Reading.{FileRead};

use crate::{Stop, rows, telling};
use std::io;
use streams::Streams;
use table::Refused;
use table_buffer::Reading;

// Reads the first bytes, and what follows them: the number behind that of the last line.
pub fn read_table<F: io::Read>(
    from: &mut F,
    streams: Streams,
    file: &[u8],
    input: &mut [u8],
    out: &mut [u8],
    print: bool,
) -> Result<u64, Stop>
    requires { (length file.now ≤ 4096) × (length input.old ≡ INPUT) × (length out.old ≡ OUT) }
    ensures { FileRead result }
{
    let reading = rows::read_on(from, streams, file, input, 0, 2, None)?;
    let first = table_buffer::first::first_line(&input[..reading.size], reading.rest);
    match first.columns {
        Err(wrong) => {
            let why = Refused { line: 1, wrong };
            Err(telling::refused(streams, file, &input[first.start..first.end], why))
        }
        Ok(columns) => {
            let behind = Reading {
                from: first.from,
                ..reading
            };
            rows::rows(
                from,
                streams,
                file,
                input,
                out,
                &columns.places[..columns.count],
                behind,
                print,
            )
        }
    }
}

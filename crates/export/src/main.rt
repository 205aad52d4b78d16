// Export: writes the records of standard input as a comma-separated table, every field under its name. What it cannot do it tells in one line on
// standard error.
#![tactic(auto)]

ghost use Rattle.std.specs.Prelude.{[], ◌≡◌, ◌+◌, ◌^◌, ◌≤◌, ◌<◌, length};
ghost use Rattle.export.specs.Written.{BLOCK, HALF, Emptied, BlockWritten, RecordsWritten, TableWritten};

use streams::{Follows, Streams, Told};
use text::Buffer;

// Bytes of a block of 80 records.
const BLOCK: usize = 3200;

// Bytes of the output buffer. The lines of a block fit half of it.
const OUT: usize = 262144;

// More records than any input has.
const LAST: usize = 1 << 63;

// Writes lines to standard output.
fn print(streams: Streams, lines: &[u8]) -> Result<(), Told> {
    streams::print(streams, lines, b"export: standard output cannot be written")
}

// Prints the lines in the buffer where those of another block might not fit behind them; they leave it then.
fn make_room(streams: Streams, out: &mut Buffer<OUT>) -> Result<(), Told>
    ensures { Emptied out.old out.new }
{
    if out.len() <= 131072 {
        return Ok(());
    }
    let printed = print(streams, out.bytes());
    out.clear();
    printed
}

// Reads a block and puts its lines behind those in the buffer; after a read that failed only those of the whole records before it. Tells what follows it.
fn put_block(
    streams: Streams,
    input: &mut [u8],
    out: &mut Buffer<OUT>,
    records: &mut usize,
) -> Follows
    requires { (length input.old ≡ BLOCK) × (length out.old ≤ HALF) × (records.old + 80 < 2 ^ 64) }
    ensures { BlockWritten input.new records.old out.old result records.new out.new }
{
    let filled = streams::fill_records(streams, input, b"export: standard input cannot be read");
    let size = filled.size;
    table_lines::put_records(out, &input[..size]);
    *records += size.div_ceil(40);
    filled.follows
}

// Block after block, behind the lines in the buffer.
fn put_records(streams: Streams, input: &mut [u8], out: &mut Buffer<OUT>, records: &mut usize)
    requires { length input.old ≡ BLOCK }
    ensures { RecordsWritten records.old out.old records.new out.new }
{
    // A `while`, since its test bounds the count of records, which a `for` over blocks would not.
    while *records < LAST {
        if make_room(streams, out).is_err() {
            return;
        }
        let Follows::More = put_block(streams, input, out, records) else {
            return;
        };
    }
}

// The first line, then the records' lines; what is left of them in the buffer is printed by the caller.
fn put_table(streams: Streams, input: &mut [u8], out: &mut Buffer<OUT>, records: &mut usize)
    requires { (length input.old ≡ BLOCK) × (out.old ≡ []) }
    ensures { TableWritten records.old records.new out.new }
{
    table_lines::put_names(out);
    put_records(streams, input, out, records);
}

fn main(rt: HostRuntime) {
    let streams = Streams::new(&rt);
    if streams::has_word(&rt, 1) {
        streams::tell(
            streams.error,
            b"export: takes no words on its command line; records come from standard input\n",
        );
        return;
    }
    let mut input = streams::zeros::<BLOCK>();
    let mut out = Buffer::<OUT>::new();
    let mut records: usize = 0;
    put_table(streams, &mut input, &mut out, &mut records);
    let _ = print(streams, out.bytes());
}

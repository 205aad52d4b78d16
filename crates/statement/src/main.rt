// The statement: calls the records of standard input one after the other on a fresh book, and prints for each its answer in words, then a line for
// each row that its call wrote. What it cannot do it tells in one line on standard error.
#![tactic(auto)]

ghost use Rattle.std.specs.Prelude.{[], ◌≡◌, ◌+◌, ◌^◌, ◌≤◌, ◌<◌, length, Ok};
ghost use Rattle.book.specs.Stored.{Kept};
ghost use Rattle.statement.specs.Read.{BLOCK, FileStated, BlockStated, FileRead};

use streams::{Follows, Streams, Told};
use text::Buffer;

// Bytes of a block of 1,024 records.
const BLOCK: usize = 40960;

// Bytes of the output buffer. The lines of one record fit a quarter of it.
const OUT: usize = 524288;

// More records than any input has.
const LAST: u64 = 1 << 63;

// Writes lines to standard output.
fn print(streams: Streams, lines: &[u8]) -> Result<(), Told> {
    streams::print(
        streams,
        lines,
        b"statement: standard output cannot be written",
    )
}

// Calls the records of a file, and puts their lines behind those in the buffer. The buffer is printed where the next record's lines might not fit.
fn state_file(
    streams: Streams,
    out: &mut Buffer<OUT>,
    number: &mut u64,
    book: &mut [u64],
    file: &[u8],
    area: &mut [u8],
) -> Result<(), Told>
    requires { Kept book.old × (length file.now ≤ BLOCK) × (number.old + 1024 < 2 ^ 64) }
    ensures { FileStated file.now (result ≡ Ok tt) number.old book.old area.old out.old number.new book.new area.new out.new }
{
    let mut rest = file;
    loop {
        let part = statements::put_part(out, *number, book, rest, area);
        *number = part.number;
        if rest.len() <= part.size {
            return Ok(());
        }
        let printed = print(streams, out.bytes());
        out.clear();
        if let Err(told) = printed {
            return Err(told);
        }
        rest = &rest[part.size..];
    }
}

// Reads a block and calls its records; after a read that failed only the whole records before it. Tells what follows the block.
fn state_block(
    streams: Streams,
    book: &mut [u64],
    area: &mut [u8],
    input: &mut [u8],
    out: &mut Buffer<OUT>,
    number: &mut u64,
) -> Result<Follows, Told>
    requires { Kept book.old × (length input.old ≡ BLOCK) × (number.old + 1024 < 2 ^ 64) }
    ensures { BlockStated input.new result number.old book.old area.old out.old number.new book.new area.new out.new }
{
    let filled = streams::fill_records(streams, input, b"statement: standard input cannot be read");
    let size = filled.size;
    state_file(streams, out, number, book, &input[..size], area)?;
    Ok(filled.follows)
}

// Block after block, from the record of that number on. What is left in the buffer at the end is printed.
fn run(
    streams: Streams,
    book: &mut [u64],
    area: &mut [u8],
    input: &mut [u8],
    out: &mut Buffer<OUT>,
    number: &mut u64,
)
    requires { Kept book.old × (length input.old ≡ BLOCK) × (out.old ≡ []) }
    ensures { FileRead number.old book.old area.old number.new book.new area.new out.new }
{
    // A `while`, since its test bounds the numbers of records, which a `for` over blocks would not.
    while *number < LAST {
        let Ok(Follows::More) = state_block(streams, book, area, input, out, number) else {
            let _ = print(streams, out.bytes());
            return;
        };
    }
    let _ = print(streams, out.bytes());
}

fn main(rt: HostRuntime) {
    let streams = Streams::new(&rt);
    if streams::has_word(&rt, 1) {
        streams::tell(
            streams.error,
            b"statement: takes no words on its command line; records come from standard input\n",
        );
        return;
    }
    let mut book = [0u64; ledger::BOOK_WORDS];
    let mut area = [0u8; 4096];
    let mut input = streams::zeros::<BLOCK>();
    let mut out = Buffer::<OUT>::new();
    let mut number: u64 = 1;
    if ledger::fresh(&mut book) {
        run(
            streams,
            &mut book,
            &mut area,
            &mut input,
            &mut out,
            &mut number,
        );
    }
}

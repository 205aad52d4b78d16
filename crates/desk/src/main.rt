// The printing program: calls the records of standard input one after the other on a fresh book, and prints a line for each, then a line for each
// security. What it cannot do it tells in one line on standard error.
#![tactic(auto)]

ghost use Rattle.std.specs.Prelude.{[], ◌≡◌, ◌+◌, ◌^◌, ◌≤◌, ◌<◌, length};
ghost use Rattle.book.specs.Meaning.{ledger_of};
ghost use Rattle.book.specs.Stored.{Kept};
ghost use Rattle.printing.specs.Printed.{lent, BlockPut, custody_lines};
ghost use Rattle.desk.specs.Printed.{BLOCK, ReadAndCalled, FileRead};

use streams::{Follows, Streams, Told};
use text::Buffer;

// Bytes of a block of 1,024 records, whose lines fit the output buffer.
const BLOCK: usize = 40960;

// Bytes of the output buffer.
const OUT: usize = 65536;

// More records than any input has.
const LAST: u64 = 1 << 63;

// Prints lines to standard output.
fn print(streams: Streams, lines: &[u8]) -> Result<(), Told> {
    streams::print(streams, lines, b"desk: standard output cannot be written")
}

// Prints the answer lines of a block, in one piece.
fn print_answers(
    streams: Streams,
    out: &mut Buffer<OUT>,
    number: &mut u64,
    book: &mut [u64],
    block: &[u8],
    area: &mut [u8],
) -> Result<(), Told>
    requires { Kept book.old × (length block.now ≤ BLOCK) × (number.old + 1024 < 2 ^ 64) }
    ensures { BlockPut block.now number.old (lent book.old area.old []) number.new (lent book.new area.new out.new) }
{
    out.clear();
    printing::put_block(out, number, book, block, area);
    print(streams, out.bytes())
}

// Prints the custody lines of a book.
fn print_custody(streams: Streams, out: &mut Buffer<OUT>, book: &[u64]) -> Result<(), Told>
    requires { Kept book.now }
    ensures { out.new ≡ custody_lines (ledger_of book.now).holdings }
{
    out.clear();
    printing::put_custody(out, book);
    print(streams, out.bytes())
}

// Reads a block, calls its records and prints what they answer; tells what follows it. Where the input ends, the custody lines follow; after a read
// that failed only the whole records before it are called.
fn print_block(
    streams: Streams,
    book: &mut [u64],
    area: &mut [u8],
    input: &mut [u8],
    out: &mut Buffer<OUT>,
    number: &mut u64,
) -> Result<Follows, Told>
    requires { Kept book.old × (length input.old ≡ BLOCK) × (number.old + 1024 < 2 ^ 64) }
    ensures { ReadAndCalled input.new result number.old book.old area.old number.new book.new
        area.new }
{
    let filled = streams::fill_records(streams, input, b"desk: standard input cannot be read");
    print_answers(streams, out, number, book, &input[..filled.size], area)?;
    if filled.follows == Follows::Ended {
        print_custody(streams, out, book)?;
    }
    Ok(filled.follows)
}

// Block after block, from the record of that number on.
fn run(
    streams: Streams,
    book: &mut [u64],
    area: &mut [u8],
    input: &mut [u8],
    out: &mut Buffer<OUT>,
    number: &mut u64,
)
    requires { Kept book.old × (length input.old ≡ BLOCK) }
    ensures { FileRead number.old book.old area.old number.new book.new area.new }
{
    // A `while`, since its test bounds the numbers of records, which a `for` over blocks would not.
    while *number < LAST {
        let Ok(Follows::More) = print_block(streams, book, area, input, out, number) else {
            return;
        };
    }
}

fn main(rt: HostRuntime) {
    let streams = Streams::new(&rt);
    if streams::has_word(&rt, 1) {
        streams::tell(
            streams.error,
            b"desk: takes no words on its command line; records come from standard input\n",
        );
        return;
    }
    let mut book = [0u64; ledger::BOOK_WORDS];
    let mut area = [0u8; 4096];
    let mut input = streams::zeros::<BLOCK>();
    let mut out = Buffer::<OUT>::new();
    let mut number: u64 = 1;
    if ledger::fresh(&mut book) {
        run(
            streams,
            &mut book,
            &mut area,
            &mut input,
            &mut out,
            &mut number,
        );
    }
}

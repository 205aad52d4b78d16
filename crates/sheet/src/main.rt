// The handover sheet: calls the records of standard input one after the other on a fresh book, and prints the book that they lead to; with the word
// `html` as a page. What it cannot do it tells in one line on standard error.
#![tactic(auto)]

ghost use Rattle.std.specs.Prelude.{◌≡◌, ◌+◌, ◌^◌, ◌<◌, length};
ghost use Rattle.book.specs.Meaning.{ledger_of};
ghost use Rattle.book.specs.Stored.{Kept};
ghost use Rattle.sheet.specs.HandedOver.{BLOCK, BlockCalled, FileRead, HandedOver};
ghost use Rattle.sheets.specs.Sheet.{sheet_of};

use std::rt::Env;
use streams::{Follows, Streams};
use text::Buffer;

// Bytes of a block of 1,024 records.
const BLOCK: usize = 40960;

// Bytes of the output buffer, which holds every sheet.
const OUT: usize = sheets::SHEET_BYTES;

// More records than any input has.
const LAST: u64 = 1 << 63;

// Reads a block and calls its records; tells what follows it. Their lines are left unprinted in the output buffer.
fn call_block(
    streams: Streams,
    book: &mut [u64],
    area: &mut [u8],
    input: &mut [u8],
    out: &mut Buffer<OUT>,
    number: &mut u64,
) -> Follows
    requires { Kept book.old × (length input.old ≡ BLOCK) × (number.old + 1024 < 2 ^ 64) }
    ensures { BlockCalled input.new result number.old book.old area.old number.new book.new
        area.new }
{
    let filled = streams::fill_records(streams, input, b"sheet: standard input cannot be read");
    out.clear();
    printing::put_block(out, number, book, &input[..filled.size], area);
    filled.follows
}

// Block after block, from the record of that number on; true where the input ended.
fn call_all(
    streams: Streams,
    book: &mut [u64],
    area: &mut [u8],
    input: &mut [u8],
    out: &mut Buffer<OUT>,
    number: &mut u64,
) -> bool
    requires { Kept book.old × (length input.old ≡ BLOCK) }
    ensures { FileRead number.old book.old area.old number.new book.new area.new }
{
    // A `while`, since its test bounds the numbers of records, which a `for` over blocks would not.
    while *number < LAST {
        match call_block(streams, book, area, input, out, number) {
            Follows::More => (),
            Follows::Ended => return true,
            Follows::Failed => return false,
        }
    }
    false
}

// Prints the sheet of a book.
fn print_sheet(streams: Streams, out: &mut Buffer<OUT>, page: bool, book: &[u64])
    requires { Kept book.now }
    ensures { out.new ≡ sheet_of page (ledger_of book.now) }
{
    out.clear();
    sheets::put_sheet(out, page, book);
    let _ = streams::print(
        streams,
        out.bytes(),
        b"sheet: standard output cannot be written",
    );
}

// Calls all records, and prints the sheet where the input ended; after a read that failed nothing is printed.
fn hand_over(
    streams: Streams,
    page: bool,
    book: &mut [u64],
    area: &mut [u8],
    input: &mut [u8],
    out: &mut Buffer<OUT>,
    number: &mut u64,
) -> bool
    requires { Kept book.old × (length input.old ≡ BLOCK) }
    ensures { HandedOver page result number.old book.old area.old number.new book.new area.new
        out.new }
{
    let ended = call_all(streams, book, area, input, out, number);
    if ended {
        print_sheet(streams, out, page, book);
    }
    ended
}

// Whether a page is asked for, by the word `html`, or text, by no word. Other words ask for nothing that there is.
fn asked_for(words: &impl Env) -> Option<bool> {
    if !streams::has_word(words, 1) {
        return Some(false);
    }
    if streams::has_word(words, 2) {
        return None;
    }
    let mut word = [0u8; 5];
    match words.arg(1, &mut word) {
        Ok(size) if &word[..size] == b"html".as_slice() => Some(true),
        _ => None,
    }
}

fn run(streams: Streams, page: bool) {
    let mut book = [0u64; ledger::BOOK_WORDS];
    let mut area = [0u8; 4096];
    let mut input = streams::zeros::<BLOCK>();
    let mut out = Buffer::<OUT>::new();
    let mut number: u64 = 1;
    if ledger::fresh(&mut book) {
        hand_over(
            streams,
            page,
            &mut book,
            &mut area,
            &mut input,
            &mut out,
            &mut number,
        );
    }
}

fn main(rt: HostRuntime) {
    let streams = Streams::new(&rt);
    match asked_for(&rt) {
        Some(page) => run(streams, page),
        None => {
            streams::tell(
                streams.error,
                b"sheet: takes no word, or the word html, on its command line; records come from standard input\n",
            );
        }
    }
}

// The answer lines of the records of a file.
ghost use Rattle.std.specs.Prelude.{◌++◌, ◌≡◌, ◌∷◌, [], ◌+◌, ◌*◌, ◌^◌, ◌≤◌, ◌<◌, length};
ghost use Rattle.book.specs.Stored.{Kept};
ghost use Rattle.file.specs.Records.{records_of};
ghost use Rattle.printing.specs.Printed.{lent, Answered, BlockPut};

use text::Buffer;

// One record is called, and its line put.
fn put_answer<const N: usize>(
    out: &mut Buffer<N>,
    number: u64,
    book: &mut [u64],
    octets: &[u8],
    area: &mut [u8],
)
    requires { Kept book.old × (length out.old + 63 ≤ N) }
    ensures answered { Answered number (octets.now ∷ []) (lent book.old area.old out.old)
        (lent book.new area.new out.new) }
    ensures upper_bound { length out.new ≤ length out.old + 63 }
{
    let answer = ledger::call(book, octets, area);
    lines::put_answer_line(out, number, answer);
}

// The records of a file are called in their order. A line has at most 63 bytes.
pub fn put_answers<const N: usize>(
    out: &mut Buffer<N>,
    number: u64,
    book: &mut [u64],
    file: &[u8],
    area: &mut [u8],
)
    requires { Kept book.old × (length out.old + 63 * length (records_of file.now) ≤ N) × (number + length (records_of file.now) < 2 ^ 64) }
    ensures { Answered number (records_of file.now) (lent book.old area.old out.old)
        (lent book.new area.new out.new) }
{
    let mut n = number;
    for octets in file::records(file) {
        put_answer(out, n, book, octets, area);
        n += 1;
    }
}

// The records of a block are called, and their lines put. The first record's number moves on to that of the record behind the block.
pub fn put_block<const N: usize>(
    out: &mut Buffer<N>,
    number: &mut u64,
    book: &mut [u64],
    block: &[u8],
    area: &mut [u8],
)
    requires { Kept book.old × (length out.old + 65536 ≤ N) × (length block.now ≤ 40960) × (number.old + 1024 < 2 ^ 64) }
    ensures { BlockPut block.now number.old (lent book.old area.old out.old)
        number.new (lent book.new area.new out.new) }
{
    put_answers(out, *number, book, block, area);
    *number += (block.len() as u64).div_ceil(40);
}

// Records called one after the other, and their lines.
ghost use Rattle.std.specs.Prelude.{◌++◌, Bool, ◌∷◌, [], ◌≡◌, ◌+◌, ◌*◌, ◌^◌, ◌≤◌, ◌<◌, length};
ghost use Rattle.rulebook.specs.Call.{answer_rows};
ghost use Rattle.rulebook.specs.Forms.{row_of};
ghost use Rattle.rulebook.specs.Record.{read_of};
ghost use Rattle.book.specs.Stored.{Kept};
ghost use Rattle.file.specs.Records.{records_of};
ghost use Rattle.printing.specs.Printed.{lent};
ghost use Rattle.statements.specs.Stated.{form_in, RECORD, Stated, PartPut};

use rulebook::{Counts, Refusal};
use text::Buffer;

// More bytes than the lines of one record: 512 for its answer, and 512 for each of 256 rows.
pub const RECORD: usize = 131584;

// The first records of a file, as many as were called: how many bytes they have, and the number of the next.
#[derive(Clone, Copy)]
pub struct Part {
    pub size: usize,
    pub number: u64,
}

// The form of a record that reads, or 0.
#[tactic(auto, unfolding(crate::specs::Stated::form_in))]
fn form_of(record: &[u8]) -> u64
    ensures { result ≡ form_in (read_of «record».now) }
{
    record::read(record).map_or(0, |order| order.form)
}

// Whether a form writes posting rows: cancel and close write notices.
fn posts(form: u64) -> bool
    ensures { result ≡ (row_of form).posts }
{
    match form {
        15 => false,
        17 => false,
        _ => true,
    }
}

#[tactic(auto, unfolding(rulebook::specs::Call::answer_rows))]
fn rows_of(answer: Result<Counts, Refusal>) -> usize
    ensures { result ≡ answer_rows answer }
{
    answer.map_or(0, |counts| counts.rows as usize)
}

// One record is called, and its lines put: its answer, then the rows that the call wrote.
pub fn put_record<const N: usize>(
    out: &mut Buffer<N>,
    number: u64,
    book: &mut [u64],
    octets: &[u8],
    area: &mut [u8],
)
    requires { Kept book.old × (length out.old + RECORD ≤ N) }
    ensures stated { Stated number (octets.now ∷ []) (lent book.old area.old out.old)
        (lent book.new area.new out.new) }
    ensures upper_bound { length out.new ≤ length out.old + RECORD }
{
    let answer = ledger::call(book, octets, area);
    let form = form_of(octets);
    statement_lines::put_answer(out, number, form, answer);
    statement_lines::put_rows(out, posts(form), rows_of(answer), area);
}

// The records of a file are called, until it ends or the next one's lines might not fit.
pub fn put_part<const N: usize>(
    out: &mut Buffer<N>,
    number: u64,
    book: &mut [u64],
    file: &[u8],
    area: &mut [u8],
) -> Part
    requires { Kept book.old × (number + length (records_of file.now) < 2 ^ 64) }
    ensures { PartPut N file.now number (lent book.old area.old out.old) result
        (lent book.new area.new out.new) }
{
    let mut part = Part { size: 0, number };
    for octets in file::records(file) {
        if N - out.len() < RECORD {
            break;
        }
        put_record(out, part.number, book, octets, area);
        part.size += octets.len();
        part.number += 1;
    }
    part
}

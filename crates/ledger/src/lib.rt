// The depository ledger: a fresh book, and one call.
#![tactic(auto)]

ghost use Rattle.book.specs.Stored.{Kept};
ghost use Rattle.book.specs.Fresh.{Freshened};
ghost use Rattle.ledger.specs.Called.{Called};

use rulebook::{Counts, Refusal};

// How many words a book has.
pub const BOOK_WORDS: usize = book::WORDS;

// A fresh book, in a buffer of `BOOK_WORDS` words. The answer says whether the buffer has that length; another one is left as it is.
pub fn fresh(book: &mut [u64]) -> bool
    ensures { Freshened book.old result book.new }
{
    book::fresh(book)
}

// One call: a record and a lent area, on a book.
pub fn call(book: &mut [u64], record: &[u8], area: &mut [u8]) -> Result<Counts, Refusal>
    requires { Kept book.old }
    ensures { Called book.old «record».now area.old result book.new area.new }
{
    if area.len() < 4096 {
        return Err(Refusal::ShortArea);
    }
    let order = record::read(record)?;
    refusals::check(book, order)?;
    let counts = effects::handle(book, order, area);
    day::put_minute(book, order.minute);
    Ok(counts)
}

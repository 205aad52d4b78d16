// Form 1, on a book of words, and the minute that every accepted call sets.
#![tactic(auto)]

ghost use Rattle.std.specs.Prelude.{◌≡◌, List, ℕ};
ghost use Rattle.rulebook.specs.Forms.{open_day};
ghost use Rattle.rulebook.specs.Call.{put_minute};
ghost use Rattle.book.specs.Meaning.{ledger_of};
ghost use Rattle.book.specs.Stored.{Stored, Becomes};
ghost use Rattle.book.specs.Handled.{Handled};
ghost use Rattle.checking.specs.Given.{Given};

use rulebook::{Counts, Order};

// 1. The next day, of the kind that the order names, with no cycle run yet.
pub fn open_day(book: &mut [u64], order: Order) -> Counts
    requires { Given book.old order × (order.form ≡ 1) }
    ensures { (area : List ℕ) → Handled (open_day (ledger_of book.old) order) book.new area area result }
{
    let mut day = book::day(book);
    day.number = day.number + 1;
    day.opened = true;
    day.kind = order.quantity.0;
    day.cycles = 0;
    book::put_day(book, day);
    rows::no_counts()
}

// The minute of a call that was accepted becomes the book's last one.
pub fn put_minute(book: &mut [u64], minute: u64)
    requires { Stored book.old }
    ensures { Becomes (put_minute minute) book.old book.new }
{
    let mut day = book::day(book);
    day.minute = minute;
    book::put_day(book, day);
}

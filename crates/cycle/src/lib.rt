// Form 16, on a book of words: a cycle is sent.
#![tactic(auto)]

ghost use Rattle.std.specs.Prelude.{List, ◌≡◌, ℕ, ◌-◌, ◌^◌, ◌≤◌, ◌<◌};
ghost use Rattle.rulebook.specs.Ledger.{put_day, cycle_sent};
ghost use Rattle.rulebook.specs.Forms.{counts, cycle};
ghost use Rattle.rulebook.specs.declared.Order.{Order};
ghost use Rattle.book.specs.Meaning.{ledger_of};
ghost use Rattle.book.specs.Stored.{Stored, Kept, Becomes};
ghost use Rattle.book.specs.Handled.{Handled};
ghost use Rattle.marks.specs.Marks.{is_on, count_on};

use netting::Selection;
use rulebook::Counts;

// From now on a cycle is sent. It counts as run, whatever is answered.
fn put_sent(book: &mut [u64])
    requires { Stored book.old × ((ledger_of book.old).day.cycles < 2 ^ 63) }
    ensures { Becomes (λ b. put_day (cycle_sent b.day) b) book.old book.new }
{
    let mut day = book::day(book);
    day.cycles += 1;
    day.sent = true;
    book::put_day(book, day);
}

// A trade that is due and is not fixed is left.
fn counts_of(selection: Selection, n: usize) -> Counts
    requires { (n ≤ 64) × (count_on (is_on selection.fixed) n ≤ count_on (is_on selection.due) n) }
    ensures { result ≡ counts 0 0 0 0 0 (count_on (is_on selection.due) n - count_on (is_on selection.fixed) n) }
{
    let fixed = marks::count(selection.fixed, n);
    let due = marks::count(selection.due, n);
    Counts {
        left: due - fixed,
        ..rows::no_counts()
    }
}

// RULES 6.16: what is due is fixed but for what does not fit. Nothing is booked, and no row is written.
pub fn send(book: &mut [u64]) -> Counts
    requires { Kept book.old }
    ensures { (order : Order) (area : List ℕ) → Handled (cycle (ledger_of book.old) order) book.new area area result }
{
    let n = book_items::items(book);
    let selection = netting::select(book);
    fixing::fix(book, selection.fixed);
    put_sent(book);
    counts_of(selection, n)
}

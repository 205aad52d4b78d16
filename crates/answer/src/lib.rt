// Form 21, on a book of words: the cycle that is sent is confirmed or declined.
#![tactic(auto)]

ghost use Rattle.std.specs.Prelude.{List, ◌≡◌, ℕ, ◌*◌, ◌≤◌, length};
ghost use Rattle.rulebook.specs.Ledger.{put_day, cycle_answered};
ghost use Rattle.rulebook.specs.Forms.{counts, confirm, decline, answer_cycle};
ghost use Rattle.book.specs.Meaning.{ledger_of};
ghost use Rattle.book.specs.Stored.{Stored, Kept, Becomes};
ghost use Rattle.book.specs.Handled.{Handled};
ghost use Rattle.marks.specs.Marks.{is_on, count_on};

use marks::Marks;
use rulebook::{Counts, Order};

// No cycle is sent any more. It stays among those that have run.
fn put_answered(book: &mut [u64])
    requires { Stored book.old }
    ensures { Becomes (λ b. put_day (cycle_answered b.day) b) book.old book.new }
{
    let mut day = book::day(book);
    day.sent = false;
    book::put_day(book, day);
}

// Each settled trade has four rows and two sides.
fn counts_of(settled: Marks, n: usize) -> Counts
    requires { n ≤ 64 }
    ensures { result ≡ counts (4 * count_on (is_on settled) n) (2 * count_on (is_on settled) n) 0 0 0 0 }
{
    let number = marks::count(settled, n);
    Counts {
        rows: 4 * number,
        settled: 2 * number,
        ..rows::no_counts()
    }
}

// RULES 9.20: the fixed trades settle, whatever came since the cycle was sent, and their rows stand in the area.
fn confirm_cycle(book: &mut [u64], area: &mut [u8]) -> Counts
    requires { Kept book.old × (4096 ≤ length area.old) }
    ensures { Handled (confirm (ledger_of book.old)) book.new area.old area.new result }
{
    let n = book_items::items(book);
    let settled = fixing::fixed_marks(book);
    settlement::write_marked(area, book, settled);
    settlement::book_marked(book, settled);
    settlement::leave_marked(book, settled);
    put_answered(book);
    counts_of(settled, n)
}

// RULES 9.21: none does, and they wait on at their places.
fn decline_cycle(book: &mut [u64]) -> Counts
    requires { Kept book.old }
    ensures { (area : List ℕ) → Handled (decline (ledger_of book.old)) book.new area area result }
{
    fixing::fix(book, 0);
    put_answered(book);
    rows::no_counts()
}

// RULES 6.21: the quantity is the answer.
pub fn answer_cycle(book: &mut [u64], order: Order, area: &mut [u8]) -> Counts
    requires { Kept book.old × (4096 ≤ length area.old) }
    ensures { Handled (answer_cycle (ledger_of book.old) order) book.new area.old area.new result }
{
    if order.quantity.0 == 1 {
        return confirm_cycle(book, area);
    }
    decline_cycle(book)
}

// Which waiting items a sent cycle has fixed: its marks, put onto the items and read from them, so that they go with the items wherever their places are.
#![tactic(auto)]

ghost use Rattle.std.specs.Prelude.{◌≡◌, ◌≤◌, length};
ghost use Rattle.book.specs.Meaning.{waiting_of};
ghost use Rattle.book.specs.Stored.{Stored, WaitingBecomes};
ghost use Rattle.marks.specs.Marks.{marked_of};
ghost use Rattle.fixing.specs.Borne.{bearing, borne};

use marks::Marks;

// RULES 9.19: the marked items are fixed from now on, and no others.
pub fn fix(book: &mut [u64], marks: Marks)
    requires { Stored book.old × (length (waiting_of book.old) ≤ 64) }
    ensures { WaitingBecomes (λ items. bearing (marked_of marks items)) book.old book.new }
{
    let n = book_items::items(book);
    for i in 0..n {
        book_items::put_sent(book, i, marks::is_on(marks, i));
    }
}

// The items that are fixed, by their marks.
pub fn fixed_marks(book: &[u64]) -> Marks
    requires { Stored book.now × (length (waiting_of book.now) ≤ 64) }
    ensures { marked_of result (waiting_of book.now) ≡ borne (waiting_of book.now) }
{
    marks::on_each(book_items::items(book), |i| book_items::is_sent(book, i))
}

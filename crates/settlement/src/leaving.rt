// The waiting list without the settled trades.
ghost use Rattle.std.specs.Prelude.{◌≤◌, length};
ghost use Rattle.book.specs.Meaning.{waiting_of};
ghost use Rattle.book.specs.Stored.{Stored, WaitingBecomes};
ghost use Rattle.marks.specs.Marks.{without_mark, marked_of};

use marks::Marks;

// The items without a mark stay, in their order.
pub fn leave_marked(book: &mut [u64], marks: Marks)
    requires { Stored book.old × (length (waiting_of book.old) ≤ 64) }
    ensures { WaitingBecomes (λ items. without_mark (marked_of marks items)) book.old book.new }
{
    let n = book_items::items(book);
    let mut j: usize = 0;
    for i in 0..n {
        if !marks::is_on(marks, i) {
            let item = book_items::item_at(book, i);
            book_items::put_item(book, j, item);
            j += 1;
        }
    }
    book_items::keep_first(book, j);
}

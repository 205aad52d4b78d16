// Form 17, on a book of words: the items that leave at the end of a day, and the day closed.
#![tactic(auto)]

ghost use Rattle.std.specs.Prelude.{◌≡◌, ◌≤◌, length};
ghost use Rattle.rulebook.specs.Forms.{close};
ghost use Rattle.book.specs.Meaning.{ledger_of};
ghost use Rattle.book.specs.Stored.{Kept};
ghost use Rattle.book.specs.Handled.{Handled};
ghost use Rattle.checking.specs.Given.{Accepted};
ghost use Rattle.closing.specs.Closing.{CanCount, counted_one, items_closed};

use rulebook::{Counts, Order, State};

// One item more that leaves: its notice, and its sides among those deleted or suspended.
fn count_leaving(counted: Counts, kind: u64, state: State) -> Counts
    requires { CanCount counted }
    ensures { result ≡ counted_one counted kind state }
{
    let sides = item::sides_of(state);
    let rows = counted.rows + 1;
    if kind == 3 {
        Counts {
            rows,
            suspended: counted.suspended + sides,
            ..counted
        }
    } else {
        Counts {
            rows,
            deleted: counted.deleted + sides,
            ..counted
        }
    }
}

// In list order: an item that leaves gets its notice, behind the one before; one that stays moves up, unmarked.
fn close_items(book: &mut [u64], number: u64, area: &mut [u8]) -> Counts
    requires { Kept book.old × (4096 ≤ length area.old) }
    ensures { Handled (items_closed number (ledger_of book.old)) book.new area.old area.new result }
{
    let n = book_items::items(book);
    let mut counted = rows::no_counts();
    let mut j: usize = 0;
    for i in 0..n {
        let item = book_items::item_at(book, i);
        let kind = item::close_kind(number, item);
        if kind == 0 {
            book_items::put_item(book, j, item::unmark(item));
            j += 1;
        } else {
            let state = item.state;
            let at = 16 * (counted.rows as usize);
            rows::write_notice(&mut area[at..], kind, item);
            counted = count_leaving(counted, kind, state);
        }
    }
    book_items::keep_first(book, j);
    counted
}

// 17. Close, in list order; then the day is closed. It uses no field of its order.
pub fn close(book: &mut [u64], order: Order, area: &mut [u8]) -> Counts
    requires { Accepted book.old order area.old × (order.form ≡ 17) }
    ensures { Handled (close (ledger_of book.old) order) book.new area.old area.new result }
{
    let mut day = book::day(book);
    let counted = close_items(book, day.number, area);
    day.opened = false;
    book::put_day(book, day);
    counted
}

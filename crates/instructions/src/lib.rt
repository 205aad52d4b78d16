// Forms 12 to 15 and 18, on a book of words: instructions and their matching, exchange trades, cancels, the rate that matching goes by.
// A form that writes no row is lent no area: what it does is said of any area, which stays as it is.
#![tactic(auto)]

ghost use Rattle.std.specs.Prelude.{◌≡◌, true, List, [], ◌∷◌, ℕ};
ghost use Rattle.plain.specs.Lists.{◌one_of◌};
ghost use Rattle.rulebook.specs.Forms.{instruct, trade, cancel, set_rate};
ghost use Rattle.book.specs.Meaning.{ledger_of};
ghost use Rattle.book.specs.Handled.{Handled};
ghost use Rattle.checking.specs.Given.{Given, Accepted};
ghost use Rattle.instructions.specs.Paired.{paired};

use rulebook::{Counts, Item, Order, Rate, State};

// ---- matching

// The pair of an arriving single with the one that waits.
fn pair_of(arriving: Item, waits: Item) -> Item
    ensures { result ≡ paired arriving waits }
{
    let state = waits.state;
    if item::is_deliver(state) {
        return matching::pair_up(waits, arriving);
    }
    matching::pair_up(arriving, waits)
}

// 12 and 13. Where a partner waits it leaves its place, and the two are one pair at the end of the list; else the single waits there.
pub fn instruct(book: &mut [u64], order: Order) -> Counts
    requires { Given book.old order × ((order.form one_of (12 ∷ 13 ∷ [])) ≡ true) }
    ensures { (area : List ℕ) → Handled (instruct (ledger_of book.old) order) book.new area area result }
{
    let arriving = item::single_of(order);
    let found = search::first_partner(book, arriving);
    match found {
        Some(i) => {
            let waits = book_items::item_at(book, i);
            book_items::remove(book, i);
            book_items::push(book, pair_of(arriving, waits));
            rows::no_counts()
        }
        None => {
            book_items::push(book, arriving);
            rows::no_counts()
        }
    }
}

// ---- exchange trades

// 14. An exchange trade goes last.
pub fn trade(book: &mut [u64], order: Order) -> Counts
    requires { Given book.old order × (order.form ≡ 14) }
    ensures { (area : List ℕ) → Handled (trade (ledger_of book.old) order) book.new area area result }
{
    let reference = order.reference;
    let state = State::Trade { reference };
    book_items::push(book, item::item_of(state, order));
    rows::no_counts()
}

// ---- cancels

// 15. A mark on the half of the one who cancels; with both marks the pair leaves, and a notice tells it.
pub fn cancel(book: &mut [u64], order: Order, area: &mut [u8]) -> Counts
    requires { Accepted book.old order area.old × (order.form ≡ 15) }
    ensures { Handled (cancel (ledger_of book.old) order) book.new area.old area.new result }
{
    let sender = item::sender_of(order);
    let found = search::first_sent(book, sender, order.reference);
    // refusal 14 does not apply: there is one
    let Some(i) = found else {
        return rows::no_counts();
    };
    let item = item::mark(sender, book_items::item_at(book, i));
    let state = item.state;
    if item::both_marked(state) {
        book_items::remove(book, i);
        rows::write_notice(area, 4, item);
        let mut counts = rows::no_counts();
        counts.rows = 1;
        counts.cancelled = 2;
        return counts;
    }
    book_items::put_item(book, i, item);
    rows::no_counts()
}

// ---- the rate

// 18. The quantity is the rate from now on. What waits stays as it is.
pub fn set_rate(book: &mut [u64], order: Order) -> Counts
    requires { Given book.old order × (order.form ≡ 18) }
    ensures { (area : List ℕ) → Handled (set_rate (ledger_of book.old) order) book.new area area result }
{
    book::put_rate(book, Rate(order.quantity.0));
    rows::no_counts()
}

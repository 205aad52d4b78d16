// The marked trades' movements: all credits, then all debits, so that nothing passes below zero.
ghost use Rattle.std.specs.Prelude.{◌∷◌, []};
ghost use Rattle.rulebook.specs.Movements.{credits, debits, booked};
ghost use Rattle.rulebook.specs.Shortfall.{NothingShort};
ghost use Rattle.rulebook.specs.Cycle.{legs};
ghost use Rattle.book.specs.Meaning.{ledger_of, holdings_of, waiting_of};
ghost use Rattle.book.specs.Stored.{Stored, HoldingsBecome};
ghost use Rattle.marks.specs.Marks.{with_mark, marked_of};
ghost use Rattle.legs.specs.Ready.{Ready};
ghost use Rattle.settlement.specs.Booking.{CanCredit, CanDebit, Covered};

use marks::Marks;
use rulebook::Item;

// What a trade brings: shares to the buyer's account, cash to the seller.
fn credit_trade(book: &mut [u64], trade: Item)
    requires { Stored book.old × CanCredit trade (holdings_of book.old) }
    ensures { HoldingsBecome (credits (legs (trade ∷ []))) book.old book.new }
{
    book_holdings::credit(book, parties::buyer_of(trade), trade.quantity);
    book_holdings::credit_cash(book, trade.debited.member, trade.currency, trade.amount);
}

// What a trade takes: shares from the seller's account, cash from the buyer.
fn debit_trade(book: &mut [u64], trade: Item)
    requires { Stored book.old × CanDebit trade (holdings_of book.old) }
    ensures { HoldingsBecome (debits (legs (trade ∷ []))) book.old book.new }
{
    book_holdings::debit(book, parties::seller_of(trade), trade.quantity);
    book_holdings::debit_cash(book, trade.credited.member, trade.currency, trade.amount);
}

// What the marked trades bring.
fn credit_marked(book: &mut [u64], marks: Marks)
    requires { Stored book.old × Ready (ledger_of book.old) }
    ensures { HoldingsBecome (credits (legs (with_mark (marked_of marks (waiting_of book.old))))) book.old book.new }
{
    let n = book_items::items(book);
    for i in 0..n {
        if marks::is_on(marks, i) {
            let trade = book_items::item_at(book, i);
            credit_trade(book, trade);
        }
    }
}

// What the marked trades take.
fn debit_marked(book: &mut [u64], marks: Marks)
    requires { Stored book.old × Covered (ledger_of book.old) (marked_of marks (waiting_of book.old)) }
    ensures { HoldingsBecome (debits (legs (with_mark (marked_of marks (waiting_of book.old))))) book.old book.new }
{
    let n = book_items::items(book);
    for i in 0..n {
        if marks::is_on(marks, i) {
            let trade = book_items::item_at(book, i);
            debit_trade(book, trade);
        }
    }
}

// The marked trades settle.
pub fn book_marked(book: &mut [u64], marks: Marks)
    requires { Stored book.old × Ready (ledger_of book.old) × NothingShort (holdings_of book.old) (with_mark (marked_of marks (waiting_of book.old))) }
    ensures { HoldingsBecome (booked (legs (with_mark (marked_of marks (waiting_of book.old))))) book.old book.new }
{
    credit_marked(book, marks);
    debit_marked(book, marks);
}

// Refusals 14, 15 and 24: what the order says of an item that waits.
#![tactic(auto)]

ghost use Rattle.std.specs.Prelude.{◌≡◌};
ghost use Rattle.plain.specs.Lists.{first};
ghost use Rattle.rulebook.specs.Answers.{number_in};
ghost use Rattle.rulebook.specs.Refusals.{wrong_reference, wrong_cancel, cancels_sent, item_tests};
ghost use Rattle.book.specs.Meaning.{ledger_of};
ghost use Rattle.book.specs.Stored.{Stored, Kept};

use rulebook::{Order, Refusal};

// RULES 7.14: a reference that already waits, or one to cancel that does not.
fn wrong_reference(book: &[u64], order: Order) -> bool
    requires { Stored book.now }
    ensures { result ≡ wrong_reference (ledger_of book.now).waiting order }
{
    let form = order.form;
    if !checking::is_within(12, 15, form) {
        return false;
    }
    let waits = search::first_sent(book, item::sender_of(order), order.reference).is_some();
    (checking::is_within(12, 14, form) & waits) | ((form == 15) & !waits)
}

// RULES 7.15: what cannot be cancelled by this sender.
fn wrong_cancel(book: &[u64], order: Order) -> bool
    requires { Kept book.now }
    ensures { result ≡ wrong_cancel (ledger_of book.now).waiting order }
{
    if order.form != 15 {
        return false;
    }
    let sender = item::sender_of(order);
    let found = search::first_sent(book, sender, order.reference);
    let Some(i) = found else {
        return false;
    };
    let item = book_items::item_at(book, i);
    item::not_cancellable(sender, item)
}

// RULES 7.24: the trade is fixed by a sent cycle.
fn cancels_sent(book: &[u64], order: Order) -> bool
    requires { Kept book.now }
    ensures { result ≡ cancels_sent (ledger_of book.now).waiting order }
{
    if order.form != 15 {
        return false;
    }
    let found = search::first_sent(book, item::sender_of(order), order.reference);
    let Some(i) = found else {
        return false;
    };
    let item = book_items::item_at(book, i);
    item.sent
}

// The items' stage: whether it lets the order pass, or the first refusal that applies.
#[tactic(auto, unfolding(rulebook::specs::Refusals::item_tests))]
pub fn check(book: &[u64], order: Order) -> Result<(), Refusal>
    requires { Kept book.now }
    ensures { number_in result ≡ first (item_tests (ledger_of book.now).waiting order) }
{
    checking::refuse(Refusal::WrongReference, wrong_reference(book, order))?;
    checking::refuse(Refusal::WrongCancel, wrong_cancel(book, order))?;
    checking::refuse(Refusal::CancelsSent, cancels_sent(book, order))
}

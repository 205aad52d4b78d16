// Refusals 16 to 18: whether the book has enough, and room.
#![tactic(auto)]

mod offers;

ghost use Rattle.std.specs.Prelude.{◌≡◌};
ghost use Rattle.plain.specs.Lists.{first};
ghost use Rattle.rulebook.specs.Answers.{number_in};
ghost use Rattle.rulebook.specs.Ranges.{AccountInRange};
ghost use Rattle.rulebook.specs.Refusals.{too_little, over_ceiling, no_space, room_tests};
ghost use Rattle.book.specs.Meaning.{ledger_of};
ghost use Rattle.book.specs.Stored.{Kept};
ghost use Rattle.checking.specs.Given.{WasRead};
ghost use Rattle.room_tests.specs.Room.{is_full, is_list_full, is_matched, no_room_between, OrderPassed, RequestPassed, SidesPassed};

use rulebook::{Account, Order, Refusal, Shares};

// RULES 7.16: too little where the movement takes from; an account keeps what fixed trades take from it.
fn too_little(book: &[u64], order: Order) -> bool
    requires { Kept book.now × WasRead order }
    ensures { result ≡ too_little (ledger_of book.now).holdings (ledger_of book.now).waiting order }
{
    let form = order.form;
    if form == 3 {
        let outside = book_holdings::outside(book, order.security);
        return outside.0 < order.quantity.0;
    }
    if checking::is_within(4, 9, form) | (form == 19) {
        let offered = offers::offered(book, parties::account_of(order.security, order.debited));
        return offered.0 < order.quantity.0;
    }
    if form == 11 {
        let cash = book_holdings::cash(book, order.debited.member, order.currency);
        return cash.0 < order.amount.0;
    }
    false
}

// RULES 7.17: above the ceiling of a currency's cash.
fn over_ceiling(book: &[u64], order: Order) -> bool
    requires { Kept book.now × WasRead order }
    ensures { result ≡ over_ceiling (ledger_of book.now).holdings order }
{
    if order.form != 10 {
        return false;
    }
    let total = book_holdings::cash_total(book, order.currency);
    1_000_000_000_000_000 < total.0 + order.amount.0
}

// Accounts plus items leave no room for one more.
fn is_full(book: &[u64]) -> bool
    requires { Kept book.now }
    ensures { result ≡ is_full (ledger_of book.now) }
{
    255 < book_holdings::accounts(book) + book_items::items(book) as u64
}

// The waiting list, or accounts plus items, leave no room for one more item.
fn is_list_full(book: &[u64]) -> bool
    requires { Kept book.now }
    ensures { result ≡ is_list_full (ledger_of book.now) }
{
    (63 < book_items::items(book)) | is_full(book)
}

// Whether a waiting single pairs with the arriving one of an order.
fn is_matched(book: &[u64], order: Order) -> bool
    requires { Kept book.now }
    ensures { result ≡ is_matched (ledger_of book.now) order }
{
    search::first_partner(book, item::single_of(order)).is_some()
}

// Shares that go from one account to another open the second where it has none; the first makes room where it keeps none.
fn no_room_between(book: &[u64], from: Account, to: Account, quantity: Shares) -> bool
    requires { Kept book.now × AccountInRange from × AccountInRange to }
    ensures { result ≡ no_room_between (ledger_of book.now) from to quantity.0 }
{
    let to_has = book_holdings::balance(book, to);
    let from_has = book_holdings::balance(book, from);
    (to_has.0 == 0) & (from_has.0 != quantity.0) & is_full(book)
}

// RULES 7.18 of a form 20: shares that leave need no room.
fn no_room_for_paper(book: &[u64], order: Order) -> bool
    requires { Kept book.now × WasRead order × SidesPassed (ledger_of book.now) order × (order.form ≡ 20) }
    ensures { result ≡ no_space (ledger_of book.now) order }
{
    let member = order.debited.member;
    let credited = order.credited.typ;
    if types::is_outside(credited) {
        return false;
    }
    let request = book_requests::request(book, member, order.reference);
    let from = parties::awaiting_account(member, request);
    let to = parties::request_account(credited, member, request);
    no_room_between(book, from, to, request.quantity)
}

// RULES 7.18: no room in the book that the call would leave.
fn no_space(book: &[u64], order: Order) -> bool
    requires { Kept book.now × WasRead order × SidesPassed (ledger_of book.now) order }
    ensures { result ≡ no_space (ledger_of book.now) order }
{
    let form = order.form;
    if form == 2 {
        return 31 < book_holdings::securities(book);
    }
    if !is_list_full(book) {
        return false;
    }
    let debited = parties::account_of(order.security, order.debited);
    let credited = parties::account_of(order.security, order.credited);
    if form == 3 {
        let to = book_holdings::balance(book, credited);
        return (to.0 == 0) & is_full(book);
    }
    if checking::is_within(5, 9, form) {
        return no_room_between(book, debited, credited, order.quantity);
    }
    if checking::is_within(12, 13, form) {
        return !is_matched(book, order);
    }
    if form == 19 {
        return no_room_between(
            book,
            debited,
            parties::requested_account(order),
            order.quantity,
        );
    }
    if form == 20 {
        return no_room_for_paper(book, order);
    }
    form == 14
}

// The room's stage, for an order that the order's and the requests' stages let pass: whether it lets it pass too, or the first refusal that applies.
#[tactic(auto, unfolding(rulebook::specs::Refusals::room_tests))]
pub fn check(book: &[u64], order: Order) -> Result<(), Refusal>
    requires { Kept book.now × WasRead order × OrderPassed (ledger_of book.now) order × RequestPassed (ledger_of book.now) order }
    ensures { number_in result ≡ first (room_tests (ledger_of book.now) order) }
{
    checking::refuse(Refusal::TooLittle, too_little(book, order))?;
    checking::refuse(Refusal::OverCeiling, over_ceiling(book, order))?;
    checking::refuse(Refusal::NoSpace, no_space(book, order))
}

// What a book says, part by part, to a program that does not know its words.
#![tactic(auto)]

ghost use Rattle.std.specs.Prelude.{◌≡◌, ◌<◌, length, get_or};
ghost use Rattle.rulebook.specs.Ledger as Ledger;
ghost use Rattle.book.specs.Meaning.{ledger_of};
ghost use Rattle.book.specs.Stored.{Kept};

use rulebook::{Account, Cents, Request, Security, Shares};

// The day and the rate.
pub use book::{day, rate};

// How many securities, accounts, items and open requests there are.
pub use book_holdings::{accounts, securities};
pub use book_items::items;
pub use book_requests::requests;

// An item by its place; accounts and requests in order of their numbers.
pub use accounts::account_of;
pub use book_holdings::next_account;
pub use book_items::item_at;
pub use book_requests::next_request;

// The security at `i`, in order of admission; its held count is what its accounts hold.
pub fn security_at(book: &[u64], i: usize) -> Security
    requires { Kept book.now × (i < length (ledger_of book.now).holdings.securities) }
    ensures value { (d : Security) → result ≡ get_or (ledger_of book.now).holdings.securities i d }
    ensures held_value { result.held.0 ≡ Ledger.held result.code (ledger_of book.now).holdings }
{
    book_holdings::security_at(book, i)
}

// The security's held count, which is what its accounts hold.
pub fn held(book: &[u64], security: u64) -> Shares
    requires { Kept book.now }
    ensures result_value { result.0 ≡ Ledger.held_of security (ledger_of book.now).holdings }
    ensures result_value_2 { result.0 ≡ Ledger.held security (ledger_of book.now).holdings }
{
    book_holdings::held(book, security)
}

// An account's balance: 0 where there is no such account, also where no record can name it.
pub fn balance(book: &[u64], account: Account) -> Shares
    requires { Kept book.now }
    ensures { result.0 ≡ (ledger_of book.now).holdings.balance account }
{
    if accounts::is_named(account) {
        return book_holdings::balance(book, account);
    }
    Shares(0)
}

// A member's cash in a currency: 0 where the book keeps none.
pub fn cash(book: &[u64], member: u64, currency: u64) -> Cents
    requires { Kept book.now }
    ensures { result.0 ≡ (ledger_of book.now).holdings.cash member currency }
{
    if cash::is_kept(member, currency) {
        return book_holdings::cash(book, member, currency);
    }
    Cents(0)
}

// What a member has open under a reference: all 0 where there is none, also where no record can name them.
pub fn request(book: &[u64], member: u64, reference: u64) -> Request
    requires { Kept book.now }
    ensures { result ≡ (ledger_of book.now).requests.asked member reference }
{
    if requests::is_named(member, reference) {
        return book_requests::request(book, member, reference);
    }
    Request {
        security: 0,
        typ: 0,
        shareholder: 0,
        quantity: Shares(0),
        day: 0,
    }
}

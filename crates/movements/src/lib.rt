// Forms 2 to 11, on a book of words: admission, and what moves shares or cash.
#![tactic(auto)]

ghost use Rattle.std.specs.Prelude.{◌≡◌, ◌≤◌};
ghost use Rattle.rulebook.specs.Forms.{admit, deposit, withdraw, transfer, pay_in, pay_out};
ghost use Rattle.book.specs.Meaning.{ledger_of};
ghost use Rattle.book.specs.Handled.{Handled};
ghost use Rattle.checking.specs.Given.{Accepted};

use rulebook::{Counts, Order};

// 2. A new security, all of its issue outside, with the rows of that movement.
pub fn admit(book: &mut [u64], order: Order, area: &mut [u8]) -> Counts
    requires { Accepted book.old order area.old × (order.form ≡ 2) }
    ensures { Handled (admit (ledger_of book.old) order) book.new area.old area.new result }
{
    book_holdings::admit(book, order.security, order.quantity);
    let issued = parties::issued_account(order.security);
    let outside = parties::outside_account(order.security);
    rows::write_shares(area, issued, outside, order.quantity);
    rows::two_rows()
}

// 3. Deposit: 91 to the account.
pub fn deposit(book: &mut [u64], order: Order, area: &mut [u8]) -> Counts
    requires { Accepted book.old order area.old × (order.form ≡ 3) }
    ensures { Handled (deposit (ledger_of book.old) order) book.new area.old area.new result }
{
    let outside = parties::outside_account(order.security);
    let to = parties::account_of(order.security, order.credited);
    book_holdings::credit(book, to, order.quantity);
    book_holdings::enter_custody(book, order.security, order.quantity);
    rows::write_shares(area, outside, to, order.quantity);
    rows::two_rows()
}

// 4. Withdrawal the reverse.
pub fn withdraw(book: &mut [u64], order: Order, area: &mut [u8]) -> Counts
    requires { Accepted book.old order area.old × (order.form ≡ 4) }
    ensures { Handled (withdraw (ledger_of book.old) order) book.new area.old area.new result }
{
    let from = parties::account_of(order.security, order.debited);
    booking::leave(book, area, from, order.quantity)
}

// 5 to 9. Transfer, pledge, release, block, unblock: the debited account to the credited one.
pub fn transfer(book: &mut [u64], order: Order, area: &mut [u8]) -> Counts
    requires { Accepted book.old order area.old × (5 ≤ order.form) × (order.form ≤ 9) }
    ensures { Handled (transfer (ledger_of book.old) order) book.new area.old area.new result }
{
    let from = parties::account_of(order.security, order.debited);
    let to = parties::account_of(order.security, order.credited);
    booking::shift(book, area, from, to, order.quantity)
}

// 10. Pay-in: member 0 to the member.
pub fn pay_in(book: &mut [u64], order: Order, area: &mut [u8]) -> Counts
    requires { Accepted book.old order area.old × (order.form ≡ 10) }
    ensures { Handled (pay_in (ledger_of book.old) order) book.new area.old area.new result }
{
    let member = order.credited.member;
    book_holdings::credit_cash(book, member, order.currency, order.amount);
    rows::write_cash(area, order.currency, 0, member, order.amount);
    rows::two_rows()
}

// 11. Pay-out the reverse.
pub fn pay_out(book: &mut [u64], order: Order, area: &mut [u8]) -> Counts
    requires { Accepted book.old order area.old × (order.form ≡ 11) }
    ensures { Handled (pay_out (ledger_of book.old) order) book.new area.old area.new result }
{
    let member = order.debited.member;
    book_holdings::debit_cash(book, member, order.currency, order.amount);
    rows::write_cash(area, order.currency, member, 0, order.amount);
    rows::two_rows()
}

// The holdings of a book: accounts, cash and securities. Each function is lent the whole book, and hands on one region of it.
#![tactic(auto)]

ghost use Rattle.std.specs.Prelude.{◌≡◌, false, ◌+◌, ◌^◌, ◌≤◌, ◌<◌, length, get_or};
ghost use Rattle.rulebook.specs.Ledger.{admitted, outside_of, held_of, cash_total};
ghost use Rattle.rulebook.specs.Movements as movements;
ghost use Rattle.rulebook.specs.Premise.{CashFits};
ghost use Rattle.rulebook.specs.Ranges.{AccountInRange};
ghost use Rattle.book.specs.Keys.{Next, key_of, account_limit, has_balance, CreditFits};
ghost use Rattle.book.specs.Meaning.{holdings_of};
ghost use Rattle.book.specs.Stored.{Stored, HoldingsBecome, with_security, entered, left};

use book::{ACCOUNTS, CASH, ITEMS, SECURITIES};
use rulebook::{Account, Cents, Security, Shares};

// ---- accounts

// How many accounts there are.
pub fn accounts(book: &[u64]) -> u64
    requires { Stored book.now }
    ensures { result ≡ (holdings_of book.now).accounts }
{
    words::rows(&book[ACCOUNTS..CASH])
}

// The account's balance.
pub fn balance(book: &[u64], account: Account) -> Shares
    requires { Stored book.now × AccountInRange account }
    ensures { result.0 ≡ (holdings_of book.now).balance account }
{
    accounts::balance(&book[ACCOUNTS..CASH], account)
}

// The account as one number, which no other account has.
pub fn key_of(account: Account) -> u64
    requires { AccountInRange account }
    ensures { result ≡ key_of account }
{
    accounts::key_of(account)
}

// The number of the first account from a number on that has a balance; the limit where there is none.
pub fn next_account(book: &[u64], from: u64) -> u64
    requires { Stored book.now × (from ≤ account_limit) }
    ensures { Next (has_balance (holdings_of book.now).balance) from account_limit result }
{
    accounts::next_account(&book[ACCOUNTS..CASH], from)
}

// More in the account.
pub fn credit(book: &mut [u64], account: Account, quantity: Shares)
    requires { Stored book.old × CreditFits account ((holdings_of book.old).balance account) (holdings_of book.old).accounts quantity.0 }
    ensures { HoldingsBecome (movements.credit (movements.account account) quantity.0) book.old book.new }
{
    accounts::credit(&mut book[ACCOUNTS..CASH], account, quantity);
}

// Less in the account.
pub fn debit(book: &mut [u64], account: Account, quantity: Shares)
    requires { Stored book.old × (0 < quantity.0) × (quantity.0 ≤ (holdings_of book.old).balance account) }
    ensures { HoldingsBecome (movements.debit (movements.account account) quantity.0) book.old book.new }
{
    accounts::debit(&mut book[ACCOUNTS..CASH], account, quantity);
}

// ---- cash

// The member's cash in a currency.
pub fn cash(book: &[u64], member: u64, currency: u64) -> Cents
    requires { Stored book.now × CashFits member currency }
    ensures { result.0 ≡ (holdings_of book.now).cash member currency }
{
    cash::amount(&book[CASH..ITEMS], member, currency)
}

// More cash for the member.
pub fn credit_cash(book: &mut [u64], member: u64, currency: u64, amount: Cents)
    requires { Stored book.old × CashFits member currency × ((holdings_of book.old).cash member currency + amount.0 < 2 ^ 64) }
    ensures { HoldingsBecome (movements.credit (movements.cash_of member currency) amount.0) book.old book.new }
{
    cash::credit(&mut book[CASH..ITEMS], member, currency, amount);
}

// Less cash for the member.
pub fn debit_cash(book: &mut [u64], member: u64, currency: u64, amount: Cents)
    requires { Stored book.old × CashFits member currency × (amount.0 ≤ (holdings_of book.old).cash member currency) }
    ensures { HoldingsBecome (movements.debit (movements.cash_of member currency) amount.0) book.old book.new }
{
    cash::debit(&mut book[CASH..ITEMS], member, currency, amount);
}

// A currency's total over all members.
pub fn cash_total(book: &[u64], currency: u64) -> Cents
    requires { Stored book.now × (1 ≤ currency) × (currency ≤ 2) × (cash_total currency (holdings_of book.now) < 2 ^ 64) }
    ensures { result.0 ≡ cash_total currency (holdings_of book.now) }
{
    cash::total(&book[CASH..ITEMS], currency)
}

// ---- securities

// How many securities are admitted.
pub fn securities(book: &[u64]) -> usize
    requires { Stored book.now }
    ensures { result ≡ length (holdings_of book.now).securities }
{
    words::rows(&book[SECURITIES..ACCOUNTS]) as usize
}

// The security at `i`, in order of admission.
pub fn security_at(book: &[u64], i: usize) -> Security
    requires { Stored book.now × (i < length (holdings_of book.now).securities) }
    ensures { (d : Security) → result ≡ get_or (holdings_of book.now).securities i d }
{
    securities::security_at(&book[SECURITIES..ACCOUNTS], i)
}

// Whether the security is admitted.
pub fn admitted(book: &[u64], security: u64) -> bool
    requires { Stored book.now }
    ensures { result ≡ admitted security (holdings_of book.now) }
{
    securities::admitted(&book[SECURITIES..ACCOUNTS], security)
}

// The security's outside count.
pub fn outside(book: &[u64], security: u64) -> Shares
    requires { Stored book.now }
    ensures { result.0 ≡ outside_of security (holdings_of book.now) }
{
    securities::outside(&book[SECURITIES..ACCOUNTS], security)
}

// The security's held count.
pub fn held(book: &[u64], security: u64) -> Shares
    requires { Stored book.now }
    ensures { result.0 ≡ held_of security (holdings_of book.now) }
{
    securities::held(&book[SECURITIES..ACCOUNTS], security)
}

// The security is admitted, all of it outside.
pub fn admit(book: &mut [u64], security: u64, quantity: Shares)
    requires { Stored book.old × (length (holdings_of book.old).securities < 32) × (admitted security (holdings_of book.old) ≡ false) }
    ensures { HoldingsBecome (with_security security quantity) book.old book.new }
{
    securities::admit(&mut book[SECURITIES..ACCOUNTS], security, quantity);
}

// Shares of the security come into custody: less of it outside, more of it held.
pub fn enter_custody(book: &mut [u64], security: u64, quantity: Shares)
    requires { Stored book.old × (quantity.0 ≤ outside_of security (holdings_of book.old)) × (held_of security (holdings_of book.old) + quantity.0 < 2 ^ 64) }
    ensures { HoldingsBecome (entered security quantity.0) book.old book.new }
{
    securities::enter_custody(&mut book[SECURITIES..ACCOUNTS], security, quantity);
}

// Shares of the security leave custody: more of it outside, less of it held.
pub fn leave_custody(book: &mut [u64], security: u64, quantity: Shares)
    requires { Stored book.old × (outside_of security (holdings_of book.old) + quantity.0 < 2 ^ 64) × (quantity.0 ≤ held_of security (holdings_of book.old)) }
    ensures { HoldingsBecome (left security quantity.0) book.old book.new }
{
    securities::leave_custody(&mut book[SECURITIES..ACCOUNTS], security, quantity);
}

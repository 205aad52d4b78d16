// The accounts of a book, as 513 words: how many there are, 256 keys, 256 balances. An account's key is one number.
#![tactic(auto)]

ghost use Rattle.std.specs.Prelude.{◌≡◌, ◌+◌, ◌≤◌, ◌<◌, length, IfSome};
ghost use Rattle.rulebook.specs.Ledger.{Holdings};
ghost use Rattle.rulebook.specs.Movements as movements;
ghost use Rattle.rulebook.specs.Ranges.{AccountInRange};
ghost use Rattle.accounts.specs.Keys.{in_range, key_of, key_limit, account_of, has_balance};
ghost use Rattle.words.specs.Order.{Next};
ghost use Rattle.words.specs.Tables.{rows, place_of};
ghost use Rattle.accounts.specs.Map.{balance_of, with_accounts, Kept, CreditFits, opened, removed};

use rulebook::{Account, Shares};

// Keys and balances are columns of words, for the book is words that a C program lends.
const BALANCES: usize = 257;

// Keys are below this.
const KEY_LIMIT: u64 = 4611686018427387904;

// The account as one number: security, member, type and shareholder, as in a posting row.
pub fn key_of(account: Account) -> u64
    requires { AccountInRange account }
    ensures { result ≡ key_of account }
{
    account.security * 281474976710656
        + account.member * 274877906944
        + account.typ * 1073741824
        + account.shareholder
}

// Whether a posting row's fields can name the account.
pub fn is_named(account: Account) -> bool
    ensures { result ≡ in_range account }
{
    (account.security < 16384)
        & (account.member < 1024)
        & (account.typ < 256)
        & (account.shareholder < 1073741824)
}

// The account of a key.
pub fn account_of(key: u64) -> Account
    ensures { result ≡ account_of key }
{
    Account {
        security: key >> 48,
        member: (key >> 38) % 1024,
        typ: (key >> 30) % 256,
        shareholder: key % 1073741824,
    }
}

// The key of the first account from a key on, in order of security, member, type and shareholder; the limit where there is none.
pub fn next_account(accounts: &[u64], from: u64) -> u64
    requires { Kept accounts.now × (from ≤ key_limit) }
    ensures { Next (has_balance (balance_of accounts.now)) from key_limit result }
{
    words::next_key(accounts, from, KEY_LIMIT)
}

// Where the account stands.
fn find(accounts: &[u64], account: Account) -> Option<usize>
    requires { Kept accounts.now × AccountInRange account }
    ensures place { result ≡ place_of (key_of account) accounts.now }
    ensures inside { IfSome result (λ i. i < rows accounts.now) }
{
    let key = key_of(account);
    words::find(accounts, key)
}

// The account's balance: 0 where none is kept.
pub fn balance(accounts: &[u64], account: Account) -> Shares
    requires { Kept accounts.now × AccountInRange account }
    ensures { result.0 ≡ balance_of accounts.now account }
{
    let key = key_of(account);
    Shares(words::value(accounts, key, BALANCES))
}

// An account goes last.
fn open_account(accounts: &mut [u64], account: Account, balance: Shares)
    requires { (length accounts.old ≡ 513) × (rows accounts.old < 256) × AccountInRange account }
    ensures { accounts.new ≡ opened accounts.old (key_of account) balance.0 }
{
    let key = key_of(account);
    let n = accounts[0];
    let at = n as usize;
    accounts[at + 1] = key;
    accounts[at + BALANCES] = balance.0;
    accounts[0] = n + 1;
}

// The account at `i` is removed, and the last one moves into its place.
fn remove_account(accounts: &mut [u64], i: usize)
    requires { (length accounts.old ≡ 513) × (i < rows accounts.old) × (rows accounts.old ≤ 256) }
    ensures { accounts.new ≡ removed accounts.old i }
{
    let n = accounts[0] - 1;
    let last = n as usize;
    let key = accounts[last + 1];
    let balance = accounts[last + BALANCES];
    accounts[i + 1] = key;
    accounts[i + BALANCES] = balance;
    accounts[0] = n;
}

// More in the account, which is opened where there is none.
pub fn credit(accounts: &mut [u64], account: Account, quantity: Shares)
    requires { Kept accounts.old × CreditFits account (balance_of accounts.old account) (rows accounts.old) quantity.0 }
    ensures { Kept accounts.new
        ×
        ((h : Holdings) → with_accounts accounts.new h
        ≡ movements.credit (movements.account account) quantity.0 (with_accounts accounts.old h)) }
{
    match find(accounts, account) {
        Some(i) => accounts[i + BALANCES] += quantity.0,
        None => open_account(accounts, account, quantity),
    }
}

// Less in the account, which is removed where nothing is left.
pub fn debit(accounts: &mut [u64], account: Account, quantity: Shares)
    requires { Kept accounts.old × (0 < quantity.0) × (quantity.0 ≤ balance_of accounts.old account) }
    ensures { Kept accounts.new
        ×
        ((h : Holdings) → with_accounts accounts.new h
        ≡ movements.debit (movements.account account) quantity.0 (with_accounts accounts.old h)) }
{
    if let Some(i) = find(accounts, account) {
        let held = accounts[i + BALANCES];
        if held == quantity.0 {
            remove_account(accounts, i);
        } else {
            accounts[i + BALANCES] = held - quantity.0;
        }
    }
}

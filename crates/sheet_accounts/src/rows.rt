// The rows of the accounts whose shares are pledged, blocked or in transit.
ghost use Rattle.std.specs.Prelude.{◌++◌, true, ◌≡◌, ◌+◌, ◌≤◌, length};
ghost use Rattle.book.specs.Keys.{has_balance};
ghost use Rattle.book.specs.Meaning.{ledger_of};
ghost use Rattle.book.specs.Stored.{Kept};
ghost use Rattle.listing.specs.InOrder.{each_of};
ghost use Rattle.listing.specs.ByNumber.{account_listed};
ghost use Rattle.sheet_accounts.specs.Rows.{account_row, account_rows};

use crate::line;
use text::Buffer;

// No account has this number or a higher one.
const LIMIT: u64 = 4611686018427387904;

// The row of the account of a number, which has a balance. None where its shares are free.
fn put_row<const N: usize>(out: &mut Buffer<N>, page: bool, book: &[u64], number: u64)
    requires { Kept book.now × (has_balance (ledger_of book.now).holdings.balance number ≡ true) × (length out.old + 700 ≤ N) }
    ensures put { out.new ≡ out.old ++ each_of (account_row page (ledger_of book.now).holdings) (account_listed (ledger_of book.now).holdings number) }
    ensures upper_bound { length out.new ≤ length out.old + 700 }
{
    let account = reading::account_of(number);
    if types::is_free(account.typ) {
        return;
    }
    let balance = reading::balance(book, account);
    line::put_line(out, page, account, balance);
}

// By security, member, type and shareholder: a book has at most 256 accounts.
#[tactic(auto, unfolding(crate::specs::Rows::account_rows))]
pub fn put_rows<const N: usize>(out: &mut Buffer<N>, page: bool, book: &[u64])
    requires { Kept book.now × (length out.old + 179200 ≤ N) }
    ensures put { out.new ≡ out.old ++ account_rows page (ledger_of book.now).holdings }
    ensures upper_bound { length out.new ≤ length out.old + 179200 }
{
    let mut from: u64 = 0;
    loop {
        let number = reading::next_account(book, from);
        if number == LIMIT {
            return;
        }
        put_row(out, page, book, number);
        from = number + 1;
    }
}

// The rows of the members' cash.
ghost use Rattle.std.specs.Prelude.{◌++◌, ◌≡◌, ◌+◌, ◌≤◌, ◌<◌, length};
ghost use Rattle.book.specs.Meaning.{ledger_of};
ghost use Rattle.book.specs.Stored.{Kept};
ghost use Rattle.listing.specs.InOrder.{each_of};
ghost use Rattle.listing.specs.ByNumber.{cash_limit, cash_listed_at};
ghost use Rattle.sheet_cash.specs.Rows.{cash_row, cash_rows};

use crate::line;
use text::Buffer;

// The row of a number: members' USD and LBP are numbered one behind the other. None where there is no cash.
fn put_row<const N: usize>(out: &mut Buffer<N>, page: bool, book: &[u64], number: u64)
    requires { Kept book.now × (number < cash_limit) × (length out.old + 500 ≤ N) }
    ensures put { out.new ≡ out.old ++ each_of (cash_row page (ledger_of book.now).holdings) (cash_listed_at (ledger_of book.now).holdings number) }
    ensures upper_bound { length out.new ≤ length out.old + 500 }
{
    let member = number / 2 + 1;
    let currency = number % 2 + 1;
    let amount = reading::cash(book, member, currency);
    if amount.0 == 0 {
        return;
    }
    line::put_line(out, page, member, currency, amount);
}

// By member and currency.
#[tactic(auto, unfolding(crate::specs::Rows::cash_rows))]
pub fn put_rows<const N: usize>(out: &mut Buffer<N>, page: bool, book: &[u64])
    requires { Kept book.now × (length out.old + 64000 ≤ N) }
    ensures put { out.new ≡ out.old ++ cash_rows page (ledger_of book.now).holdings }
    ensures upper_bound { length out.new ≤ length out.old + 64000 }
{
    for number in 0..128 {
        put_row(out, page, book, number);
    }
}

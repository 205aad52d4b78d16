// The rows of the open requests for paper.
ghost use Rattle.std.specs.Prelude.{◌++◌, true, ◌≡◌, ◌+◌, ◌≤◌, length};
ghost use Rattle.book.specs.Keys.{is_open};
ghost use Rattle.book.specs.Meaning.{ledger_of};
ghost use Rattle.book.specs.Stored.{Kept};
ghost use Rattle.listing.specs.InOrder.{each_of};
ghost use Rattle.listing.specs.ByNumber.{request_listed};
ghost use Rattle.sheet_requests.specs.Rows.{request_row, request_rows};

use crate::line;
use text::Buffer;

// No request has this number or a higher one.
const LIMIT: u64 = 4398046511104;

// The row of the request of a number, which is open.
fn put_row<const N: usize>(out: &mut Buffer<N>, page: bool, book: &[u64], number: u64)
    requires { Kept book.now × (is_open (ledger_of book.now).requests.asked number ≡ true) × (length out.old + 900 ≤ N) }
    ensures put { out.new ≡ out.old ++ each_of (request_row page (ledger_of book.now).requests) (request_listed (ledger_of book.now).requests number) }
    ensures upper_bound { length out.new ≤ length out.old + 900 }
{
    let member = number / 4294967296;
    let reference = number % 4294967296;
    let request = reading::request(book, member, reference);
    line::put_line(out, page, member, reference, request);
}

// By member and reference: a book has at most 16 requests.
#[tactic(auto, unfolding(crate::specs::Rows::request_rows))]
pub fn put_rows<const N: usize>(out: &mut Buffer<N>, page: bool, book: &[u64])
    requires { Kept book.now × (length out.old + 14400 ≤ N) }
    ensures put { out.new ≡ out.old ++ request_rows page (ledger_of book.now).requests }
    ensures upper_bound { length out.new ≤ length out.old + 14400 }
{
    let mut from: u64 = 0;
    loop {
        let number = reading::next_request(book, from);
        if number == LIMIT {
            return;
        }
        put_row(out, page, book, number);
        from = number + 1;
    }
}

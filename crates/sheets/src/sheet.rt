// The whole sheet.
ghost use Rattle.std.specs.Prelude.{◌++◌, ◌≡◌, ◌+◌, ◌≤◌, length};
ghost use Rattle.book.specs.Meaning.{ledger_of};
ghost use Rattle.book.specs.Stored.{Kept};
ghost use Rattle.sheets.specs.Sheet.{first_parts, other_parts, sheet_of, sheet_bytes};

use crate::page;
use text::Buffer;

// A buffer of so many bytes has room for every sheet.
pub const SHEET_BYTES: usize = 400_000;

// The heading, the day and what waits.
#[tactic(auto, unfolding(crate::specs::Sheet::first_parts))]
fn put_first_parts<const N: usize>(out: &mut Buffer<N>, page: bool, book: &[u64])
    requires { Kept book.now × (length out.old + 113000 ≤ N) }
    ensures put { out.new ≡ out.old ++ first_parts page (ledger_of book.now) }
    ensures upper_bound { length out.new ≤ length out.old + 113000 }
{
    let day = reading::day(book);
    text_or_page::put_in_page(out, page, &page::PAGE_HEAD);
    sheet_day::put_heading(out, page, day.number);
    sheet_day::put_day(out, page, book);
    sheet_waiting::put_waiting(out, page, book);
}

// What is held back, cash, requests for paper, custody.
#[tactic(auto, unfolding(crate::specs::Sheet::other_parts))]
fn put_other_parts<const N: usize>(out: &mut Buffer<N>, page: bool, book: &[u64])
    requires { Kept book.now × (length out.old + 277000 ≤ N) }
    ensures { out.new ≡ out.old ++ other_parts page (ledger_of book.now) }
{
    sheet_accounts::put_accounts(out, page, book);
    sheet_cash::put_cash(out, page, book);
    sheet_requests::put_requests(out, page, book);
    sheet_custody::put_custody(out, page, book);
    text_or_page::put_in_page(out, page, &page::PAGE_FOOT);
}

// The sheet of a book: as a page, or as text.
#[tactic(auto, unfolding(crate::specs::Sheet::sheet_of))]
pub fn put_sheet<const N: usize>(out: &mut Buffer<N>, page: bool, book: &[u64])
    requires { Kept book.now × (length out.old + sheet_bytes ≤ N) }
    ensures { out.new ≡ out.old ++ sheet_of page (ledger_of book.now) }
{
    put_first_parts(out, page, book);
    put_other_parts(out, page, book);
}

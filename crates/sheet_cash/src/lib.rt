// The members' cash (RULES 18.6): lines of text, or a table of a page.
#![tactic(auto)]

mod line;
mod rows;

ghost use Rattle.std.specs.Prelude.{◌++◌, ◌≡◌, ◌+◌, ◌≤◌, length};
ghost use Rattle.book.specs.Meaning.{ledger_of};
ghost use Rattle.book.specs.Stored.{Kept};
ghost use Rattle.text_or_page.specs.Table.{table_of};
ghost use Rattle.sheet_cash.specs.Rows.{cash_head, cash_rows};

use text::Buffer;

// What stands above the rows of a page.
const HEAD: [u8; 118] =
    *b"<h2>Cash</h2>\n<table>\n<thead><tr><th class=n>Member</th><th>Currency</th><th class=n>Amount</th></tr></thead>\n<tbody>\n";

// The members' cash.
pub fn put_cash<const N: usize>(out: &mut Buffer<N>, page: bool, book: &[u64])
    requires { Kept book.now × (length out.old + 64600 ≤ N) }
    ensures put { out.new ≡ out.old ++ table_of page cash_head (cash_rows page (ledger_of book.now).holdings) }
    ensures upper_bound { length out.new ≤ length out.old + 64600 }
{
    text_or_page::put_in_page(out, page, &HEAD);
    rows::put_rows(out, page, book);
    text_or_page::put_foot(out, page);
}

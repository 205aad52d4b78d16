// The waiting items (RULES 18.4): lines of text, or a table of a page.
#![tactic(auto)]

mod rows;

ghost use Rattle.std.specs.Prelude.{◌++◌, ◌≡◌, ◌+◌, ◌≤◌, length};
ghost use Rattle.book.specs.Meaning.{ledger_of};
ghost use Rattle.book.specs.Stored.{Kept};
ghost use Rattle.text_or_page.specs.Table.{table_of};
ghost use Rattle.sheet_waiting.specs.Rows.{waiting_head, waiting_rows};

use text::Buffer;

// What stands above the rows of a page.
const HEAD: [u8; 322] =
    *b"<h2>Waiting items, from and to as member/type/shareholder</h2>\n<table>\n<thead><tr><th>State</th><th>Reference</th><th>From</th>\
    <th>To</th><th class=n>Security</th><th class=n>Quantity</th><th class=n>Amount</th><th>Currency</th><th class=n>Trade day</th>\
    <th class=n>Settlement day</th><th>Marked</th></tr></thead>\n<tbody>\n";

// What waits.
pub fn put_waiting<const N: usize>(out: &mut Buffer<N>, page: bool, book: &[u64])
    requires { Kept book.now × (length out.old + 109400 ≤ N) }
    ensures put { out.new ≡ out.old ++ table_of page waiting_head (waiting_rows page (ledger_of book.now).waiting) }
    ensures upper_bound { length out.new ≤ length out.old + 109400 }
{
    text_or_page::put_in_page(out, page, &HEAD);
    rows::put_rows(out, page, book);
    text_or_page::put_foot(out, page);
}

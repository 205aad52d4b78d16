// The open requests for paper (RULES 18.7): lines of text, or a table of a page.
#![tactic(auto)]

mod line;
mod rows;

ghost use Rattle.std.specs.Prelude.{◌++◌, ◌≡◌, ◌+◌, ◌≤◌, length};
ghost use Rattle.book.specs.Meaning.{ledger_of};
ghost use Rattle.book.specs.Stored.{Kept};
ghost use Rattle.text_or_page.specs.Table.{table_of};
ghost use Rattle.sheet_requests.specs.Rows.{requests_head, request_rows};

use text::Buffer;

// What stands above the rows of a page.
const HEAD: [u8; 260] =
    *b"<h2>Open requests for paper</h2>\n<table>\n<thead><tr><th class=n>Member</th><th class=n>Reference</th><th class=n>Security</th>\
    <th class=n>From type</th><th>Name</th><th class=n>Shareholder</th><th class=n>Quantity</th><th class=n>Day</th>\
    </tr></thead>\n<tbody>\n";

// The open requests for paper.
pub fn put_requests<const N: usize>(out: &mut Buffer<N>, page: bool, book: &[u64])
    requires { Kept book.now × (length out.old + 15000 ≤ N) }
    ensures put { out.new ≡ out.old ++ table_of page requests_head (request_rows page (ledger_of book.now).requests) }
    ensures upper_bound { length out.new ≤ length out.old + 15000 }
{
    text_or_page::put_in_page(out, page, &HEAD);
    rows::put_rows(out, page, book);
    text_or_page::put_foot(out, page);
}

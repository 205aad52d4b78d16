// The accounts whose shares are pledged, blocked or in transit (RULES 18.5): lines of text, or a table of a page.
#![tactic(auto)]

mod line;
mod rows;

ghost use Rattle.std.specs.Prelude.{◌++◌, ◌≡◌, ◌+◌, ◌≤◌, length};
ghost use Rattle.book.specs.Meaning.{ledger_of};
ghost use Rattle.book.specs.Stored.{Kept};
ghost use Rattle.text_or_page.specs.Table.{table_of};
ghost use Rattle.sheet_accounts.specs.Rows.{accounts_head, account_rows};

use text::Buffer;

// What stands above the rows of a page.
const HEAD: [u8; 215] =
    *b"<h2>Pledged, blocked or in transit</h2>\n<table>\n<thead><tr><th class=n>Security</th><th class=n>Member</th><th class=n>Type</th>\
    <th>Name</th><th class=n>Shareholder</th><th class=n>Balance</th></tr></thead>\n<tbody>\n";

// What is pledged, blocked or in transit.
pub fn put_accounts<const N: usize>(out: &mut Buffer<N>, page: bool, book: &[u64])
    requires { Kept book.now × (length out.old + 179800 ≤ N) }
    ensures put { out.new ≡ out.old ++ table_of page accounts_head (account_rows page (ledger_of book.now).holdings) }
    ensures upper_bound { length out.new ≤ length out.old + 179800 }
{
    text_or_page::put_in_page(out, page, &HEAD);
    rows::put_rows(out, page, book);
    text_or_page::put_foot(out, page);
}

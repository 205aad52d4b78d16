// What is issued, held and outside of each security (RULES 18.8): lines of text, or a table of a page.
#![tactic(auto)]

mod line;
mod rows;

ghost use Rattle.std.specs.Prelude.{◌++◌, ◌≡◌, ◌+◌, ◌≤◌, length};
ghost use Rattle.book.specs.Meaning.{ledger_of};
ghost use Rattle.book.specs.Stored.{Kept};
ghost use Rattle.text_or_page.specs.Table.{table_of};
ghost use Rattle.sheet_custody.specs.Rows.{custody_head, custody_rows};

use text::Buffer;

// What stands above the rows of a page.
const HEAD: [u8; 151] =
    *b"<h2>Custody</h2>\n<table>\n<thead><tr><th class=n>Security</th><th class=n>Issued</th><th class=n>Held</th>\
    <th class=n>Outside</th></tr></thead>\n<tbody>\n";

// Custody.
pub fn put_custody<const N: usize>(out: &mut Buffer<N>, page: bool, book: &[u64])
    requires { Kept book.now × (length out.old + 16600 ≤ N) }
    ensures put { out.new ≡ out.old ++ table_of page custody_head (custody_rows page (ledger_of book.now).holdings.securities) }
    ensures upper_bound { length out.new ≤ length out.old + 16600 }
{
    text_or_page::put_in_page(out, page, &HEAD);
    rows::put_rows(out, page, book);
    text_or_page::put_foot(out, page);
}

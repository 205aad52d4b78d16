// The rows of the securities.
ghost use Rattle.std.specs.Prelude.{◌++◌, ◌≡◌, ◌+◌, ◌≤◌, ◌<◌, length, get_or};
ghost use Rattle.rulebook.specs.declared.Security.{Security};
ghost use Rattle.book.specs.Meaning.{ledger_of};
ghost use Rattle.book.specs.Stored.{Kept};
ghost use Rattle.sheet_custody.specs.Line.{security_line};
ghost use Rattle.sheet_custody.specs.Rows.{custody_rows};

use crate::line;
use text::Buffer;

// The row of the security at `i`.
#[tactic(auto, unfolding(crate::specs::Line::security_line))]
fn put_row<const N: usize>(out: &mut Buffer<N>, page: bool, book: &[u64], i: usize)
    requires { Kept book.now × (i < length (ledger_of book.now).holdings.securities) × (length out.old + 500 ≤ N) }
    ensures put { (d : Security) → out.new ≡ out.old ++ security_line page (get_or (ledger_of book.now).holdings.securities i d) }
    ensures upper_bound { length out.new ≤ length out.old + 500 }
{
    let security = reading::security_at(book, i);
    line::put_line(out, page, security);
}

// In order of admission: at most 32.
#[tactic(auto, unfolding(crate::specs::Rows::custody_rows))]
pub fn put_rows<const N: usize>(out: &mut Buffer<N>, page: bool, book: &[u64])
    requires { Kept book.now × (length out.old + 16000 ≤ N) }
    ensures put { out.new ≡ out.old ++ custody_rows page (ledger_of book.now).holdings.securities }
    ensures upper_bound { length out.new ≤ length out.old + 16000 }
{
    let n = reading::securities(book);
    for i in 0..n {
        put_row(out, page, book, i);
    }
}

// The custody lines of a book.
ghost use Rattle.std.specs.Prelude.{◌++◌, ◌≡◌, ◌+◌, ◌≤◌, ◌<◌, length, get_or};
ghost use Rattle.rulebook.specs.declared.Security.{Security};
ghost use Rattle.book.specs.Meaning.{ledger_of};
ghost use Rattle.book.specs.Stored.{Kept};
ghost use Rattle.lines.specs.Lines.{custody_line};
ghost use Rattle.printing.specs.Printed.{custody_lines};

use text::Buffer;

// The line of the security at `i`.
fn put_security<const N: usize>(out: &mut Buffer<N>, book: &[u64], i: usize)
    requires { Kept book.now × (i < length (ledger_of book.now).holdings.securities) × (length out.old + 112 ≤ N) }
    ensures put { (d : Security) → out.new ≡ out.old ++ custody_line (get_or (ledger_of book.now).holdings.securities i d) }
    ensures upper_bound { length out.new ≤ length out.old + 112 }
{
    let security = reading::security_at(book, i);
    lines::put_custody_line(out, security);
}

// Per security, in order of admission: at most 32 lines of at most 112 bytes.
pub fn put_custody<const N: usize>(out: &mut Buffer<N>, book: &[u64])
    requires { Kept book.now × (length out.old + 3584 ≤ N) }
    ensures { out.new ≡ out.old ++ custody_lines (ledger_of book.now).holdings }
{
    let n = reading::securities(book);
    for i in 0..n {
        put_security(out, book, i);
    }
}

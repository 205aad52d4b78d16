// A security's line.
ghost use Rattle.std.specs.Prelude.{◌++◌, ◌≡◌, ◌+◌, ◌≤◌, length};
ghost use Rattle.sheet_custody.specs.Line.{security_line};

use rulebook::Security;
use text::Buffer;

#[tactic(auto, unfolding(crate::specs::Line::security_line))]
pub fn put_line<const N: usize>(out: &mut Buffer<N>, page: bool, security: Security)
    requires { length out.old + 500 ≤ N }
    ensures put { out.new ≡ out.old ++ security_line page security }
    ensures upper_bound { length out.new ≤ length out.old + 500 }
{
    text_or_page::put_written(
        out,
        page,
        b"CUSTODY # ISSUED # HELD # OUTSIDE #\n",
        b"<tr><td class=n>#</td><td class=n>#</td><td class=n>#</td><td class=n>#</td></tr>\n",
        &[
            security.code,
            security.issued.0,
            security.held.0,
            security.outside.0,
        ],
    );
}

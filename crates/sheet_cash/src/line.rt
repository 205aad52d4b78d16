// The line of a member's cash.
ghost use Rattle.std.specs.Prelude.{◌++◌, ◌≡◌, ◌+◌, ◌≤◌, length};
ghost use Rattle.sheet_cash.specs.Line.{cash_line};

use rulebook::Cents;
use text::Buffer;

#[tactic(auto, unfolding(crate::specs::Line::cash_line))]
pub fn put_line<const N: usize>(
    out: &mut Buffer<N>,
    page: bool,
    member: u64,
    currency: u64,
    amount: Cents,
)
    requires { length out.old + 500 ≤ N }
    ensures put { out.new ≡ out.old ++ cash_line page member currency amount.0 }
    ensures upper_bound { length out.new ≤ length out.old + 500 }
{
    let n = amount.0;
    text_or_page::put_written(
        out,
        page,
        b"CASH MEMBER # $ #.##\n",
        b"<tr><td class=n>#</td><td>$</td><td class=n>#.##</td></tr>\n",
        &[member, currency, n / 100, n % 100 / 10, n % 10],
    );
}

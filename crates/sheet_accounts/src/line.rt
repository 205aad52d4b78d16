// An account's line.
ghost use Rattle.std.specs.Prelude.{◌++◌, ◌≡◌, ◌+◌, ◌≤◌, length};
ghost use Rattle.sheet_accounts.specs.Line.{account_line};

use rulebook::{Account, Shares};
use text::Buffer;

#[tactic(auto, unfolding(crate::specs::Line::account_line))]
pub fn put_line<const N: usize>(out: &mut Buffer<N>, page: bool, account: Account, balance: Shares)
    requires { length out.old + 700 ≤ N }
    ensures put { out.new ≡ out.old ++ account_line page account balance.0 }
    ensures upper_bound { length out.new ≤ length out.old + 700 }
{
    text_or_page::put_written(
        out,
        page,
        b"ACCOUNT SECURITY # MEMBER # TYPE # (%) SHAREHOLDER # BALANCE #\n",
        b"<tr><td class=n>#</td><td class=n>#</td><td class=n>#</td><td>%</td><td class=n>#</td><td class=n>#</td></tr>\n",
        &[
            account.security,
            account.member,
            account.typ,
            account.typ,
            account.shareholder,
            balance.0,
        ],
    );
}

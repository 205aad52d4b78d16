// The lines of a statement's rows: of a posting row, and of a notice. Each has at most 512 bytes.
#![tactic(auto)]

ghost use Rattle.std.specs.Prelude.{◌++◌, ◌≡◌, ◌+◌, ◌≤◌, length};
ghost use Rattle.row_lines.specs.Rows.{side_word, cash_part, shares_part, posting_line, notice_line};

use rulebook::{Notice, Posting};
use text::Buffer;

#[tactic(auto, unfolding(crate::specs::Rows::side_word))]
fn put_side<const N: usize>(out: &mut Buffer<N>, credit: u64)
    requires { length out.old + 9 ≤ N }
    ensures put { out.new ≡ out.old ++ side_word credit }
    ensures upper_bound { length out.new ≤ length out.old + 9 }
{
    if credit == 1 {
        return out.put(b"  credit ");
    }
    out.put(b"  debit ");
}

// Cash of a member, or outside.
#[tactic(auto, unfolding(crate::specs::Rows::cash_part))]
fn put_cash<const N: usize>(out: &mut Buffer<N>, p: Posting)
    requires { length out.old + 500 ≤ N }
    ensures put { out.new ≡ out.old ++ cash_part p }
    ensures upper_bound { length out.new ≤ length out.old + 500 }
{
    let units = p.number / 100;
    let tenths = p.number % 100 / 10;
    let hundredths = p.number % 10;
    if p.member == 0 {
        return wording::put_filled(
            out,
            b"$ OUTSIDE #.##\n",
            &[p.what, units, tenths, hundredths],
        );
    }
    wording::put_filled(
        out,
        b"$ member # amount #.##\n",
        &[p.what, p.member, units, tenths, hundredths],
    );
}

// Shares of an account, or of the issued or the outside count.
#[tactic(auto, unfolding(crate::specs::Rows::shares_part))]
fn put_shares<const N: usize>(out: &mut Buffer<N>, p: Posting)
    requires { length out.old + 500 ≤ N }
    ensures put { out.new ≡ out.old ++ shares_part p }
    ensures upper_bound { length out.new ≤ length out.old + 500 }
{
    if p.typ == 90 {
        return wording::put_filled(out, b"security # ISSUED #\n", &[p.what, p.number]);
    }
    if p.typ == 91 {
        return wording::put_filled(out, b"security # OUTSIDE #\n", &[p.what, p.number]);
    }
    wording::put_filled(
        out,
        b"security # member # type # shareholder # quantity #\n",
        &[p.what, p.member, p.typ, p.shareholder, p.number],
    );
}

// A posting row's line.
#[tactic(auto, unfolding(crate::specs::Rows::posting_line))]
pub fn put_posting<const N: usize>(out: &mut Buffer<N>, p: Posting)
    requires { length out.old + 512 ≤ N }
    ensures put { out.new ≡ out.old ++ posting_line p }
    ensures upper_bound { length out.new ≤ length out.old + 512 }
{
    put_side(out, p.credit);
    if p.cash == 1 {
        return put_cash(out, p);
    }
    put_shares(out, p);
}

// A notice's line.
#[tactic(auto, unfolding(crate::specs::Rows::notice_line))]
pub fn put_notice<const N: usize>(out: &mut Buffer<N>, n: Notice)
    requires { length out.old + 512 ≤ N }
    ensures put { out.new ≡ out.old ++ notice_line n }
    ensures upper_bound { length out.new ≤ length out.old + 512 }
{
    wording::put_filled(
        out,
        b"  notice, *: deliverer # reference #, receiver # reference #\n",
        &[
            n.kind,
            n.deliverer,
            n.deliver_reference,
            n.receiver,
            n.receive_reference,
        ],
    );
}

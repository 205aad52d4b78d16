// The lines of the rows that a call wrote into its area.
ghost use Rattle.std.specs.Prelude.{◌++◌, ◌≡◌, Bool, ◌+◌, ◌*◌, ◌≤◌, length};
ghost use Rattle.statement_lines.specs.Lines.{row_line, row_lines};

use text::Buffer;

// The line of a row's 16 bytes: a posting row, or else a notice.
#[tactic(auto, unfolding(crate::specs::Lines::row_line))]
fn put_row<const N: usize>(out: &mut Buffer<N>, posts: bool, row: &[u8])
    requires { (16 ≤ length row.now) × (length out.old + 512 ≤ N) }
    ensures put { out.new ≡ out.old ++ row_line posts row.now }
    ensures upper_bound { length out.new ≤ length out.old + 512 }
{
    if posts {
        return row_lines::put_posting(out, rows::posting_in(row));
    }
    row_lines::put_notice(out, rows::notice_in(row));
}

// The lines of the first rows of an area.
#[tactic(auto, unfolding(crate::specs::Lines::row_lines))]
pub fn put_rows<const N: usize>(out: &mut Buffer<N>, posts: bool, count: usize, area: &[u8])
    requires { (16 * count ≤ length area.now) × (length out.old + 512 * count ≤ N) }
    ensures put { out.new ≡ out.old ++ row_lines posts count area.now }
    ensures upper_bound { length out.new ≤ length out.old + 512 * count }
{
    for i in 0..count {
        let start = 16 * i;
        put_row(out, posts, &area[start..start + 16]);
    }
}

// The lines of a statement: of an answer, and of the rows that a call wrote. Each has at most 512 bytes.
#![tactic(auto)]

mod told;

ghost use Rattle.std.specs.Prelude.{◌++◌, ◌≡◌, ◌+◌, ◌≤◌, length};
ghost use Rattle.statement_lines.specs.Lines.{refused_line, answer_line};

use rulebook::{Counts, Refusal};
use text::Buffer;
pub use told::put_rows;

#[tactic(auto, unfolding(crate::specs::Lines::refused_line))]
fn put_refused<const N: usize>(out: &mut Buffer<N>, number: u64, form: u64, refusal: u64)
    requires { length out.old + 512 ≤ N }
    ensures put { out.new ≡ out.old ++ refused_line number form refusal }
    ensures upper_bound { length out.new ≤ length out.old + 512 }
{
    if form == 0 {
        return wording::put_filled(out, b"#: refused by #, !\n", &[number, refusal, refusal]);
    }
    wording::put_filled(
        out,
        b"# ^: refused by #, !\n",
        &[number, form, refusal, refusal],
    );
}

// A record's answer, with its form's name; form 0 is that of a record that does not read.
#[tactic(auto, unfolding(crate::specs::Lines::answer_line))]
pub fn put_answer<const N: usize>(
    out: &mut Buffer<N>,
    number: u64,
    form: u64,
    answer: Result<Counts, Refusal>,
)
    requires { length out.old + 512 ≤ N }
    ensures put { out.new ≡ out.old ++ answer_line number form answer }
    ensures upper_bound { length out.new ≤ length out.old + 512 }
{
    match answer {
        Ok(_) => wording::put_filled(out, b"# ^: accepted\n", &[number, form]),
        Err(refusal) => put_refused(out, number, form, refusal.into()),
    }
}

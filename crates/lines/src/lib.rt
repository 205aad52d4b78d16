// The lines of the printing program. Each function puts bytes into a buffer, behind those that were put.
#![tactic(auto)]

ghost use Rattle.std.specs.Prelude.{◌++◌, ◌≡◌, ◌+◌, ◌≤◌, length};
ghost use Rattle.rulebook.specs.Call.{answer_number, answer_rows};
ghost use Rattle.lines.specs.Lines.{answer_line, custody_line};

use rulebook::{Counts, Refusal, Security};
use text::Buffer;

#[tactic(auto, unfolding(rulebook::specs::Call::answer_number))]
fn number_of(answer: Result<Counts, Refusal>) -> u64
    ensures { result ≡ answer_number answer }
{
    match answer {
        Ok(_) => 0,
        Err(refusal) => refusal.into(),
    }
}

#[tactic(auto, unfolding(rulebook::specs::Call::answer_rows))]
fn rows_of(answer: Result<Counts, Refusal>) -> u64
    ensures { result ≡ answer_rows answer }
{
    match answer {
        Ok(counts) => counts.rows,
        Err(_) => 0,
    }
}

// A record's line: its number, the answer, rows.
#[tactic(auto, unfolding(crate::specs::Lines::answer_line))]
pub fn put_answer_line<const N: usize>(
    out: &mut Buffer<N>,
    number: u64,
    answer: Result<Counts, Refusal>,
)
    requires { length out.old + 63 ≤ N }
    ensures put { out.new ≡ out.old ++ answer_line number answer }
    ensures upper_bound { length out.new ≤ length out.old + 63 }
{
    out.put_number(number);
    out.put_figure(b" ", number_of(answer));
    out.put_figure(b" ", rows_of(answer));
    out.put(b"\n");
}

// A security's line.
#[tactic(auto, unfolding(crate::specs::Lines::custody_line))]
pub fn put_custody_line<const N: usize>(out: &mut Buffer<N>, security: Security)
    requires { length out.old + 112 ≤ N }
    ensures put { out.new ≡ out.old ++ custody_line security }
    ensures upper_bound { length out.new ≤ length out.old + 112 }
{
    out.put_figure(b"CUSTODY ", security.code);
    out.put_figure(b" ISSUED ", security.issued.0);
    out.put_figure(b" HELD ", security.held.0);
    out.put_figure(b" OUTSIDE ", security.outside.0);
    out.put(b"\n");
}

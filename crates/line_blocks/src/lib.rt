// Blocks of lines. A line that has no end in its block is left: its bytes start the next block.
#![tactic(auto)]

ghost use Rattle.std.specs.Prelude.{◌≡◌, ◌+◌, ◌*◌, ◌^◌, ◌≤◌, ◌<◌, length};
ghost use Rattle.cells.specs.Cells.{whole_lines};
ghost use Rattle.table.specs.Header.{Known};
ghost use Rattle.table.specs.Lines.{filled};
ghost use Rattle.table.specs.Blocks.{walk, met_in, used_of, checked_as, step_of, step_written, empty_line_at};

use cells::Kind;
use table::{Checked, Refused, Step, Wrong};

// Why an empty line is refused.
fn empty_line(line: u64) -> Refused
    ensures { result ≡ empty_line_at line }
{
    Refused {
        line,
        wrong: Wrong {
            kind: Kind::EmptyLine,
            column: 0,
            place: 18,
        },
    }
}

// One line, which has this number; the line `empty` is the first of the empty lines just before it.
fn step(
    line: &[u8],
    places: &[usize],
    number: u64,
    empty: Option<u64>,
    out: &mut [u8],
) -> Result<Step, Refused>
    requires { Known places.now × (40 ≤ length out.old) }
    ensures value { result ≡ step_of places.now number empty line.now }
    ensures out_after { out.new ≡ step_written places.now empty line.now out.old }
{
    if cells::is_empty(line) {
        return Ok(Step {
            empty: empty.or(Some(number)),
            wrote: 0,
        });
    }
    if let Some(first) = empty {
        return Err(empty_line(first));
    }
    match order_line::write_row(line, places, out) {
        Ok(_) => Ok(Step {
            empty: None,
            wrote: 40,
        }),
        Err(wrong) => Err(Refused {
            line: number,
            wrong,
        }),
    }
}

// Writes the records of the lines of a block that end in it, one behind the other. The first line has this number; the line `empty` is the
// first of the empty lines just before it.
pub fn convert_block(
    block: &[u8],
    places: &[usize],
    first: u64,
    empty: Option<u64>,
    out: &mut [u8],
) -> Result<Checked, Refused>
    requires { Known places.now × (first + length block.now < 2 ^ 64) × (20 * length block.now + 40 ≤ length out.old) }
    ensures value { result ≡ checked_as (used_of block.now) (walk places.now first empty (whole_lines block.now)) }
    ensures out_after { out.new ≡ filled (met_in (walk places.now first empty (whole_lines block.now))) out.old }
{
    let mut checked = Checked {
        used: 0,
        line: first,
        empty,
        wrote: 0,
    };
    while let Some(size) = block[checked.used..].iter().position(|b| *b == b'\n') {
        let text = &block[checked.used..checked.used + size];
        let next = step(
            text,
            places,
            checked.line,
            checked.empty,
            &mut out[checked.wrote..],
        )?;
        checked = Checked {
            used: checked.used + size + 1,
            line: checked.line + 1,
            empty: next.empty,
            wrote: checked.wrote + next.wrote,
        };
    }
    Ok(checked)
}

// The lines in the buffer, and what is left of it.
ghost use Rattle.std.specs.Prelude.{◌≡◌, ◌+◌, ◌≤◌, length, take, drop};
ghost use Rattle.table_buffer.specs.declared.Rest.TheVariants.{More};
ghost use Rattle.table_buffer.specs.Blocks.{Given, Goes, Recorded, Written, inside, ending, long_line_at};

use crate::{Converted, Next, Reading, Rest};
use cells::Kind;
use table::{Refused, Wrong};

// Moves so many bytes from a place on to the start of the buffer.
fn move_down(input: &mut [u8], from: usize, count: usize)
    requires { from + count ≤ length input.old }
    ensures { take count input.new ≡ take count (drop from input.old) }
{
    input.copy_within(from..from + count, 0);
}

// A line fills the buffer.
fn long_line(line: u64) -> Refused
    ensures { result ≡ long_line_at line }
{
    let wrong = Wrong {
        kind: Kind::LongLine,
        column: 0,
        place: 18,
    };
    Refused { line, wrong }
}

// A full buffer: its lines, and its tail moved to its start. A line that fills it is too long.
fn full(input: &mut [u8], out: &mut [u8], places: &[usize], reading: Reading) -> Converted
    requires { Given places.now input.old out.old reading × (reading.rest ≡ More) }
    ensures goes { Goes places.now reading input.old input.new result.next }
    ensures recorded { Recorded places.now reading (inside reading input.old) result.wrote out.old out.new }
{
    let from = reading.from;
    let size = reading.size;
    match line_blocks::convert_block(&input[from..size], places, reading.line, reading.empty, out) {
        Err(why) => Converted {
            next: Err(why),
            wrote: 0,
        },
        Ok(checked) => {
            let behind = from + checked.used;
            if behind == 0 {
                return Converted {
                    next: Err(long_line(checked.line)),
                    wrote: checked.wrote,
                };
            }
            let held = size - behind;
            move_down(input, behind, held);
            let next = Next::More {
                held,
                line: checked.line,
                empty: checked.empty,
            };
            Converted {
                next: Ok(next),
                wrote: checked.wrote,
            }
        }
    }
}

// The last bytes, with a line feed behind them: another empty line does no harm.
fn last(input: &mut [u8], out: &mut [u8], places: &[usize], reading: Reading) -> Converted
    requires { Given places.now input.old out.old reading }
    ensures goes { Goes places.now reading input.old input.new result.next }
    ensures recorded { Recorded places.now reading (ending reading input.old) result.wrote out.old out.new }
{
    let from = reading.from;
    let size = reading.size;
    input[size] = b'\n';
    match line_blocks::convert_block(
        &input[from..size + 1],
        places,
        reading.line,
        reading.empty,
        out,
    ) {
        Err(why) => Converted {
            next: Err(why),
            wrote: 0,
        },
        Ok(checked) => {
            let next = Next::Ended { line: checked.line };
            Converted {
                next: Ok(next),
                wrote: checked.wrote,
            }
        }
    }
}

// The lines in the buffer, whether more may follow them or the file ended there.
pub fn convert(input: &mut [u8], out: &mut [u8], places: &[usize], reading: Reading) -> Converted
    requires { Given places.now input.old out.old reading }
    ensures goes { Goes places.now reading input.old input.new result.next }
    ensures written { Written places.now reading input.old result.wrote out.old out.new }
{
    match reading.rest {
        Rest::Ended => last(input, out, places, reading),
        Rest::More => full(input, out, places, reading),
    }
}

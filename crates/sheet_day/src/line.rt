// The day's line.
ghost use Rattle.std.specs.Prelude.{◌++◌, ◌≡◌, ◌+◌, ◌≤◌, length};
ghost use Rattle.sheet_day.specs.DayLine.{open_or_closed, unanswered, rest_of_line, day_line};

use rulebook::{Day, Rate};
use text::Buffer;

fn put_open_or_closed<const N: usize>(out: &mut Buffer<N>, page: bool, opened: bool)
    requires { length out.old + 60 ≤ N }
    ensures put { out.new ≡ out.old ++ open_or_closed page opened }
    ensures upper_bound { length out.new ≤ length out.old + 60 }
{
    if opened {
        return text_or_page::put_words(out, page, b"OPEN", b"<td>open");
    }
    text_or_page::put_words(out, page, b"CLOSED", b"<td>closed");
}

// That a cycle is sent which nobody has answered (RULES 4.16).
fn put_unanswered<const N: usize>(out: &mut Buffer<N>, page: bool, sent: bool)
    requires { length out.old + 80 ≤ N }
    ensures put { out.new ≡ out.old ++ unanswered page sent }
    ensures upper_bound { length out.new ≤ length out.old + 80 }
{
    text_or_page::put_where(
        out,
        page,
        sent,
        b" WITH A CYCLE SENT AND NOT ANSWERED",
        b", with a cycle sent and not answered",
    );
}

// Kind, cycles run, the last minute, the rate.
fn put_rest<const N: usize>(
    out: &mut Buffer<N>,
    page: bool,
    kind: u64,
    cycles: u64,
    last: u64,
    rate: u64,
)
    requires { length out.old + 900 ≤ N }
    ensures put { out.new ≡ out.old ++ rest_of_line page kind cycles last rate }
    ensures upper_bound { length out.new ≤ length out.old + 900 }
{
    let hour = last / 60;
    let minute = last % 60;
    text_or_page::put_written(
        out,
        page,
        b" KIND # CYCLES # LAST MINUTE ##:## RATE #.##\n",
        b"</td><td class=n>#</td><td class=n>#</td><td class=n>##:##</td><td class=n>#.##</td></tr>\n",
        &[
            kind,
            cycles,
            hour / 10,
            hour % 10,
            minute / 10,
            minute % 10,
            rate / 100,
            rate % 100 / 10,
            rate % 10,
        ],
    );
}

// Number, state, whether a cycle is sent, kind, cycles run, the last minute, the rate.
#[tactic(auto, unfolding(crate::specs::DayLine::day_line))]
pub fn put_line<const N: usize>(out: &mut Buffer<N>, page: bool, day: Day, rate: Rate)
    requires { length out.old + 1200 ≤ N }
    ensures put { out.new ≡ out.old ++ day_line page day rate.0 }
    ensures upper_bound { length out.new ≤ length out.old + 1200 }
{
    text_or_page::put_one(out, page, b"DAY # ", b"<tr><td class=n>#</td>", day.number);
    put_open_or_closed(out, page, day.opened);
    put_unanswered(out, page, day.sent);
    put_rest(out, page, day.kind, day.cycles, day.minute, rate.0);
}

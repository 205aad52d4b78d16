// The sheet's heading and the day: lines of text, or a heading and a table of a page.
#![tactic(auto)]

mod line;

ghost use Rattle.std.specs.Prelude.{◌++◌, ◌≡◌, ◌+◌, ◌≤◌, length};
ghost use Rattle.book.specs.Meaning.{ledger_of};
ghost use Rattle.book.specs.Stored.{Kept};
ghost use Rattle.text_or_page.specs.Table.{table_of};
ghost use Rattle.sheet_day.specs.DayLine.{heading, day_line, day_head};

use text::Buffer;

// What stands above the row of a page.
const HEAD: [u8; 187] =
    *b"<table>\n<thead><tr><th class=n>Day</th><th>State</th><th class=n>Kind</th><th class=n>Cycles run</th><th class=n>Last minute</th>\
    <th class=n>Rate, LBP for 1 USD</th></tr></thead>\n<tbody>\n";

// The sheet's heading.
#[tactic(auto, unfolding(crate::specs::DayLine::heading))]
pub fn put_heading<const N: usize>(out: &mut Buffer<N>, page: bool, day: u64)
    requires { length out.old + 150 ≤ N }
    ensures put { out.new ≡ out.old ++ heading page day }
    ensures upper_bound { length out.new ≤ length out.old + 150 }
{
    text_or_page::put_one(
        out,
        page,
        b"HANDOVER SHEET DAY #\n",
        b"<h1>Handover sheet, day #</h1>\n",
        day,
    );
}

// The day.
pub fn put_day<const N: usize>(out: &mut Buffer<N>, page: bool, book: &[u64])
    requires { Kept book.now × (length out.old + 1800 ≤ N) }
    ensures put { out.new ≡ out.old ++ table_of page day_head (day_line page (ledger_of book.now).day (ledger_of book.now).rate) }
    ensures upper_bound { length out.new ≤ length out.old + 1800 }
{
    text_or_page::put_in_page(out, page, &HEAD);
    let day = reading::day(book);
    let rate = reading::rate(book);
    line::put_line(out, page, day, rate);
    text_or_page::put_foot(out, page);
}

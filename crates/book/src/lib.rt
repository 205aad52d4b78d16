// The book: one buffer of words that the caller owns and lends, in regions. A region's functions are lent that region alone.
#![tactic(auto)]

ghost use Rattle.std.specs.Prelude.{◌≡◌, ◌≤◌, length, get_or};
ghost use Rattle.rulebook.specs.Ledger.{put_day, put_rate};
ghost use Rattle.book.specs.Meaning.{day_in, rate_in, ledger_of};
ghost use Rattle.book.specs.Stored.{Stored, Becomes};
ghost use Rattle.book.specs.Fresh.{Freshened};

use rulebook::{Day, Rate};

// Where each region starts: behind the one before it.
pub const DAY: usize = 0;

pub const SECURITIES: usize = DAY + 8;

pub const ACCOUNTS: usize = SECURITIES + 129;

pub const CASH: usize = ACCOUNTS + 513;

pub const ITEMS: usize = CASH + 128;

pub const RATE: usize = ITEMS + 1025;

pub const REQUESTS: usize = RATE + 1;

pub const END: usize = REQUESTS + 49;

// The rate as long as none was set.
const FIRST_RATE: u64 = 150_750;

// How many words a book has.
pub const WORDS: usize = END;

// ---- the day

// The day that a region of 8 words holds.
fn day_in(day: &[u64]) -> Day
    requires { length day.now ≡ 8 }
    ensures { result ≡ day_in day.now }
{
    let opened = day[1] == 1;
    let sent = day[5] == 1;
    Day {
        number: day[0],
        opened: opened,
        kind: day[2],
        cycles: day[3],
        minute: day[4],
        sent: sent,
    }
}

// The day goes into a region of 8 words.
fn put_day_in(words: &mut [u64], day: Day)
    requires { length words.old ≡ 8 }
    ensures { (day_in words.new ≡ day) × (get_or words.new 1 0 ≤ 1) }
{
    let opened = u64::from(day.opened);
    let sent = u64::from(day.sent);
    let values = [day.number, opened, day.kind, day.cycles, day.minute, sent];
    words::write(words, 0, &values);
}

// The day.
pub fn day(book: &[u64]) -> Day
    requires { Stored book.now }
    ensures { result ≡ (ledger_of book.now).day }
{
    day_in(&book[DAY..SECURITIES])
}

// The book's day becomes `day`.
pub fn put_day(book: &mut [u64], day: Day)
    requires { Stored book.old }
    ensures { Becomes (put_day day) book.old book.new }
{
    put_day_in(&mut book[DAY..SECURITIES], day);
}

// ---- the rate

// The rate that a region of one word holds.
fn rate_in(rate: &[u64]) -> Rate
    requires { length rate.now ≡ 1 }
    ensures { result.0 ≡ rate_in rate.now }
{
    Rate(rate[0])
}

// The rate goes into a region of one word.
fn put_rate_in(words: &mut [u64], rate: Rate)
    requires { length words.old ≡ 1 }
    ensures { rate_in words.new ≡ rate.0 }
{
    words[0] = rate.0;
}

// The rate.
pub fn rate(book: &[u64]) -> Rate
    requires { Stored book.now }
    ensures { result.0 ≡ (ledger_of book.now).rate }
{
    rate_in(&book[RATE..REQUESTS])
}

// The book's rate becomes `rate`.
pub fn put_rate(book: &mut [u64], rate: Rate)
    requires { Stored book.old }
    ensures { Becomes (put_rate rate.0) book.old book.new }
{
    put_rate_in(&mut book[RATE..REQUESTS], rate);
}

// ---- the fresh book

// The fresh book, in a buffer of a book's length. Another one is left as it is.
pub fn fresh(book: &mut [u64]) -> bool
    ensures { Freshened book.old result book.new }
{
    if book.len() != END {
        return false;
    }
    book.fill(0);
    put_rate(book, Rate(FIRST_RATE));
    true
}

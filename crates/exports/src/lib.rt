// What C and Rust programs call: numbers, and slices as a pointer and a length. include/depository.h declares these functions.
#![tactic(auto)]

ghost use Rattle.std.specs.Prelude.{◌≡◌, ◌∷◌, [], length};
ghost use Rattle.rulebook.specs.Ledger as Ledger;
ghost use Rattle.book.specs.Meaning.{ledger_of};
ghost use Rattle.figures.specs.Figures.{day_figures, size_figures, security_figures, request_figures, item_figures};
ghost use Rattle.exports.specs.Lent.{field_words, FreshIn};
ghost use Rattle.exports.specs.Words.{fields_read, CalledWith, ReadInto, WrittenFrom};
ghost use Rattle.telling.specs.Told.{Lent, number_in, Tells, TellsAt};

use rulebook::{Account, Order};
use telling::Wrong;

// What is answered for a buffer of a wrong length: numbers above every refusal's, which the C interface has.
const WRONG_BOOK: u64 = Wrong::Book as u64;

const WRONG_COUNTS: u64 = 1002;

const WRONG_FIELDS: u64 = 1003;

const COUNT_WORDS: usize = 6;

const FIELD_WORDS: usize = 18;

// ---- the ledger's calls

// 0 where the buffer has a book's length and now holds a fresh book; else the buffer is as it was.
#[unsafe(no_mangle)]
pub extern "C" fn depository_fresh(book: &mut [u64]) -> u64
    ensures { FreshIn book.old result book.new }
{
    if ledger::fresh(book) {
        return 0;
    }
    WRONG_BOOK
}

// One call. 0 where it is accepted, with its six counts; else the number, and counts, book and area are as they were.
#[unsafe(no_mangle)]
pub extern "C" fn depository_call(
    book: &mut [u64],
    record: &[u8],
    area: &mut [u8],
    counts: &mut [u64],
) -> u64
    requires { Lent book.old }
    ensures { CalledWith book.old «record».now area.old counts.old result
        book.new area.new counts.new }
{
    if book.len() != ledger::BOOK_WORDS {
        return WRONG_BOOK;
    }
    if counts.len() != COUNT_WORDS {
        return WRONG_COUNTS;
    }
    match ledger::call(book, record, area) {
        Ok(c) => {
            figures::put_counts(counts, c);
            0
        }
        Err(refusal) => refusal.into(),
    }
}

// ---- records alone

// An order's fields as words, in the record's order.
fn put_fields(words: &mut [u64], order: Order)
    requires { length words.old ≡ field_words }
    ensures { words.new ≡ fields_read (Ok order) words.old }
{
    let fields = layout::fields_of(order);
    words::write(words, 0, &fields[..FIELD_WORDS]);
}

// 0 and the record's fields; else the number, and the fields are as they were.
#[unsafe(no_mangle)]
pub extern "C" fn depository_read(record: &[u8], fields: &mut [u64]) -> u64
    ensures { ReadInto «record».now fields.old result fields.new }
{
    if fields.len() != FIELD_WORDS {
        return WRONG_FIELDS;
    }
    match record::read(record) {
        Ok(order) => {
            put_fields(fields, order);
            0
        }
        Err(refusal) => refusal.into(),
    }
}

// 0 and the order's 40 bytes at the area's start; else the number, and the area is as it was.
#[unsafe(no_mangle)]
pub extern "C" fn depository_write(fields: &[u64], area: &mut [u8]) -> u64
    ensures { WrittenFrom fields.now area.old result area.new }
{
    if fields.len() != FIELD_WORDS {
        return WRONG_FIELDS;
    }
    match record::write(layout::order_of(fields), area) {
        Ok(()) => 0,
        Err(refusal) => refusal.into(),
    }
}

// ---- what a book says

// 0 where all is told; else the number of what is wrong.
fn number_of(told: Result<(), Wrong>) -> u64
    ensures { result ≡ number_in told }
{
    match told {
        Err(wrong) => wrong.into(),
        Ok(_) => 0,
    }
}

// The day: number, 1 where it is open, kind, cycles run, last minute, 1 where a cycle is sent.
#[unsafe(no_mangle)]
pub extern "C" fn depository_day(book: &[u64], values: &mut [u64]) -> u64
    requires { Lent book.now }
    ensures { Tells book.now values.old (day_figures (ledger_of book.now).day) result values.new }
{
    number_of(telling::day(book, values))
}

// The rate: hundredths of LBP for one USD.
#[unsafe(no_mangle)]
pub extern "C" fn depository_rate(book: &[u64], values: &mut [u64]) -> u64
    requires { Lent book.now }
    ensures { Tells book.now values.old ((ledger_of book.now).rate ∷ []) result values.new }
{
    number_of(telling::rate(book, values))
}

// How many securities are admitted, how many accounts there are, how many items wait, how many requests for paper are open.
#[unsafe(no_mangle)]
pub extern "C" fn depository_sizes(book: &[u64], values: &mut [u64]) -> u64
    requires { Lent book.now }
    ensures { Tells book.now values.old (size_figures (ledger_of book.now)) result values.new }
{
    number_of(telling::sizes(book, values))
}

// The security at a place, in order of admission: code, issued, held, outside, a custody line's four figures.
#[unsafe(no_mangle)]
pub extern "C" fn depository_security(book: &[u64], place: usize, values: &mut [u64]) -> u64
    requires { Lent book.now }
    ensures { TellsAt book.now values.old 4 (security_figures (ledger_of book.now).holdings)
        place (ledger_of book.now).holdings.securities result values.new }
{
    number_of(telling::security(book, place, values))
}

// What a security's accounts hold.
#[unsafe(no_mangle)]
pub extern "C" fn depository_held(book: &[u64], security: u64, values: &mut [u64]) -> u64
    requires { Lent book.now }
    ensures { Tells book.now values.old (Ledger.held security (ledger_of book.now).holdings ∷ [])
        result values.new }
{
    number_of(telling::held(book, security, values))
}

// An account's balance.
#[unsafe(no_mangle)]
pub extern "C" fn depository_balance(
    book: &[u64],
    security: u64,
    member: u64,
    typ: u64,
    shareholder: u64,
    values: &mut [u64],
) -> u64
    requires { Lent book.now }
    ensures { Tells book.now values.old
        ((ledger_of book.now).holdings.balance (record { security = security; member = member; typ = typ; shareholder = shareholder }) ∷ [])
        result values.new }
{
    let account = Account {
        security,
        member,
        typ,
        shareholder,
    };
    number_of(telling::balance(book, account, values))
}

// A member's cash in a currency.
#[unsafe(no_mangle)]
pub extern "C" fn depository_cash(
    book: &[u64],
    member: u64,
    currency: u64,
    values: &mut [u64],
) -> u64
    requires { Lent book.now }
    ensures { Tells book.now values.old ((ledger_of book.now).holdings.cash member currency ∷ [])
        result values.new }
{
    number_of(telling::cash(book, member, currency, values))
}

// The waiting item at a place, in order of arrival.
#[unsafe(no_mangle)]
pub extern "C" fn depository_item(book: &[u64], place: usize, values: &mut [u64]) -> u64
    requires { Lent book.now }
    ensures { TellsAt book.now values.old 18 item_figures place (ledger_of book.now).waiting
        result values.new }
{
    number_of(telling::item(book, place, values))
}

// The request for paper that a member has open under a reference.
#[unsafe(no_mangle)]
pub extern "C" fn depository_request(
    book: &[u64],
    member: u64,
    reference: u64,
    values: &mut [u64],
) -> u64
    requires { Lent book.now }
    ensures { Tells book.now values.old (request_figures ((ledger_of book.now).requests.asked member reference))
        result values.new }
{
    number_of(telling::request(book, member, reference, values))
}

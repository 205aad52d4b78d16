// The legs of the waiting trades, of shares or of cash, in columns of 64 words: what is debited, what is credited, how many.
#![tactic(auto)]

mod figures;
mod shortfall;

ghost use Rattle.std.specs.Prelude.{◌≡◌, ℕ, ◌+◌, ◌*◌, ◌≤◌, ◌<◌, length, set};
ghost use Rattle.book.specs.Meaning.{ledger_of};
ghost use Rattle.book.specs.Stored.{Stored};
ghost use Rattle.legs.specs.Figures.{TO, NUMBER, OWES, cash_key};
ghost use Rattle.marks.specs.Marks.{item_in};
ghost use Rattle.legs.specs.Filled.{ShareLeg, CashLeg, leg_in, Started};
ghost use Rattle.legs.specs.Ready.{Ready};

pub use figures::{Legs, NOWHERE};
pub use shortfall::last_short;

pub const TO: usize = 64;

const NUMBER: usize = 128;

const OWES: usize = 64;

// What a trade moves of shares or of cash, as words: what it debits, what it credits, how many, and what there is of what it debits.
#[derive(Clone, Copy)]
pub struct Leg {
    pub from: u64,
    pub to: u64,
    pub number: u64,
    pub has: u64,
}

// What the trade at `i` moves of shares.
pub fn share_leg(book: &[u64], i: usize) -> Leg
    requires { Stored book.now × Ready (ledger_of book.now) × (i < length (ledger_of book.now).waiting) }
    ensures { ShareLeg (ledger_of book.now) (item_in (ledger_of book.now).waiting i) result }
{
    let trade = book_items::item_at(book, i);
    let seller = parties::seller_of(trade);
    let from = book_holdings::key_of(seller);
    let to = book_holdings::key_of(parties::buyer_of(trade));
    let balance = book_holdings::balance(book, seller);
    Leg {
        from,
        to,
        number: trade.quantity.0,
        has: balance.0,
    }
}

// A member's cash in a currency as one number.
fn cash_key(member: u64, currency: u64) -> u64
    requires { (member ≤ 64) × (currency ≤ 2) }
    ensures { result ≡ cash_key member currency }
{
    member * 4 + currency
}

// What it moves of cash.
pub fn cash_leg(book: &[u64], i: usize) -> Leg
    requires { Stored book.now × Ready (ledger_of book.now) × (i < length (ledger_of book.now).waiting) }
    ensures { CashLeg (ledger_of book.now) (item_in (ledger_of book.now).waiting i) result }
{
    let trade = book_items::item_at(book, i);
    let payer = trade.credited.member;
    let from = cash_key(payer, trade.currency);
    let to = cash_key(trade.debited.member, trade.currency);
    let cash = book_holdings::cash(book, payer, trade.currency);
    Leg {
        from,
        to,
        number: trade.amount.0,
        has: cash.0,
    }
}

// The leg of the trade at `i` in its columns.
fn put_leg(legs: &mut [u64], i: usize, leg: Leg)
    requires { (length legs.old ≡ 192) × (i < 64) }
    ensures { legs.new ≡ set (set (set legs.old i leg.from) (i + TO) leg.to) (i + NUMBER) leg.number }
{
    legs[i] = leg.from;
    legs[i + TO] = leg.to;
    legs[i + NUMBER] = leg.number;
}

// What the leg at `i` debits starts with what there is of it, and owes nothing.
fn start(figures: &mut [u64], i: usize, has: u64)
    requires { (length figures.old ≡ 128) × (i < 64) }
    ensures { figures.new ≡ set (set figures.old i has) (i + OWES) 0 }
{
    figures[i] = has;
    figures[i + OWES] = 0;
}

// The legs of `n` trades, and the figures of what they debit before any is added.
pub fn fill<F: Fn(usize) -> Leg>(legs: &mut [u64], figures: &mut [u64], n: usize, leg_of: F)
    requires size { (length legs.old ≡ 192) × (length figures.old ≡ 128) × (n ≤ 64) }
    requires asked { (i : ℕ) → i < n → F.pre leg_of i }
    ensures filled { (k : ℕ) → k < n → F.post leg_of k (leg_in legs.new figures.new k) }
    ensures started { Started n legs.new figures.new }
{
    for i in 0..n {
        let leg = leg_of(i);
        put_leg(legs, i, leg);
        start(figures, i, leg.has);
    }
}

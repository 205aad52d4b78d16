// Posting rows and notices, 16 bytes each, and the counts that are answered with them. The area that a function is lent starts at the next free
// byte; the bytes after its rows are kept.
#![tactic(auto)]

mod reading;

ghost use Rattle.std.specs.Prelude.{◌≡◌, [], ◌∷◌, ◌++◌, ◌≤◌, length, drop};
ghost use Rattle.rulebook.specs.Movements.{account, cash_of, move};
ghost use Rattle.rulebook.specs.Cycle.{legs};
ghost use Rattle.rulebook.specs.Rows.{posting_bytes, posting_of, posting_rows, notice, notice_of, rows_bytes, deliver_reference, receive_reference};
ghost use Rattle.rulebook.specs.Forms.{counts};
ghost use Rattle.rulebook.specs.Ranges.{AccountInRange};
ghost use Rattle.rows.specs.Widths.{PostingFits, NoticeFits, CashInRange, TradeInRange};

pub use reading::{notice_in, posting_in};
use rulebook::{Account, Cents, Counts, Item, Notice, Posting, Shares, State};

const POSTING_WIDTHS: [usize; 7] = [1, 1, 14, 10, 8, 30, 64];

const NOTICE_WIDTHS: [usize; 6] = [4, 10, 10, 32, 32, 40];

fn write_posting(area: &mut [u8], p: Posting)
    requires { (16 ≤ length area.old) × PostingFits p }
    ensures { area.new ≡ posting_bytes p ++ drop 16 area.old }
{
    let values = [
        p.credit,
        p.cash,
        p.what,
        p.member,
        p.typ,
        p.shareholder,
        p.number,
    ];
    bits::pack_bits(area, &POSTING_WIDTHS, &values);
}

// The two rows of a movement, the debit's before the credit's.
fn write_movement(area: &mut [u8], debit: Posting, credit: Posting)
    requires { (32 ≤ length area.old) × PostingFits debit × PostingFits credit }
    ensures { area.new ≡ (posting_bytes debit ++ posting_bytes credit) ++ drop 32 area.old }
{
    write_posting(area, debit);
    write_posting(&mut area[16..], credit);
}

#[tactic(auto, unfolding(rulebook::specs::Rows::posting_of))]
fn shares_row(credit: u64, a: Account, quantity: Shares) -> Posting
    ensures { result ≡ posting_of credit (account a) quantity.0 }
{
    Posting {
        credit,
        cash: 0,
        what: a.security,
        member: a.member,
        typ: a.typ,
        shareholder: a.shareholder,
        number: quantity.0,
    }
}

#[tactic(auto, unfolding(rulebook::specs::Rows::posting_of))]
fn cash_row(credit: u64, member: u64, currency: u64, amount: Cents) -> Posting
    ensures { result ≡ posting_of credit (cash_of member currency) amount.0 }
{
    Posting {
        credit,
        cash: 1,
        what: currency,
        member,
        typ: 0,
        shareholder: 0,
        number: amount.0,
    }
}

// Shares go from one account to another; types 90 and 91 count as accounts here.
pub fn write_shares(area: &mut [u8], from: Account, to: Account, quantity: Shares)
    requires { (32 ≤ length area.old) × AccountInRange from × AccountInRange to }
    ensures { area.new ≡ rows_bytes (posting_rows (move (account from) (account to) quantity.0 ∷ [])) ++ drop 32 area.old }
{
    write_movement(
        area,
        shares_row(0, from, quantity),
        shares_row(1, to, quantity),
    );
}

// Cash goes from one member to another; member 0 stands for cash that is not in the book.
pub fn write_cash(area: &mut [u8], currency: u64, from: u64, to: u64, amount: Cents)
    requires { (32 ≤ length area.old) × CashInRange from currency × CashInRange to currency }
    ensures { area.new ≡ rows_bytes (posting_rows (move (cash_of from currency) (cash_of to currency) amount.0 ∷ [])) ++ drop 32 area.old }
{
    write_movement(
        area,
        cash_row(0, from, currency, amount),
        cash_row(1, to, currency, amount),
    );
}

// A settled trade's four rows: shares, then cash.
pub fn write_trade(area: &mut [u8], trade: Item)
    requires { (64 ≤ length area.old) × TradeInRange trade }
    ensures { area.new ≡ rows_bytes (posting_rows (legs (trade ∷ []))) ++ drop 64 area.old }
{
    let seller = parties::seller_of(trade);
    let buyer = parties::buyer_of(trade);
    write_shares(area, seller, buyer, trade.quantity);
    let payer = trade.credited.member;
    let payee = trade.debited.member;
    write_cash(&mut area[32..], trade.currency, payer, payee, trade.amount);
}

#[tactic(auto, unfolding(rulebook::specs::Rows::deliver_reference))]
fn deliver_reference(state: State) -> u64
    ensures { result ≡ deliver_reference state }
{
    match state {
        State::Single {
            delivers: true,
            reference,
        }
        | State::Trade { reference } => reference,
        State::Single { .. } => 0,
        State::Pair {
            deliver_reference,
            ..
        } => deliver_reference,
    }
}

#[tactic(auto, unfolding(rulebook::specs::Rows::receive_reference))]
fn receive_reference(state: State) -> u64
    ensures { result ≡ receive_reference state }
{
    match state {
        State::Single {
            delivers: false,
            reference,
        }
        | State::Trade { reference } => reference,
        State::Single { .. } => 0,
        State::Pair {
            receive_reference,
            ..
        } => receive_reference,
    }
}

#[tactic(auto, unfolding(rulebook::specs::Rows::notice_of))]
fn notice_of(kind: u64, item: Item) -> Notice
    ensures { result ≡ notice_of kind item }
{
    Notice {
        kind,
        deliverer: item.debited.member,
        receiver: item.credited.member,
        deliver_reference: deliver_reference(item.state),
        receive_reference: receive_reference(item.state),
    }
}

// The notice with which an item leaves.
pub fn write_notice(area: &mut [u8], kind: u64, item: Item)
    requires { (16 ≤ length area.old) × NoticeFits (notice_of kind item) }
    ensures { area.new ≡ rows_bytes (notice (notice_of kind item) ∷ []) ++ drop 16 area.old }
{
    let n = notice_of(kind, item);
    let values = [
        n.kind,
        n.deliverer,
        n.receiver,
        n.deliver_reference,
        n.receive_reference,
        0,
    ];
    bits::pack_bits(area, &NOTICE_WIDTHS, &values);
}

// The counts of a form that writes no row; one that does stores its own into them.
#[tactic(auto, unfolding(rulebook::specs::Forms::counts))]
pub fn no_counts() -> Counts
    ensures { result ≡ counts 0 0 0 0 0 0 }
{
    Counts {
        rows: 0,
        settled: 0,
        cancelled: 0,
        deleted: 0,
        suspended: 0,
        left: 0,
    }
}

// A movement is written as two rows, and nothing else is counted.
#[tactic(auto, unfolding(rulebook::specs::Forms::counts))]
pub fn two_rows() -> Counts
    ensures { result ≡ counts 2 0 0 0 0 0 }
{
    Counts {
        rows: 2,
        ..no_counts()
    }
}

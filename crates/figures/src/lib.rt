// A call's counts and what a book says, as words in a buffer of the right length.
#![tactic(auto)]

ghost use Rattle.std.specs.Prelude.{◌≡◌, length};
ghost use Rattle.figures.specs.Figures.{count_figures, day_figures, security_with, request_figures, state_figures, item_figures};

use rulebook::{Counts, Day, Item, Request, Security, State};

// A waiting item's state: 1 deliver, 2 receive, 3 pair, 4 exchange trade; its references, and which halves of a pair are marked.
#[derive(Clone, Copy)]
pub struct StateFigures {
    pub state: u64,
    pub reference: u64,
    pub second: u64,
    pub deliver_marked: u64,
    pub receive_marked: u64,
}

// The counts of an accepted call go into 6 words.
pub fn put_counts(values: &mut [u64], c: Counts)
    requires { length values.old ≡ 6 }
    ensures { values.new ≡ count_figures c }
{
    let figures = [
        c.rows,
        c.settled,
        c.cancelled,
        c.deleted,
        c.suspended,
        c.left,
    ];
    words::write(values, 0, &figures);
}

// The day goes into 6 words; the last is 1 where a cycle is sent (RULES 4.16).
pub fn put_day(values: &mut [u64], day: Day)
    requires { length values.old ≡ 6 }
    ensures { values.new ≡ day_figures day }
{
    let opened = words::bit_of(day.opened);
    let sent = words::bit_of(day.sent);
    let figures = [day.number, opened, day.kind, day.cycles, day.minute, sent];
    words::write(values, 0, &figures);
}

// A security goes into 4 words, with the held count that it keeps.
pub fn put_security(values: &mut [u64], security: Security)
    requires { length values.old ≡ 4 }
    ensures { values.new ≡ security_with security security.held.0 }
{
    let figures = [
        security.code,
        security.issued.0,
        security.held.0,
        security.outside.0,
    ];
    words::write(values, 0, &figures);
}

// A request for paper goes into 5 words.
pub fn put_request(values: &mut [u64], request: Request)
    requires { length values.old ≡ 5 }
    ensures { values.new ≡ request_figures request }
{
    let figures = [
        request.security,
        request.typ,
        request.shareholder,
        request.quantity.0,
        request.day,
    ];
    words::write(values, 0, &figures);
}

fn state_figures(s: State) -> StateFigures
    ensures { result ≡ state_figures s }
{
    match s {
        State::Single {
            delivers,
            reference,
        } => StateFigures {
            state: 2 - words::bit_of(delivers),
            reference: reference,
            second: 0,
            deliver_marked: 0,
            receive_marked: 0,
        },
        State::Pair {
            deliver_reference,
            receive_reference,
            deliver_marked,
            receive_marked,
        } => StateFigures {
            state: 3,
            reference: deliver_reference,
            second: receive_reference,
            deliver_marked: words::bit_of(deliver_marked),
            receive_marked: words::bit_of(receive_marked),
        },
        State::Trade { reference } => StateFigures {
            state: 4,
            reference: reference,
            second: 0,
            deliver_marked: 0,
            receive_marked: 0,
        },
    }
}

// An item goes into 18 words; the last is 1 where a sent cycle has fixed it (RULES 9.19).
pub fn put_item(values: &mut [u64], item: Item)
    requires { length values.old ≡ 18 }
    ensures { values.new ≡ item_figures item }
{
    let state = item.state;
    let s = state_figures(state);
    let sent = words::bit_of(item.sent);
    let figures = [
        item.security,
        item.currency,
        item.debited.member,
        item.debited.typ,
        item.debited.shareholder,
        item.credited.member,
        item.credited.typ,
        item.credited.shareholder,
        item.quantity.0,
        item.amount.0,
        item.trade_day,
        item.settlement_day,
        s.state,
        s.reference,
        s.second,
        s.deliver_marked,
        s.receive_marked,
        sent,
    ];
    words::write(values, 0, &figures);
}

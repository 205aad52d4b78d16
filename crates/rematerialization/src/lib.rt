// Forms 19 and 20: a request for paper, and its ending.
#![tactic(auto)]

ghost use Rattle.std.specs.Prelude.{◌≡◌};
ghost use Rattle.rulebook.specs.Forms.{new_request, request_paper, end_request};
ghost use Rattle.book.specs.Meaning.{ledger_of};
ghost use Rattle.book.specs.Handled.{Handled};
ghost use Rattle.checking.specs.Given.{Accepted};

use rulebook::{Counts, Order, Request};

// The request that an order makes today.
fn new_request(today: u64, order: Order) -> Request
    ensures { result ≡ new_request today order }
{
    let quantity = order.quantity;
    Request {
        security: order.security,
        typ: order.debited.typ,
        shareholder: order.debited.shareholder,
        quantity,
        day: today,
    }
}

// 19. The request is opened, and its shares go to the type of requests.
pub fn request_paper(book: &mut [u64], order: Order, area: &mut [u8]) -> Counts
    requires { Accepted book.old order area.old × (order.form ≡ 19) }
    ensures { Handled (request_paper (ledger_of book.old) order) book.new area.old area.new result }
{
    let member = order.debited.member;
    let today = book::day(book);
    let request = new_request(today.number, order);
    let from = parties::account_of(order.security, order.debited);
    let to = parties::requested_account(order);
    book_requests::open_request(book, member, order.reference, request);
    booking::shift(book, area, from, to, order.quantity)
}

// 20. The request is ended, and its shares go to the credited type, or leave.
pub fn end_request(book: &mut [u64], order: Order, area: &mut [u8]) -> Counts
    requires { Accepted book.old order area.old × (order.form ≡ 20) }
    ensures { Handled (end_request (ledger_of book.old) order) book.new area.old area.new result }
{
    let member = order.debited.member;
    let request = book_requests::request(book, member, order.reference);
    let from = parties::awaiting_account(member, request);
    book_requests::end_request(book, member, order.reference);
    if types::is_outside(order.credited.typ) {
        return booking::leave(book, area, from, request.quantity);
    }
    let to = parties::request_account(order.credited.typ, member, request);
    booking::shift(book, area, from, to, request.quantity)
}

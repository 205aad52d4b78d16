// Refusals 19 to 21: what the order says of an open request.
#![tactic(auto)]

ghost use Rattle.std.specs.Prelude.{◌≡◌};
ghost use Rattle.plain.specs.Lists.{first};
ghost use Rattle.rulebook.specs.Answers.{number_in};
ghost use Rattle.rulebook.specs.Ledger.{Requests};
ghost use Rattle.rulebook.specs.Forms.{request_of};
ghost use Rattle.rulebook.specs.Refusals.{wrong_request, ends_too_soon, too_many_requests, request_tests};
ghost use Rattle.book.specs.Meaning.{ledger_of};
ghost use Rattle.book.specs.Stored.{Stored};
ghost use Rattle.checking.specs.Given.{WasRead};

use rulebook::{Order, Refusal, Request};

// RULES 7.19: a reference that the member has open, or one to end that it has not, or that the credited type does not end.
fn wrong_request(order: Order, request: Request) -> bool
    ensures { (requests : Requests) → request_of requests order ≡ request → result ≡ wrong_request requests order }
{
    let is_open = request.quantity.0 != 0;
    let ends = types::ends(request.typ, order.credited.typ);
    ((order.form == 19) & is_open) | ((order.form == 20) & !(is_open & ends))
}

// RULES 7.20: what is to be ended was asked for today.
fn ends_too_soon(today: u64, order: Order, request: Request) -> bool
    ensures { (requests : Requests) → request_of requests order ≡ request → result ≡ ends_too_soon today requests order }
{
    (order.form == 20) & (request.day == today)
}

// RULES 7.21: one request too many.
fn too_many_requests(book: &[u64], order: Order) -> bool
    requires { Stored book.now }
    ensures { result ≡ too_many_requests (ledger_of book.now).requests order }
{
    (order.form == 19) & (15 < book_requests::requests(book))
}

// The requests' stage: whether it lets the order pass, or the first refusal that applies.
#[tactic(auto, unfolding(rulebook::specs::Refusals::request_tests))]
pub fn check(book: &[u64], today: u64, order: Order) -> Result<(), Refusal>
    requires { Stored book.now × WasRead order }
    ensures { number_in result ≡ first (request_tests (ledger_of book.now).requests today order) }
{
    if (order.form != 19) & (order.form != 20) {
        return Ok(());
    }
    let request = book_requests::request(book, order.debited.member, order.reference);
    checking::refuse(Refusal::WrongRequest, wrong_request(order, request))?;
    checking::refuse(Refusal::EndsTooSoon, ends_too_soon(today, order, request))?;
    checking::refuse(Refusal::TooManyRequests, too_many_requests(book, order))
}

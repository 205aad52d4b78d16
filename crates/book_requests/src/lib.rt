// The open requests for paper of a book. Each function is lent the whole book, and hands on one region of it.
#![tactic(auto)]

ghost use Rattle.std.specs.Prelude.{◌≡◌, ◌≤◌, ◌<◌};
ghost use Rattle.rulebook.specs.Ledger.{no_request, put_request};
ghost use Rattle.book.specs.Keys.{Next, ReferenceInRange, RequestInRange, request_limit, is_open};
ghost use Rattle.book.specs.Meaning.{requests_of};
ghost use Rattle.book.specs.Stored.{Stored, RequestsBecome};

use book::{END, REQUESTS};
use rulebook::Request;

// How many requests are open.
pub fn requests(book: &[u64]) -> u64
    requires { Stored book.now }
    ensures { result ≡ (requests_of book.now).number }
{
    words::rows(&book[REQUESTS..END])
}

// What the member has open under the reference: all 0 where there is none.
pub fn request(book: &[u64], member: u64, reference: u64) -> Request
    requires { Stored book.now × ReferenceInRange member reference }
    ensures { result ≡ (requests_of book.now).asked member reference }
{
    requests::request(&book[REQUESTS..END], member, reference)
}

// The number of the first request from a number on that is open; the limit where there is none.
pub fn next_request(book: &[u64], from: u64) -> u64
    requires { Stored book.now × (from ≤ request_limit) }
    ensures { Next (is_open (requests_of book.now).asked) from request_limit result }
{
    requests::next_request(&book[REQUESTS..END], from)
}

// The member has the request open under the reference.
pub fn open_request(book: &mut [u64], member: u64, reference: u64, request: Request)
    requires { Stored book.old × ReferenceInRange member reference × RequestInRange request
        × ((requests_of book.old).number < 16) × (((requests_of book.old).asked member reference).quantity.0 ≡ 0) }
    ensures { RequestsBecome (put_request member reference request) book.old book.new }
{
    requests::open_request(&mut book[REQUESTS..END], member, reference, request);
}

// The request that the member has open under the reference ends.
pub fn end_request(book: &mut [u64], member: u64, reference: u64)
    requires { Stored book.old × ReferenceInRange member reference × (0 < ((requests_of book.old).asked member reference).quantity.0) }
    ensures { RequestsBecome (put_request member reference no_request) book.old book.new }
{
    requests::end_request(&mut book[REQUESTS..END], member, reference);
}

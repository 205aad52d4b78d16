// The open requests for paper of a book, as 49 words: how many there are, 16 keys, and two words for each. A member and a reference are one key.
#![tactic(auto)]

ghost use Rattle.std.specs.Prelude.{◌≡◌, ◌≤◌, ◌<◌, length, IfSome};
ghost use Rattle.rulebook.specs.Ledger.{no_request, put_request};
ghost use Rattle.words.specs.Tables.{rows, place_of};
ghost use Rattle.words.specs.Order.{Next};
ghost use Rattle.requests.specs.Packed.{ReferenceInRange, in_range, key_of, key_limit, is_open, RequestInRange, shares_word, quantity_word, request_in};
ghost use Rattle.requests.specs.Map.{requests_of, Kept, removed};

use rulebook::{Request, Shares};

// Keys and what is asked are columns of words, for the book is words that a C program lends.
const SHARES: usize = 17;

const QUANTITIES: usize = 33;

// Keys are below this.
const KEY_LIMIT: u64 = 4398046511104;

// ---- a request as words

// Whether a record's fields can name the member and the reference.
pub fn is_named(member: u64, reference: u64) -> bool
    ensures { result ≡ in_range member reference }
{
    (member < 1024) & (reference < 4294967296)
}

// The member and the reference as one number.
fn key_of(member: u64, reference: u64) -> u64
    requires { ReferenceInRange member reference }
    ensures { result ≡ key_of member reference }
{
    member * 4294967296 + reference
}

// Of which shares: security, type, shareholder.
fn shares_word(request: Request) -> u64
    requires { RequestInRange request }
    ensures { result ≡ shares_word request }
{
    request.security * 274877906944 + request.typ * 1073741824 + request.shareholder
}

// How many shares, and the day of the request.
fn quantity_word(request: Request) -> u64
    requires { RequestInRange request }
    ensures { result ≡ quantity_word request }
{
    request.quantity.0 * 65536 + request.day
}

// The request of two words.
fn request_in(shares: u64, quantity: u64) -> Request
    ensures { result ≡ request_in shares quantity }
{
    Request {
        security: shares >> 38,
        typ: (shares >> 30) % 256,
        shareholder: shares % 1073741824,
        quantity: Shares(quantity >> 16),
        day: quantity % 65536,
    }
}

// ---- the requests

// Where the request stands.
fn find(requests: &[u64], member: u64, reference: u64) -> Option<usize>
    requires { Kept requests.now × ReferenceInRange member reference }
    ensures place { result ≡ place_of (key_of member reference) requests.now }
    ensures inside { IfSome result (λ i. i < rows requests.now) }
{
    let key = key_of(member, reference);
    words::find(requests, key)
}

// What the member has open under the reference: all 0 where there is none.
pub fn request(requests: &[u64], member: u64, reference: u64) -> Request
    requires { Kept requests.now × ReferenceInRange member reference }
    ensures { result ≡ (requests_of requests.now).asked member reference }
{
    match find(requests, member, reference) {
        Some(i) => request_in(requests[i + SHARES], requests[i + QUANTITIES]),
        None => request_in(0, 0),
    }
}

// The key of the first open request from a key on, in order of member and reference; the limit where there is none.
pub fn next_request(requests: &[u64], from: u64) -> u64
    requires { Kept requests.now × (from ≤ key_limit) }
    ensures { Next (is_open (requests_of requests.now).asked) from key_limit result }
{
    words::next_key(requests, from, KEY_LIMIT)
}

// The request goes last.
pub fn open_request(requests: &mut [u64], member: u64, reference: u64, request: Request)
    requires { Kept requests.old × ReferenceInRange member reference × RequestInRange request
        × ((requests_of requests.old).number < 16) × (((requests_of requests.old).asked member reference).quantity.0 ≡ 0) }
    ensures { Kept requests.new
        × (requests_of requests.new ≡ put_request member reference request (requests_of requests.old)) }
{
    let key = key_of(member, reference);
    let shares = shares_word(request);
    let quantity = quantity_word(request);
    let n = requests[0];
    let at = n as usize;
    requests[at + 1] = key;
    requests[at + SHARES] = shares;
    requests[at + QUANTITIES] = quantity;
    requests[0] = n + 1;
}

// The request at `i` is removed, and the last one moves into its place.
fn remove_request(requests: &mut [u64], i: usize)
    requires { (length requests.old ≡ 49) × (i < rows requests.old) × (rows requests.old ≤ 16) }
    ensures { requests.new ≡ removed requests.old i }
{
    let n = requests[0] - 1;
    let last = n as usize;
    let key = requests[last + 1];
    let shares = requests[last + SHARES];
    let quantity = requests[last + QUANTITIES];
    requests[i + 1] = key;
    requests[i + SHARES] = shares;
    requests[i + QUANTITIES] = quantity;
    requests[0] = n;
}

// The request that the member has open under the reference ends.
pub fn end_request(requests: &mut [u64], member: u64, reference: u64)
    requires { Kept requests.old × ReferenceInRange member reference × (0 < ((requests_of requests.old).asked member reference).quantity.0) }
    ensures { Kept requests.new
        × (requests_of requests.new ≡ put_request member reference no_request (requests_of requests.old)) }
{
    if let Some(i) = find(requests, member, reference) {
        remove_request(requests, i);
    }
}

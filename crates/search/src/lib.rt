// Searches in the waiting list: the first item that a test finds.
#![tactic(auto)]

ghost use Rattle.std.specs.Prelude.{◌≡◌, ◌<◌, length, get_or};
ghost use Rattle.rulebook.specs.Waiting.{sent_by};
ghost use Rattle.rulebook.specs.Matching.{tolerance, pairs_with};
ghost use Rattle.rulebook.specs.Premise.{RateFits};
ghost use Rattle.book.specs.Meaning.{ledger_of};
ghost use Rattle.book.specs.Stored.{Stored};
ghost use Rattle.search.specs.Place.{place_in};

use rulebook::{Cents, Item};

// Whether the item at `i` waits under that sender's reference; it is read whole only where it bears the reference.
fn is_sent(book: &[u64], i: usize, sender: u64, reference: u64) -> bool
    requires { Stored book.now × (i < length (ledger_of book.now).waiting) }
    ensures { (d : Item) → result ≡ sent_by sender reference (get_or (ledger_of book.now).waiting i d) }
{
    if !book_items::may_bear(book, i, reference) {
        return false;
    }
    item::sent_by(sender, reference, book_items::item_at(book, i))
}

// Whether the item at `i` pairs with an arriving one; it is read whole only where it is a single of the quantity.
fn is_pairing(book: &[u64], i: usize, limit: Cents, arriving: Item) -> bool
    requires { Stored book.now × (i < length (ledger_of book.now).waiting) }
    ensures { (d : Item) → result ≡ pairs_with limit.0 arriving (get_or (ledger_of book.now).waiting i d) }
{
    if !book_items::may_pair(book, i, arriving.quantity) {
        return false;
    }
    matching::pairs_with(limit, arriving, book_items::item_at(book, i))
}

// The item that waits under that sender's reference.
pub fn first_sent(book: &[u64], sender: u64, reference: u64) -> Option<usize>
    requires { Stored book.now }
    ensures { result ≡ place_in (sent_by sender reference) (ledger_of book.now).waiting }
{
    (0..book_items::items(book)).find(|&i| is_sent(book, i, sender, reference))
}

// The first single that pairs with an arriving one within a limit.
fn first_pairing(book: &[u64], limit: Cents, arriving: Item) -> Option<usize>
    requires { Stored book.now }
    ensures { result ≡ place_in (pairs_with limit.0 arriving) (ledger_of book.now).waiting }
{
    (0..book_items::items(book)).find(|&i| is_pairing(book, i, limit, arriving))
}

// The first single that pairs with an arriving one, by the rate that the book has now.
pub fn first_partner(book: &[u64], arriving: Item) -> Option<usize>
    requires { Stored book.now × RateFits (ledger_of book.now).rate }
    ensures { result ≡ place_in (pairs_with (tolerance (ledger_of book.now).rate arriving.currency) arriving) (ledger_of book.now).waiting }
{
    let limit = matching::tolerance_of(book::rate(book), arriving.currency);
    first_pairing(book, limit, arriving)
}

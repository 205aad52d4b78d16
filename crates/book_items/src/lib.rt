// The waiting list of a book. Each function is lent the whole book, and hands on one region of it.
#![tactic(auto)]

ghost use Rattle.std.specs.Prelude.{◌≡◌, false, ◌++◌, ◌∷◌, [], ℕ, ◌+◌, ◌≤◌, ◌<◌, length, get_or, set, take};
ghost use Rattle.rulebook.specs.Matching.{pairs_with};
ghost use Rattle.rulebook.specs.Waiting.{sent_by, with_sent};
ghost use Rattle.words.specs.Places.{remove_at};
ghost use Rattle.book.specs.Meaning.{waiting_of};
ghost use Rattle.book.specs.Stored.{Stored, WaitingBecomes};

use book::{ITEMS, RATE};
use rulebook::{Item, Shares};

// How many items wait.
pub fn items(book: &[u64]) -> usize
    requires { Stored book.now }
    ensures { result ≡ length (waiting_of book.now) }
{
    words::rows(&book[ITEMS..RATE]) as usize
}

// The item at `i`.
pub fn item_at(book: &[u64], i: usize) -> Item
    requires { Stored book.now × (i < length (waiting_of book.now)) }
    ensures { (d : Item) → result ≡ get_or (waiting_of book.now) i d }
{
    waiting_list::item_at(&book[ITEMS..RATE], i)
}

// Whether the item at `i` may wait under a reference: false where neither of its references is that one.
pub fn may_bear(book: &[u64], i: usize, reference: u64) -> bool
    requires { Stored book.now × (i < length (waiting_of book.now)) }
    ensures { (d : Item) (sender : ℕ) → result ≡ false → sent_by sender reference (get_or (waiting_of book.now) i d) ≡ false }
{
    waiting_list::may_bear(&book[ITEMS..RATE], i, reference)
}

// Whether the item at `i` may pair with one of that quantity: false where it is no single of that quantity.
pub fn may_pair(book: &[u64], i: usize, quantity: Shares) -> bool
    requires { Stored book.now × (i < length (waiting_of book.now)) }
    ensures { (d arriving : Item) (limit : ℕ) → arriving.quantity ≡ quantity → result ≡ false
        → pairs_with limit arriving (get_or (waiting_of book.now) i d) ≡ false }
{
    waiting_list::may_pair(&book[ITEMS..RATE], i, quantity)
}

// The item takes the place of the one at `i`.
pub fn put_item(book: &mut [u64], i: usize, item: Item)
    requires { Stored book.old × (i < length (waiting_of book.old)) }
    ensures { WaitingBecomes (λ items. set items i item) book.old book.new }
{
    waiting_list::put_item(&mut book[ITEMS..RATE], i, item);
}

// Whether a sent cycle has fixed the item at `i`.
pub fn is_sent(book: &[u64], i: usize) -> bool
    requires { Stored book.now × (i < length (waiting_of book.now)) }
    ensures { (d : Item) → result ≡ (get_or (waiting_of book.now) i d).sent }
{
    waiting_list::is_sent(&book[ITEMS..RATE], i)
}

// The item at `i` is fixed from now on, or is not any more.
pub fn put_sent(book: &mut [u64], i: usize, sent: bool)
    requires { Stored book.old × (i < length (waiting_of book.old)) }
    ensures { (d : Item) → WaitingBecomes (λ items. set items i (with_sent sent (get_or items i d))) book.old book.new }
{
    waiting_list::put_sent(&mut book[ITEMS..RATE], i, sent);
}

// The item goes last.
pub fn push(book: &mut [u64], item: Item)
    requires { Stored book.old × (length (waiting_of book.old) < 64) }
    ensures { WaitingBecomes (λ items. items ++ (item ∷ [])) book.old book.new }
{
    waiting_list::push(&mut book[ITEMS..RATE], item);
}

// The item at `i` is removed, the others stay in their order.
pub fn remove(book: &mut [u64], i: usize)
    requires { Stored book.old × (i < length (waiting_of book.old)) }
    ensures { WaitingBecomes (remove_at i) book.old book.new }
{
    waiting_list::remove(&mut book[ITEMS..RATE], i);
}

// The first `n` items alone.
pub fn keep_first(book: &mut [u64], n: usize)
    requires { Stored book.old × (n ≤ length (waiting_of book.old)) }
    ensures { WaitingBecomes (take n) book.old book.new }
{
    waiting_list::keep_first(&mut book[ITEMS..RATE], n);
}

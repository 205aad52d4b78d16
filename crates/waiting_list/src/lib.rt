// The waiting list of a book, as 1025 words: how many items there are, and 64 rows of 16 words, in order of arrival.
#![tactic(auto)]

ghost use Rattle.std.specs.Prelude.{◌≡◌, ◌++◌, ◌∷◌, [], false, ℕ, ◌+◌, ◌*◌, ◌≤◌, ◌<◌, length, get_or, set, take};
ghost use Rattle.rulebook.specs.Waiting.{sent_by, with_sent};
ghost use Rattle.rulebook.specs.Matching.{pairs_with};
ghost use Rattle.words.specs.Places.{remove_at};
ghost use Rattle.words.specs.Tables.{rows};
ghost use Rattle.waiting_list.specs.Waiting.{Sized, state_of, state_words, item_of, words_of, put_row, items_of};

use rulebook::{Cents, Item, Party, Shares, State};

// A state in four words: which it is, its references, its marks. Numbers stand for kinds here, for the book is words that a C program lends.
#[derive(Clone, Copy)]
pub struct StateWords {
    pub tag: u64,
    pub first: u64,
    pub second: u64,
    pub marks: u64,
}

fn state_words(s: State) -> StateWords
    ensures { result ≡ state_words s }
{
    match s {
        State::Single {
            delivers,
            reference,
        } => StateWords {
            tag: 0,
            first: reference,
            second: 0,
            marks: u64::from(delivers),
        },
        State::Pair {
            deliver_reference,
            receive_reference,
            deliver_marked,
            receive_marked,
        } => StateWords {
            tag: 1,
            first: deliver_reference,
            second: receive_reference,
            marks: u64::from(deliver_marked) + 2 * u64::from(receive_marked),
        },
        State::Trade { reference } => StateWords {
            tag: 2,
            first: reference,
            second: 0,
            marks: 0,
        },
    }
}

fn state_of(tag: u64, first: u64, second: u64, marks: u64) -> State
    ensures { result ≡ state_of tag first second marks }
{
    if tag == 0 {
        let delivers = marks == 1;
        return State::Single {
            delivers: delivers,
            reference: first,
        };
    }
    if tag == 1 {
        let deliver_marked = marks % 2 == 1;
        let receive_marked = marks / 2 == 1;
        return State::Pair {
            deliver_reference: first,
            receive_reference: second,
            deliver_marked: deliver_marked,
            receive_marked: receive_marked,
        };
    }
    State::Trade { reference: first }
}

// The item that a row of 16 words holds.
fn item_of(r: &[u64]) -> Item
    requires { 16 ≤ length r.now }
    ensures { result ≡ item_of r.now }
{
    let marks = r[15];
    let state = state_of(r[12], r[13], r[14], marks % 4);
    let sent = marks / 4 == 1;
    Item {
        security: r[0],
        currency: r[1],
        debited: Party {
            member: r[2],
            typ: r[3],
            shareholder: r[4],
        },
        credited: Party {
            member: r[5],
            typ: r[6],
            shareholder: r[7],
        },
        quantity: Shares(r[8]),
        amount: Cents(r[9]),
        trade_day: r[10],
        settlement_day: r[11],
        state: state,
        sent: sent,
    }
}

// The item at `i`.
pub fn item_at(items: &[u64], i: usize) -> Item
    requires { Sized items.now × (i < rows items.now) }
    ensures { (d : Item) → result ≡ get_or (items_of items.now) i d }
{
    let at = i * 16 + 1;
    let end = at + 16;
    item_of(&items[at..end])
}

// Whether the item at `i` may wait under a reference, by its words where they lie: false where neither of its references is that one.
pub fn may_bear(items: &[u64], i: usize, reference: u64) -> bool
    requires { Sized items.now × (i < rows items.now) }
    ensures { (d : Item) (sender : ℕ) → result ≡ false → sent_by sender reference (get_or (items_of items.now) i d) ≡ false }
{
    let at = i * 16 + 1;
    if reference == items[at + 13] {
        return true;
    }
    reference == items[at + 14]
}

// Whether the item at `i` may pair with one of that quantity, by its words where they lie: false where it is no single of that quantity.
pub fn may_pair(items: &[u64], i: usize, quantity: Shares) -> bool
    requires { Sized items.now × (i < rows items.now) }
    ensures { (d arriving : Item) (limit : ℕ) → arriving.quantity ≡ quantity → result ≡ false
        → pairs_with limit arriving (get_or (items_of items.now) i d) ≡ false }
{
    let at = i * 16 + 1;
    if items[at + 8] != quantity.0 {
        return false;
    }
    items[at + 12] == 0
}

// The item's words go into row `i`.
fn write_row(items: &mut [u64], i: usize, item: Item)
    requires { (length items.old ≡ 1025) × (i < 64) }
    ensures { items.new ≡ put_row items.old i (words_of item) }
{
    let state = item.state;
    let s = state_words(state);
    let marks = s.marks + 4 * u64::from(item.sent);
    let values = [
        item.security,
        item.currency,
        item.debited.member,
        item.debited.typ,
        item.debited.shareholder,
        item.credited.member,
        item.credited.typ,
        item.credited.shareholder,
        item.quantity.0,
        item.amount.0,
        item.trade_day,
        item.settlement_day,
        s.tag,
        s.first,
        s.second,
        marks,
    ];
    words::write(items, i * 16 + 1, &values);
}

// The item takes the place of the one at `i`.
pub fn put_item(items: &mut [u64], i: usize, item: Item)
    requires { Sized items.old × (i < rows items.old) }
    ensures { Sized items.new × (items_of items.new ≡ set (items_of items.old) i item) }
{
    write_row(items, i, item);
}

// Whether a sent cycle has fixed the item at `i`.
pub fn is_sent(items: &[u64], i: usize) -> bool
    requires { Sized items.now × (i < rows items.now) }
    ensures { (d : Item) → result ≡ (get_or (items_of items.now) i d).sent }
{
    items[i * 16 + 16] / 4 == 1
}

// The item at `i` is fixed from now on, or is not any more: one word, changed where it lies.
pub fn put_sent(items: &mut [u64], i: usize, sent: bool)
    requires { Sized items.old × (i < rows items.old) }
    ensures { Sized items.new
        × ((d : Item) → items_of items.new ≡ set (items_of items.old) i (with_sent sent (get_or (items_of items.old) i d))) }
{
    let at = i * 16 + 16;
    items[at] = items[at] % 4 + 4 * u64::from(sent);
}

// The item goes last.
pub fn push(items: &mut [u64], item: Item)
    requires { Sized items.old × (rows items.old < 64) }
    ensures { Sized items.new × (items_of items.new ≡ items_of items.old ++ (item ∷ [])) }
{
    let n = items[0];
    write_row(items, n as usize, item);
    items[0] = n + 1;
}

// The items without the one at `i`, the others in their order.
pub fn remove(items: &mut [u64], i: usize)
    requires { Sized items.old × (i < rows items.old) }
    ensures { Sized items.new × (items_of items.new ≡ remove_at i (items_of items.old)) }
{
    let n = items[0] - 1;
    let last = n as usize;
    words::shift_down(items, i * 16 + 1, 16, (last - i) * 16);
    items[0] = n;
}

// The first `n` items alone.
pub fn keep_first(items: &mut [u64], n: usize)
    requires { Sized items.old × (n ≤ rows items.old) }
    ensures { Sized items.new × (items_of items.new ≡ take n (items_of items.old)) }
{
    items[0] = n as u64;
}

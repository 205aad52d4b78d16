// Slots: the figures of what a leg debits stand at the last leg that debits the same, so that a change of them is one store.
#![tactic(auto)]

ghost use Rattle.std.specs.Prelude.{◌≡◌, ℕ, ◌+◌, ◌≤◌, ◌<◌, length, get_or, set};
ghost use Rattle.book.specs.Meaning.{ledger_of};
ghost use Rattle.book.specs.Stored.{Stored};
ghost use Rattle.legs.specs.Filled.{ShareLegs, ShareStart, CashLegs, CashStart, leg_in, Started};
ghost use Rattle.legs.specs.Ready.{Ready};
ghost use Rattle.legs.specs.Slots.{slot_of, Slots};
ghost use Rattle.slots.specs.Links.{bucket_of, Unlinked, Linked};

use legs::{Leg, Legs, NOWHERE, TO};

const HEADS: usize = 64;

// The bucket of what is debited.
fn bucket_of(key: u64) -> usize
    ensures { (result ≡ bucket_of key) × (result < 64) }
{
    (key % 61) as usize
}

// The leg at `i` before those of its bucket.
fn put_link(links: &mut [u64], i: usize, bucket: usize)
    requires { (length links.old ≡ 128) × (i < 64) × (bucket < 64) }
    ensures { links.new ≡ set (set links.old i (get_or links.old (bucket + 64) 0)) (bucket + 64) i }
{
    let next = links[bucket + HEADS];
    links[i] = next;
    links[bucket + HEADS] = i as u64;
}

// The legs of each bucket, the last one first.
fn link(links: &mut [u64], legs: &[u64], n: usize)
    requires { Unlinked links.old × (length legs.now ≡ 192) × (n ≤ 64) }
    ensures { Linked n legs.now links.new }
{
    for i in 0..n {
        let bucket = bucket_of(legs[i]);
        put_link(links, i, bucket);
    }
}

// The last of `n` legs that debits `key`.
fn slot_of(legs: &[u64], links: &[u64], key: u64, n: usize) -> u64
    requires { (length legs.now ≡ 192) × (n ≤ 64) × Linked n legs.now links.now }
    ensures { result ≡ slot_of legs.now n key }
{
    let bucket = bucket_of(key);
    let mut k = links[bucket + HEADS] as usize;
    while k != NOWHERE {
        if legs[k] == key {
            return k as u64;
        }
        k = links[k] as usize;
    }
    NOWHERE as u64
}

// The slots of what the leg at `i` debits and credits.
fn put_slots(slots: &mut [u64], i: usize, from: u64, to: u64)
    requires { (length slots.old ≡ 128) × (i < 64) }
    ensures { slots.new ≡ set (set slots.old i from) (i + 64) to }
{
    slots[i] = from;
    slots[i + TO] = to;
}

// The slots of what each leg debits, and of what it credits.
fn fill(slots: &mut [u64], legs: &[u64], n: usize)
    requires { (length slots.old ≡ 128) × (length legs.now ≡ 192) × (n ≤ 64) }
    ensures { Slots n legs.now slots.new }
{
    let mut links = [64u64; 128];
    link(&mut links, legs, n);
    for k in 0..n {
        let from = slot_of(legs, &links, legs[k], n);
        let to = slot_of(legs, &links, legs[k + TO], n);
        put_slots(slots, k, from, to);
    }
}

// The legs of some trades, with their slots, before any is added. They are filled where they lie: a `Legs` has 448 words, and handing it on copies them.
fn fill_legs<F: Fn(usize) -> Leg>(legs: &mut Legs, trades: usize, leg_of: F)
    requires few { trades ≤ 64 }
    requires asked { (i : ℕ) → i < trades → F.pre leg_of i }
    ensures as_many { legs.new.trades ≡ trades }
    ensures filled { (k : ℕ) → k < trades → F.post leg_of k (leg_in legs.new.legs legs.new.figures k) }
    ensures started { Started trades legs.new.legs legs.new.figures }
{
    legs::fill(&mut legs.legs, &mut legs.figures, trades, leg_of);
    fill(&mut legs.slots, &legs.legs, trades);
    legs.trades = trades;
}

// The legs of the waiting trades' shares, with the balances that they debit.
pub fn fill_shares(legs: &mut Legs, book: &[u64])
    requires { Stored book.now × Ready (ledger_of book.now) }
    ensures trades { legs.new.trades ≡ length (ledger_of book.now).waiting }
    ensures share_legs { ShareLegs (ledger_of book.now).waiting legs.new.legs }
    ensures share_start { ShareStart (ledger_of book.now) legs.new.figures }
{
    fill_legs(legs, book_items::items(book), |i| legs::share_leg(book, i));
}

// The legs of their cash, with the amounts that they debit.
pub fn fill_cash(legs: &mut Legs, book: &[u64])
    requires { Stored book.now × Ready (ledger_of book.now) }
    ensures trades { legs.new.trades ≡ length (ledger_of book.now).waiting }
    ensures cash_legs { CashLegs (ledger_of book.now).waiting legs.new.legs }
    ensures cash_start { CashStart (ledger_of book.now) legs.new.figures }
{
    fill_legs(legs, book_items::items(book), |i| legs::cash_leg(book, i));
}

// What an account offers while a cycle is sent (RULES 9.22): all but the shares by which the fixed trades debit it more than they credit it.
ghost use Rattle.std.specs.Prelude.{if◌then◌else◌, ◌≡◌, ◌-◌, ◌≤◌, ◌<◌, length, get_or};
ghost use Rattle.plain.specs.Lists.{total};
ghost use Rattle.rulebook.specs.Ledger.{same_account};
ghost use Rattle.rulebook.specs.Cycle.{fixed, offers};
ghost use Rattle.rulebook.specs.Ranges.{AccountInRange};
ghost use Rattle.book.specs.Meaning.{ledger_of};
ghost use Rattle.book.specs.Stored.{Stored, Kept};
ghost use Rattle.room_tests.specs.Offered.{takes_from, brings_to, if_fixed};

use rulebook::{Account, Item, Shares};

// What trades take from an account, and what they bring to it.
#[derive(Clone, Copy)]
struct Flow {
    taken: Shares,
    brought: Shares,
}

// The quantity where both accounts are one, else nothing.
fn if_same(one: Account, other: Account, quantity: Shares) -> Shares
    ensures { result.0 ≡ (if same_account one other then quantity.0 else 0) }
{
    if one == other {
        return quantity;
    }
    Shares(0)
}

fn flow_of(trade: Item, account: Account) -> Flow
    ensures { (result.taken.0 ≡ takes_from account trade) × (result.brought.0 ≡ brings_to account trade) }
{
    let taken = if_same(parties::seller_of(trade), account, trade.quantity);
    let brought = if_same(parties::buyer_of(trade), account, trade.quantity);
    Flow { taken, brought }
}

// Of the item at `i`: nothing where no sent cycle has fixed it, and then it is not read.
fn fixed_flow(book: &[u64], i: usize, account: Account) -> Flow
    requires { Stored book.now × (i < length (ledger_of book.now).waiting) }
    ensures { (d : Item) → (result.taken.0 ≡ if_fixed (takes_from account) (get_or (ledger_of book.now).waiting i d))
        × (result.brought.0 ≡ if_fixed (brings_to account) (get_or (ledger_of book.now).waiting i d)) }
{
    if !book_items::is_sent(book, i) {
        return Flow {
            taken: Shares(0),
            brought: Shares(0),
        };
    }
    flow_of(book_items::item_at(book, i), account)
}

// Of all fixed trades.
fn fixed_flows(book: &[u64], account: Account) -> Flow
    requires { Kept book.now }
    ensures taken_value { result.taken.0 ≡ total (takes_from account) (fixed (ledger_of book.now).waiting) }
    ensures brought_value { result.brought.0 ≡ total (brings_to account) (fixed (ledger_of book.now).waiting) }
{
    let n = book_items::items(book);
    let mut taken: u64 = 0;
    let mut brought: u64 = 0;
    for i in 0..n {
        let flow = fixed_flow(book, i, account);
        taken += flow.taken.0;
        brought += flow.brought.0;
    }
    Flow {
        taken: Shares(taken),
        brought: Shares(brought),
    }
}

// What an account keeps free of its balance: all of it, where as much or more is brought than taken.
fn left_of(balance: Shares, flow: Flow) -> Shares
    requires { flow.taken.0 - flow.brought.0 ≤ balance.0 }
    ensures { result.0 ≡ balance.0 - (flow.taken.0 - flow.brought.0) }
{
    if flow.taken.0 <= flow.brought.0 {
        return balance;
    }
    Shares(balance.0 - (flow.taken.0 - flow.brought.0))
}

// Nothing is fixed while no cycle is sent, and then the list is not walked.
pub(crate) fn offered(book: &[u64], account: Account) -> Shares
    requires { Kept book.now × AccountInRange account }
    ensures { result.0 ≡ offers (ledger_of book.now).holdings (ledger_of book.now).waiting account }
{
    let balance = book_holdings::balance(book, account);
    let day = book::day(book);
    if day.sent {
        return left_of(balance, fixed_flows(book, account));
    }
    balance
}

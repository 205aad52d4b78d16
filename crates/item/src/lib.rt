// The rules for one waiting item: who sent it, its marks, how it leaves at close.
#![tactic(auto)]

ghost use Rattle.std.specs.Prelude.{◌≡◌, ◌<◌, ◌^◌};
ghost use Rattle.rulebook.specs.Waiting.{item_of, single_of, is_deliver, is_receive, own_reference, sides_of, sender_of, sent_by, not_cancellable, marked, both_marked, unmarked};
ghost use Rattle.rulebook.specs.Close.{close_kind};

use rulebook::{Item, Order, State};

// ---- an order as an item

#[tactic(auto, unfolding(rulebook::specs::Waiting::item_of))]
pub fn item_of(state: State, order: Order) -> Item
    ensures { result ≡ item_of state order }
{
    Item {
        security: order.security,
        currency: order.currency,
        debited: order.debited,
        credited: order.credited,
        quantity: order.quantity,
        amount: order.amount,
        trade_day: order.trade_day,
        settlement_day: order.settlement_day,
        state,
        sent: false,
    }
}

// An instruction as a single.
pub fn single_of(order: Order) -> Item
    ensures { result ≡ single_of order }
{
    let state = State::Single {
        delivers: order.form == 12,
        reference: order.reference,
    };
    item_of(state, order)
}

// ---- senders and references

// Who sends an order: the deliverer a deliver, the receiver a receive, the exchange, which has no member's number, a trade; who cancels, a cancel.
#[tactic(auto, unfolding(rulebook::specs::Waiting::sender_of))]
pub fn sender_of(order: Order) -> u64
    ensures { result ≡ sender_of order }
{
    match order.form {
        13 => order.credited.member,
        14 => 0,
        _ => order.debited.member,
    }
}

// The item waits under that sender's reference.
#[tactic(auto, unfolding(rulebook::specs::Waiting::sent_by))]
pub fn sent_by(sender: u64, reference: u64, item: Item) -> bool
    ensures { result ≡ sent_by sender reference item }
{
    match item.state {
        State::Single {
            delivers: true,
            reference: own,
        } => (sender == item.debited.member) & (reference == own),
        State::Single {
            delivers: false,
            reference: own,
        } => (sender == item.credited.member) & (reference == own),
        State::Pair {
            deliver_reference,
            receive_reference,
            ..
        } => {
            ((sender == item.debited.member) & (reference == deliver_reference))
                | ((sender == item.credited.member) & (reference == receive_reference))
        }
        State::Trade { reference: own } => (sender == 0) & (reference == own),
    }
}

// How many sides an item in that state counts.
#[tactic(auto, unfolding(rulebook::specs::Waiting::sides_of))]
pub fn sides_of(state: State) -> u64
    ensures { result ≡ sides_of state }
{
    match state {
        State::Single { .. } => 1,
        State::Pair { .. } | State::Trade { .. } => 2,
    }
}

// ---- marks

// What this sender cannot cancel: a single, or a pair that bears the sender's mark.
#[tactic(auto, unfolding(rulebook::specs::Waiting::not_cancellable))]
pub fn not_cancellable(sender: u64, item: Item) -> bool
    ensures { result ≡ not_cancellable sender item }
{
    match item.state {
        State::Single { .. } => true,
        State::Pair { deliver_marked, .. } if sender == item.debited.member => deliver_marked,
        State::Pair { receive_marked, .. } => receive_marked,
        State::Trade { .. } => false,
    }
}

// The item with this sender's mark.
#[tactic(auto, unfolding(rulebook::specs::Waiting::marked, rulebook::specs::Waiting::with_state))]
pub fn mark(sender: u64, item: Item) -> Item
    ensures { result ≡ marked sender item }
{
    let mut marked = item;
    if let State::Pair {
        deliver_marked,
        receive_marked,
        ..
    } = &mut marked.state
    {
        if sender == item.debited.member {
            *deliver_marked = true;
        } else {
            *receive_marked = true;
        }
    }
    marked
}

// Both halves of a pair are marked.
#[tactic(auto, unfolding(rulebook::specs::Waiting::both_marked))]
pub fn both_marked(state: State) -> bool
    ensures { result ≡ both_marked state }
{
    matches!(
        state,
        State::Pair {
            deliver_marked: true,
            receive_marked: true,
            ..
        }
    )
}

// The item without marks.
#[tactic(auto, unfolding(rulebook::specs::Waiting::unmarked, rulebook::specs::Waiting::with_state))]
pub fn unmark(item: Item) -> Item
    ensures { result ≡ unmarked item }
{
    let mut unmarked = item;
    if let State::Pair {
        deliver_marked,
        receive_marked,
        ..
    } = &mut unmarked.state
    {
        *deliver_marked = false;
        *receive_marked = false;
    }
    unmarked
}

// ---- singles

// A single that delivers.
#[tactic(auto, unfolding(rulebook::specs::Waiting::is_deliver))]
pub fn is_deliver(state: State) -> bool
    ensures { result ≡ is_deliver state }
{
    matches!(state, State::Single { delivers: true, .. })
}

// A single that receives.
#[tactic(auto, unfolding(rulebook::specs::Waiting::is_receive))]
pub fn is_receive(state: State) -> bool
    ensures { result ≡ is_receive state }
{
    matches!(
        state,
        State::Single {
            delivers: false,
            ..
        }
    )
}

// The reference of a single or an exchange trade.
#[tactic(auto, unfolding(rulebook::specs::Waiting::own_reference))]
pub fn own_reference(state: State) -> u64
    ensures { result ≡ own_reference state }
{
    match state {
        State::Single { reference, .. } | State::Trade { reference } => reference,
        State::Pair { .. } => 0,
    }
}

// ---- close

// The kind of notice with which an item leaves at the close of a day: 1 single, 2 aged pair, 3 suspended; 0 where it stays.
// A number, since the rulebook's 0 says so too, and an Option would need a clause for each of its cases.
#[tactic(auto, unfolding(rulebook::specs::Close::close_kind))]
pub fn close_kind(day: u64, item: Item) -> u64
    requires { item.settlement_day < 2 ^ 63 }
    ensures { result ≡ close_kind day item }
{
    match item.state {
        State::Single { .. } if item.settlement_day == day => 1,
        State::Pair { .. } if day == item.settlement_day + 10 => 2,
        State::Trade { .. } if item.settlement_day <= day => 3,
        _ => 0,
    }
}

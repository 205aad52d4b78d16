// Matching: whether a deliver and a receive agree, how far their amounts may differ, and the pair that they make.
#![tactic(auto)]

ghost use Rattle.std.specs.Prelude.{◌≡◌, ◌&&◌, ◌-◌};
ghost use Rattle.plain.specs.Lists.{◌is◌, ◌at_most◌};
ghost use Rattle.rulebook.specs.Matching.{tolerance, shared_terms, agree, pairs_with, pair_of};
ghost use Rattle.rulebook.specs.Premise.{RateFits};

use rulebook::{Cents, Item, Rate, State};

// Twenty dollars in hundredths of the currency, in LBP by the rate.
#[tactic(auto, unfolding(rulebook::specs::Matching::tolerance))]
pub fn tolerance_of(rate: Rate, currency: u64) -> Cents
    requires { RateFits rate.0 }
    ensures { result.0 ≡ tolerance rate.0 currency }
{
    if currency == 1 {
        return Cents(2_000);
    }
    Cents(20 * rate.0)
}

// The second amount less the first is between 0 and a limit.
fn are_close(limit: Cents, less: Cents, more: Cents) -> bool
    ensures { result ≡ (less.0 at_most more.0 && more.0 - less.0 at_most limit.0) }
{
    less <= more && more.0 - less.0 <= limit.0
}

// Whether a deliver and a receive have every term in common, but for types and amounts.
#[tactic(auto, unfolding(rulebook::specs::Matching::shared_terms))]
fn share_terms(deliver: Item, receive: Item) -> bool
    ensures { result ≡ shared_terms deliver receive }
{
    (deliver.security == receive.security)
        & (deliver.debited.shareholder == receive.credited.shareholder)
        & (deliver.trade_day == receive.trade_day)
        & (deliver.settlement_day == receive.settlement_day)
        & (deliver.quantity == receive.quantity)
        & (deliver.currency == receive.currency)
        & (deliver.debited.member == receive.debited.member)
        & (deliver.credited.member == receive.credited.member)
}

// Whether they have all terms in common, and amounts within the limit. Types are looked up last, since they seldom differ.
#[tactic(auto, unfolding(rulebook::specs::Matching::agree, rulebook::specs::Matching::same_terms))]
fn do_agree(limit: Cents, deliver: Item, receive: Item) -> bool
    ensures { result ≡ agree limit.0 deliver receive }
{
    share_terms(deliver, receive)
        && types::are_alike(deliver.debited.typ, receive.credited.typ)
        && are_close(limit, deliver.amount, receive.amount)
}

// Whether one of the two delivers, the other receives, and they agree.
#[tactic(auto, using(rulebook::proofs::EveryCall::Items::deliver_not_receive), unfolding(rulebook::specs::Matching::pairs_with))]
pub fn pairs_with(limit: Cents, arriving: Item, waits: Item) -> bool
    ensures { result ≡ pairs_with limit.0 arriving waits }
{
    if item::is_deliver(waits.state) {
        item::is_receive(arriving.state) && do_agree(limit, waits, arriving)
    } else {
        item::is_receive(waits.state)
            && item::is_deliver(arriving.state)
            && do_agree(limit, arriving, waits)
    }
}

// The pair of a deliver and a receive, at what the buyer offers.
#[tactic(auto, unfolding(rulebook::specs::Matching::pair_of))]
pub fn pair_up(deliver: Item, receive: Item) -> Item
    ensures { result ≡ pair_of deliver receive }
{
    Item {
        credited: receive.credited,
        amount: receive.amount,
        state: State::Pair {
            deliver_reference: item::own_reference(deliver.state),
            receive_reference: item::own_reference(receive.state),
            deliver_marked: false,
            receive_marked: false,
        },
        sent: false,
        ..deliver
    }
}

// What an order, an item, a request and a party name: the accounts on both sides, and those that count a security.
#![tactic(auto)]

ghost use Rattle.std.specs.Prelude.{◌≡◌, ℕ};
ghost use Rattle.rulebook.specs.Ledger.{account_of, request_account};
ghost use Rattle.rulebook.specs.TypeTable.{requested};
ghost use Rattle.rulebook.specs.Shortfall.{seller, buyer};
ghost use Rattle.rulebook.specs.Forms.{new_request};
ghost use Rattle.parties.specs.Counted.{outside_account};

use rulebook::{Account, Item, Order, Party, Request};

#[tactic(auto, unfolding(rulebook::specs::Ledger::account_of))]
pub fn account_of(security: u64, party: Party) -> Account
    ensures { result ≡ account_of security party }
{
    Account {
        security,
        member: party.member,
        typ: party.typ,
        shareholder: party.shareholder,
    }
}

// A member's account of the shares of a request, in a type.
#[tactic(auto, unfolding(rulebook::specs::Ledger::request_account))]
pub fn request_account(typ: u64, member: u64, request: Request) -> Account
    ensures { result ≡ request_account typ member request }
{
    Account {
        security: request.security,
        member,
        typ,
        shareholder: request.shareholder,
    }
}

// The account that has the shares of a request until it ends.
pub fn awaiting_account(member: u64, request: Request) -> Account
    ensures { result ≡ request_account requested member request }
{
    request_account(types::REQUESTED, member, request)
}

// The account that the shares of a new request go to.
#[tactic(auto, unfolding(rulebook::specs::Ledger::request_account, rulebook::specs::Ledger::account_of))]
pub fn requested_account(order: Order) -> Account
    ensures { (today : ℕ) → result ≡ request_account requested order.debited.member (new_request today order) }
{
    Account {
        typ: types::REQUESTED,
        ..account_of(order.security, order.debited)
    }
}

// The account that a trade debits.
#[tactic(auto, unfolding(rulebook::specs::Shortfall::seller))]
pub fn seller_of(trade: Item) -> Account
    ensures { result ≡ seller trade }
{
    account_of(trade.security, trade.debited)
}

// The account that a trade credits.
#[tactic(auto, unfolding(rulebook::specs::Shortfall::buyer))]
pub fn buyer_of(trade: Item) -> Account
    ensures { result ≡ buyer trade }
{
    account_of(trade.security, trade.credited)
}

// Type 91 of a security, its outside count, as a posting row names it.
pub fn outside_account(security: u64) -> Account
    ensures { result ≡ outside_account 91 security }
{
    Account {
        security,
        member: 0,
        typ: 91,
        shareholder: 0,
    }
}

// Type 90 of a security, its issued count, as a posting row names it.
pub fn issued_account(security: u64) -> Account
    ensures { result ≡ outside_account 90 security }
{
    Account {
        security,
        member: 0,
        typ: 90,
        shareholder: 0,
    }
}

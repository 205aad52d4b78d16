// The members' cash of a book, as 128 words: a member's cash in USD, then in LBP, from member 1 to member 64.
#![tactic(auto)]

ghost use Rattle.std.specs.Prelude.{◌≡◌, ◌+◌, ◌^◌, ◌≤◌, ◌<◌, length};
ghost use Rattle.rulebook.specs.Ledger.{Holdings};
ghost use Rattle.rulebook.specs.Movements as movements;
ghost use Rattle.rulebook.specs.Premise.{CashFits};
ghost use Rattle.cash.specs.Amounts.{kept, place, amount_of, with_cash, total_in};

use rulebook::Cents;

fn place_of(member: u64, currency: u64) -> usize
    requires { CashFits member currency }
    ensures { result ≡ place member currency }
{
    (2 * (member - 1) + (currency - 1)) as usize
}

// Whether the book keeps such cash.
pub fn is_kept(member: u64, currency: u64) -> bool
    ensures { result ≡ kept member currency }
{
    ((1 <= member) & (member <= 64)) & ((1 <= currency) & (currency <= 2))
}

// A member's cash in a currency.
pub fn amount(cash: &[u64], member: u64, currency: u64) -> Cents
    requires { (length cash.now ≡ 128) × CashFits member currency }
    ensures { result.0 ≡ amount_of cash.now member currency }
{
    let at = place_of(member, currency);
    Cents(cash[at])
}

// More for the member.
pub fn credit(cash: &mut [u64], member: u64, currency: u64, amount: Cents)
    requires { (length cash.old ≡ 128) × CashFits member currency × (amount_of cash.old member currency + amount.0 < 2 ^ 64) }
    ensures { (h : Holdings) → with_cash cash.new h ≡ movements.credit (movements.cash_of member currency) amount.0 (with_cash cash.old h) }
{
    let at = place_of(member, currency);
    let now = cash[at];
    cash[at] = now + amount.0;
}

// Less for the member.
pub fn debit(cash: &mut [u64], member: u64, currency: u64, amount: Cents)
    requires { (length cash.old ≡ 128) × CashFits member currency × (amount.0 ≤ amount_of cash.old member currency) }
    ensures { (h : Holdings) → with_cash cash.new h ≡ movements.debit (movements.cash_of member currency) amount.0 (with_cash cash.old h) }
{
    let at = place_of(member, currency);
    let now = cash[at];
    cash[at] = now - amount.0;
}

// A currency's total over all members.
pub fn total(cash: &[u64], currency: u64) -> Cents
    requires { (length cash.now ≡ 128) × (1 ≤ currency) × (currency ≤ 2) × (total_in cash.now currency < 2 ^ 64) }
    ensures { result.0 ≡ total_in cash.now currency }
{
    let first = (currency - 1) as usize;
    let mut sum: u64 = 0;
    for member in 0..64 {
        sum += cash[2 * member + first];
    }
    Cents(sum)
}

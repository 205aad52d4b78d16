// Refusals 10 to 13: what the order says of its security, types, parties and days.
#![tactic(auto)]

ghost use Rattle.std.specs.Prelude.{◌≡◌, ◌<◌, ◌^◌};
ghost use Rattle.plain.specs.Lists.{first};
ghost use Rattle.rulebook.specs.Answers.{number_in};
ghost use Rattle.rulebook.specs.Refusals.{wrong_security, wrong_pair, wrong_parties, wrong_days, order_tests};
ghost use Rattle.book.specs.Meaning.{ledger_of};
ghost use Rattle.book.specs.Stored.{Stored};
ghost use Rattle.checking.specs.Given.{WasRead};

use rulebook::{Order, Refusal};

// RULES 7.10: an unknown security, or one that is admitted again.
fn wrong_security(book: &[u64], order: Order) -> bool
    requires { Stored book.now }
    ensures { result ≡ wrong_security (ledger_of book.now).holdings order }
{
    let form = order.form;
    let admitted = book_holdings::admitted(book, order.security);
    let asked = checking::is_within(3, 9, form) | checking::is_within(12, 14, form) | (form == 19);
    (asked & !admitted) | ((form == 2) & admitted)
}

// RULES 7.11: types that the form does not allow.
fn wrong_pair(order: Order) -> bool
    ensures { result ≡ wrong_pair order }
{
    let form = order.form;
    let debited = order.debited.typ;
    let credited = order.credited.typ;
    match form {
        3 | 13 => !types::is_free(credited),
        4 | 12 => !types::is_free(debited),
        5 | 14 => !types::are_alike(debited, credited),
        6 => !types::is_pledge(debited, credited),
        7 => !types::is_pledge(credited, debited),
        8 => !types::is_block(debited, credited),
        9 => !types::is_block(credited, debited),
        19 => !types::has_paper(debited),
        20 => !(types::is_outside(credited) | types::is_paper(credited)),
        _ => false,
    }
}

// RULES 7.12: parties that the form does not allow.
fn wrong_parties(order: Order) -> bool
    ensures { result ≡ wrong_parties order }
{
    let form = order.form;
    let shareholders_differ = order.debited.shareholder != order.credited.shareholder;
    let members_equal = order.debited.member == order.credited.member;
    let debited = parties::account_of(order.security, order.debited);
    let credited = parties::account_of(order.security, order.credited);
    let instruction = checking::is_within(12, 13, form);
    ((checking::is_within(5, 9, form) | instruction) & shareholders_differ)
        | (checking::is_within(6, 9, form) & !members_equal)
        | (instruction & members_equal)
        | (((form == 5) | (form == 14)) & (debited == credited))
}

// RULES 7.13: days that the form does not allow.
fn wrong_days(today: u64, order: Order) -> bool
    requires { (today < 2 ^ 63) × (order.trade_day < 2 ^ 63) }
    ensures { result ≡ wrong_days today order }
{
    let form = order.form;
    let instruction = checking::is_within(12, 13, form);
    let settles = order.settlement_day;
    let traded = order.trade_day;
    (checking::is_within(5, 9, form) & (settles != today))
        | (instruction & !checking::is_within(today, today + 20, settles))
        | ((form == 14) & (settles != traded + 3))
        | (instruction & (today < traded))
        | ((form == 14) & (traded != today))
}

// The order's stage: whether it lets the order pass, or the first refusal that applies.
#[tactic(auto, unfolding(rulebook::specs::Refusals::order_tests))]
pub fn check(book: &[u64], today: u64, order: Order) -> Result<(), Refusal>
    requires { Stored book.now × WasRead order × (today < 2 ^ 63) }
    ensures { number_in result ≡ first (order_tests (ledger_of book.now).holdings today order) }
{
    checking::refuse(Refusal::WrongSecurity, wrong_security(book, order))?;
    checking::refuse(Refusal::WrongTypes, wrong_pair(order))?;
    checking::refuse(Refusal::WrongParties, wrong_parties(order))?;
    checking::refuse(Refusal::WrongDays, wrong_days(today, order))
}

// What a book says, put into words that are lent, behind a look at all lengths.
#![tactic(auto)]

ghost use Rattle.std.specs.Prelude.{◌≡◌, ◌∷◌, [], OnOk};
ghost use Rattle.rulebook.specs.Ledger as Ledger;
ghost use Rattle.book.specs.Meaning.{book_length, ledger_of};
ghost use Rattle.figures.specs.Figures.{day_figures, size_figures, security_figures, request_figures, item_figures};
ghost use Rattle.telling.specs.Told.{Lent, number_of, number_in, lengths_number, Tells, TellsAt};

use rulebook::Account;

// Why nothing is told: a buffer of a wrong length, or a place behind the last. The numbers are above every refusal's.
#[derive(Clone, Copy, PartialEq, Eq)]
pub enum Wrong {
    Book = 1001,
    Values = 1004,
    Place = 1005,
}

impl From<Wrong> for u64 {
    ghost from_gives = { λ wrong number. number ≡ number_of wrong };

    fn from(wrong: Wrong) -> u64 {
        wrong as u64
    }
}

// Whether the book and the values have their lengths; else the first that has not.
#[tactic(auto, unfolding(crate::specs::Told::lengths_number))]
fn lengths(book: usize, values: usize, width: usize) -> Result<(), Wrong>
    ensures number { number_in result ≡ lengths_number book values width }
    ensures right { OnOk result ((book ≡ book_length) × (values ≡ width)) }
{
    if book != book::WORDS {
        return Err(Wrong::Book);
    }
    if values != width {
        return Err(Wrong::Values);
    }
    Ok(())
}

// The day: number, 1 where it is open, kind, cycles run, last minute, 1 where a cycle is sent.
pub fn day(book: &[u64], values: &mut [u64]) -> Result<(), Wrong>
    requires { Lent book.now }
    ensures { Tells book.now values.old (day_figures (ledger_of book.now).day) (number_in result) values.new }
{
    lengths(book.len(), values.len(), 6)?;
    figures::put_day(values, reading::day(book));
    Ok(())
}

// The rate: hundredths of LBP for one USD.
#[tactic(auto, using(crate::proofs::Answers::one_word))]
pub fn rate(book: &[u64], values: &mut [u64]) -> Result<(), Wrong>
    requires { Lent book.now }
    ensures { Tells book.now values.old ((ledger_of book.now).rate ∷ []) (number_in result) values.new }
{
    lengths(book.len(), values.len(), 1)?;
    values[0] = reading::rate(book).0;
    Ok(())
}

// How many securities are admitted, how many accounts there are, how many items wait, how many requests for paper are open.
pub fn sizes(book: &[u64], values: &mut [u64]) -> Result<(), Wrong>
    requires { Lent book.now }
    ensures { Tells book.now values.old (size_figures (ledger_of book.now)) (number_in result) values.new }
{
    lengths(book.len(), values.len(), 4)?;
    values.copy_from_slice(&[
        reading::securities(book) as u64,
        reading::accounts(book),
        reading::items(book) as u64,
        reading::requests(book),
    ]);
    Ok(())
}

// The security at a place, in order of admission: code, issued, held, outside, a custody line's four figures.
#[tactic(auto, unfolding(crate::specs::Told::place_number))]
pub fn security(book: &[u64], place: usize, values: &mut [u64]) -> Result<(), Wrong>
    requires { Lent book.now }
    ensures { TellsAt book.now values.old 4 (security_figures (ledger_of book.now).holdings)
        place (ledger_of book.now).holdings.securities (number_in result) values.new }
{
    lengths(book.len(), values.len(), 4)?;
    if reading::securities(book) <= place {
        return Err(Wrong::Place);
    }
    figures::put_security(values, reading::security_at(book, place));
    Ok(())
}

// What a security's accounts hold.
#[tactic(auto, using(crate::proofs::Answers::one_word))]
pub fn held(book: &[u64], security: u64, values: &mut [u64]) -> Result<(), Wrong>
    requires { Lent book.now }
    ensures { Tells book.now values.old (Ledger.held security (ledger_of book.now).holdings ∷ [])
        (number_in result) values.new }
{
    lengths(book.len(), values.len(), 1)?;
    values[0] = reading::held(book, security).0;
    Ok(())
}

// An account's balance.
#[tactic(auto, using(crate::proofs::Answers::one_word))]
pub fn balance(book: &[u64], account: Account, values: &mut [u64]) -> Result<(), Wrong>
    requires { Lent book.now }
    ensures { Tells book.now values.old ((ledger_of book.now).holdings.balance account ∷ []) (number_in result) values.new }
{
    lengths(book.len(), values.len(), 1)?;
    values[0] = reading::balance(book, account).0;
    Ok(())
}

// A member's cash in a currency.
#[tactic(auto, using(crate::proofs::Answers::one_word))]
pub fn cash(book: &[u64], member: u64, currency: u64, values: &mut [u64]) -> Result<(), Wrong>
    requires { Lent book.now }
    ensures { Tells book.now values.old ((ledger_of book.now).holdings.cash member currency ∷ [])
        (number_in result) values.new }
{
    lengths(book.len(), values.len(), 1)?;
    values[0] = reading::cash(book, member, currency).0;
    Ok(())
}

// The waiting item at a place, in order of arrival.
#[tactic(auto, unfolding(crate::specs::Told::place_number))]
pub fn item(book: &[u64], place: usize, values: &mut [u64]) -> Result<(), Wrong>
    requires { Lent book.now }
    ensures { TellsAt book.now values.old 18 item_figures place (ledger_of book.now).waiting
        (number_in result) values.new }
{
    lengths(book.len(), values.len(), 18)?;
    if reading::items(book) <= place {
        return Err(Wrong::Place);
    }
    figures::put_item(values, reading::item_at(book, place));
    Ok(())
}

// The request for paper that a member has open under a reference.
pub fn request(book: &[u64], member: u64, reference: u64, values: &mut [u64]) -> Result<(), Wrong>
    requires { Lent book.now }
    ensures { Tells book.now values.old (request_figures ((ledger_of book.now).requests.asked member reference))
        (number_in result) values.new }
{
    lengths(book.len(), values.len(), 5)?;
    figures::put_request(values, reading::request(book, member, reference));
    Ok(())
}

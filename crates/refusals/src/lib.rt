// Refusals 6 to 24 of an order on a book: the first that applies, in checking order, stage by stage.
#![tactic(auto)]

ghost use Rattle.std.specs.Prelude.{◌≡◌};
ghost use Rattle.plain.specs.Lists.{first};
ghost use Rattle.rulebook.specs.Answers.{number_in};
ghost use Rattle.rulebook.specs.Refusals.{refusals};
ghost use Rattle.book.specs.Meaning.{ledger_of};
ghost use Rattle.book.specs.Stored.{Kept};
ghost use Rattle.checking.specs.Given.{WasRead};

use rulebook::{Order, Refusal};

// Whether every stage lets the order pass, or the first refusal that applies.
pub fn check(book: &[u64], order: Order) -> Result<(), Refusal>
    requires { Kept book.now × WasRead order }
    ensures { number_in result ≡ first (refusals (ledger_of book.now) order) }
{
    let today = book::day(book);
    day_tests::check(today, order)?;
    order_tests::check(book, today.number, order)?;
    item_tests::check(book, order)?;
    request_tests::check(book, today.number, order)?;
    room_tests::check(book, order)
}

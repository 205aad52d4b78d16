// The trades that a cycle takes.
ghost use Rattle.std.specs.Prelude.{◌≡◌, ◌≤◌, length};
ghost use Rattle.rulebook.specs.Selection.{due};
ghost use Rattle.book.specs.Meaning.{ledger_of};
ghost use Rattle.book.specs.Stored.{Stored};
ghost use Rattle.netting.specs.Selected.{Taken};

use marks::Marks;
use rulebook::{Item, State};

// A pair or an exchange trade whose settlement day has come.
fn is_due(item: Item, day: u64) -> bool
    ensures { result ≡ due day item }
{
    let state = item.state;
    match state {
        State::Single { .. } => false,
        State::Pair { .. } => item.settlement_day <= day,
        State::Trade { .. } => item.settlement_day <= day,
    }
}

// The trades that are due today, by their marks.
pub fn due_marks(book: &[u64]) -> Marks
    requires { Stored book.now × (length (ledger_of book.now).waiting ≤ 64) }
    ensures { Taken (ledger_of book.now) result }
{
    let day = book::day(book);
    marks::on_each(
        book_items::items(book),
        |i| is_due(book_items::item_at(book, i), day.number),
    )
}

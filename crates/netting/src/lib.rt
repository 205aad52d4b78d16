// Which of the trades that a cycle takes it fixes: what each account and each member's cash has with what the trades bring, against what they take.
#![tactic(auto)]

mod due;
mod passes;
mod rounds;

ghost use Rattle.std.specs.Prelude.{map, ◌≡◌};
ghost use Rattle.rulebook.specs.Ledger.{Ledger};
ghost use Rattle.rulebook.specs.Selection.{selection};
ghost use Rattle.book.specs.Meaning.{ledger_of};
ghost use Rattle.book.specs.Stored.{Stored, Means};
ghost use Rattle.legs.specs.Ready.{Ready};
ghost use Rattle.marks.specs.Marks.{marked_of};
ghost use Rattle.netting.specs.Rounds.{mark_of};
ghost use Rattle.netting.specs.Selected.{Taken, Selected};

use legs::Legs;
use marks::Marks;

// The waiting trades that are due, and those of them that a cycle fixes.
#[derive(Clone, Copy)]
pub struct Selection {
    pub due: Marks,
    pub fixed: Marks,
}

// What the rounds and the passes make of the marks of what is due.
fn selected_marks(book: &[u64], due: Marks) -> Marks
    ghost b: { Ledger }
    requires means { Means book.now b }
    requires taken { Ready b × Taken b due }
    ensures { marked_of result b.waiting ≡ map mark_of (selection b) }
{
    let mut shares = Legs::none();
    slots::fill_shares(&mut shares, book);
    shares.add_marked(due);
    let mut cash = Legs::none();
    slots::fill_cash(&mut cash, book);
    cash.add_marked(due);
    let kept = rounds::drop_short(due, &mut shares, &mut cash);
    passes::put_back(due, kept, &mut shares, &mut cash)
}

// What a cycle does with the book as it is.
pub fn select(book: &[u64]) -> Selection
    requires { Stored book.now × Ready (ledger_of book.now) }
    ensures { Selected (ledger_of book.now) result.due result.fixed }
{
    let due = due::due_marks(book);
    let fixed = selected_marks(book, due);
    Selection { due, fixed }
}

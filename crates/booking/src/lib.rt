// One movement of shares, booked and written as its two rows: from an account to another, or out of custody.
#![tactic(auto)]

ghost use Rattle.std.specs.Prelude.{[], ◌∷◌, ◌≤◌, length};
ghost use Rattle.rulebook.specs.Movements.{account, type91, move};
ghost use Rattle.rulebook.specs.Forms.{moving};
ghost use Rattle.book.specs.Meaning.{ledger_of};
ghost use Rattle.book.specs.Stored.{Stored};
ghost use Rattle.book.specs.Handled.{Handled};
ghost use Rattle.booking.specs.Fits.{ShiftFits, LeaveFits};

use rulebook::{Account, Counts, Shares};

// From one account to another. The debit comes first, so that a full book has room for the account that is opened where one is emptied.
pub fn shift(
    book: &mut [u64],
    area: &mut [u8],
    from: Account,
    to: Account,
    quantity: Shares,
) -> Counts
    requires { Stored book.old × (32 ≤ length area.old) × ShiftFits (ledger_of book.old) from to quantity.0 }
    ensures { Handled (moving (move (account from) (account to) quantity.0 ∷ []) (ledger_of book.old)) book.new area.old
        area.new result }
{
    book_holdings::debit(book, from, quantity);
    book_holdings::credit(book, to, quantity);
    rows::write_shares(area, from, to, quantity);
    rows::two_rows()
}

// From an account out of custody.
pub fn leave(book: &mut [u64], area: &mut [u8], from: Account, quantity: Shares) -> Counts
    requires { Stored book.old × (32 ≤ length area.old) × LeaveFits (ledger_of book.old) from quantity.0 }
    ensures { Handled (moving (move (account from) (type91 from.security) quantity.0 ∷ []) (ledger_of book.old)) book.new
        area.old area.new result }
{
    let outside = parties::outside_account(from.security);
    book_holdings::leave_custody(book, from.security, quantity);
    book_holdings::debit(book, from, quantity);
    rows::write_shares(area, from, outside, quantity);
    rows::two_rows()
}

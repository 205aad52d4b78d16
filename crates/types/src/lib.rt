// What the rules ask of account types, and of the pairs of types between which shares may move. The table answers.
#![tactic(auto)]

ghost use Rattle.std.specs.Prelude.{◌≡◌, not, ◌&&◌, ◌<◌, ◌^◌, ◌%◌, ◌/◌};
ghost use Rattle.rulebook.specs.TypeTable.{pledged_as, blocked_as, type_row};
ghost use Rattle.rulebook.specs.AccountTypes.{is_free, alike, is_outside, become, has_paper, is_paper, ends};
ghost use Rattle.types.specs.Row.{named_in};

mod table;

pub const REQUESTED: u64 = table::REQUESTED;

fn state(row: u64) -> u64
    ensures { result ≡ row % 2 ^ 3 }
{
    row & 7
}

// State and nature.
fn kind(row: u64) -> u64
    ensures { result ≡ row % 2 ^ 4 }
{
    row & 15
}

fn type_at(row: u64, place: u64) -> u64
    requires { place < 64 }
    ensures { result ≡ (row / 2 ^ place) % 2 ^ 8 }
{
    row >> place & 255
}

// A row names a type at a place. Where it names none the byte is 0, which is no type.
fn names(row: u64, place: u64, typ: u64) -> bool
    requires { place < 64 }
    ensures { result ≡ named_in row place typ }
{
    (typ != 0) & (type_at(row, place) == typ)
}

pub fn is_free(typ: u64) -> bool
    ensures { result ≡ is_free typ }
{
    state(table::row(typ)) == table::FREE
}

// Of no account: where shares are that left.
pub fn is_outside(typ: u64) -> bool
    ensures { result ≡ is_outside typ }
{
    state(table::row(typ)) == table::OUTSIDE
}

// Free, and book entry.
fn is_book_entry(typ: u64) -> bool
    ensures { result ≡ (is_free typ && not (type_row typ).physical) }
{
    kind(table::row(typ)) == table::FREE
}

// Free, and physical.
fn is_physical(typ: u64) -> bool
    ensures { result ≡ (is_free typ && (type_row typ).physical) }
{
    kind(table::row(typ)) == (table::FREE | table::PHYSICAL)
}

// Free types of one nature.
pub fn are_alike(a: u64, b: u64) -> bool
    ensures { result ≡ alike a b }
{
    if is_book_entry(a) {
        return is_book_entry(b);
    }
    is_physical(a) & is_physical(b)
}

// A pledge takes shares from one type to the other; a release takes them back.
pub fn is_pledge(from: u64, to: u64) -> bool
    ensures { result ≡ become pledged_as from to }
{
    names(table::row(from), table::PLEDGED_AS, to)
}

// A block takes shares from one type to the other; an unblock takes them back.
pub fn is_block(from: u64, to: u64) -> bool
    ensures { result ≡ become blocked_as from to }
{
    names(table::row(from), table::BLOCKED_AS, to)
}

// Paper can be requested for shares of the type.
pub fn has_paper(typ: u64) -> bool
    ensures { result ≡ has_paper typ }
{
    type_at(table::row(typ), table::ON_PAPER_AS) != 0
}

// Shares of some type come here on paper.
pub fn is_paper(typ: u64) -> bool
    ensures { result ≡ is_paper typ }
{
    (table::row(typ) & table::PAPER) != 0
}

// A credited type ends a request for shares of a type: its paper's, or the one outside.
pub fn ends(came: u64, credited: u64) -> bool
    ensures { result ≡ ends came credited }
{
    is_outside(credited) | names(table::row(came), table::ON_PAPER_AS, credited)
}

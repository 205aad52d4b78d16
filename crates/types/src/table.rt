// The table of account types: a row a type, and a row is a word.
ghost use Rattle.std.specs.Prelude.{◌≡◌, ◌<◌, ◌≤◌};
ghost use Rattle.types.specs.Row.{word_of};

// The state of a type's shares, in the three lowest bits. A type that is unused has none.
pub const FREE: u64 = 1;

pub const PLEDGED: u64 = 2;

pub const BLOCKED: u64 = 3;

pub const IN_TRANSIT: u64 = 4;

pub const OUTSIDE: u64 = 5;

// A bit each: whether the holdings are physical, and whether shares of some type come here on paper.
pub const PHYSICAL: u64 = 1 << 3;

pub const PAPER: u64 = 1 << 4;

// A byte each: what shares of the type become, 0 where they never do.
pub const PLEDGED_AS: u64 = 8;

pub const BLOCKED_AS: u64 = 16;

pub const ON_PAPER_AS: u64 = 24;

// The type of shares for which paper is requested, until the request ends.
pub const REQUESTED: u64 = 50;

fn row_below_50(typ: u64) -> u64
    requires { typ < 50 }
    ensures { result ≡ word_of typ }
{
    match typ {
        10 => FREE | 11 << PLEDGED_AS | 12 << BLOCKED_AS | 110 << ON_PAPER_AS,
        11 => PLEDGED,
        12 => BLOCKED,
        20 => FREE | 21 << PLEDGED_AS | 22 << BLOCKED_AS | 120 << ON_PAPER_AS,
        21 => PLEDGED,
        22 => BLOCKED,
        _ => 0,
    }
}

fn row_below_100(typ: u64) -> u64
    requires { (50 ≤ typ) × (typ < 100) }
    ensures { result ≡ word_of typ }
{
    match typ {
        REQUESTED => IN_TRANSIT,
        91 => OUTSIDE,
        _ => 0,
    }
}

fn row_from_100(typ: u64) -> u64
    requires { 100 ≤ typ }
    ensures { result ≡ word_of typ }
{
    match typ {
        110 => PHYSICAL | PAPER | FREE | 112 << BLOCKED_AS,
        112 => PHYSICAL | BLOCKED,
        120 => PHYSICAL | PAPER | FREE | 121 << PLEDGED_AS | 122 << BLOCKED_AS,
        121 => PHYSICAL | PLEDGED,
        122 => PHYSICAL | BLOCKED,
        _ => 0,
    }
}

// The row of a type. The table has three pages, each short enough for the compiler to put its words where a question is asked.
pub fn row(typ: u64) -> u64
    ensures { result ≡ word_of typ }
{
    if typ < 50 {
        return row_below_50(typ);
    }
    if typ < 100 {
        return row_below_100(typ);
    }
    row_from_100(typ)
}

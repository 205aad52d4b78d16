// The types that the definitions of a table are written with. Nothing here runs.
#![tactic(auto)]

ghost use Rattle.std.specs.Prelude.{◌≤◌, take};
ghost use Rattle.table.specs.Places.{no_place, Known};

use cells::Kind;

// The columns of a table: how many there are, and the place of the field that each of them holds.
#[derive(Clone, Copy)]
pub struct Columns {
    pub count: usize,
    pub places: [usize; 19],
    ghost few: { count ≤ no_place },
    ghost known: { Known (take count places) },
}

// What is wrong in a line, and where: the column, counted from 1, or 0 where no single column is meant; the field's place, or 18 where no field is
// meant.
#[derive(Clone, Copy, Debug, PartialEq, Eq)]
pub struct Wrong {
    pub kind: Kind,
    pub column: usize,
    pub place: usize,
}

// Why a table is refused: the line, counted from 1, and what is wrong in it.
#[derive(Clone, Copy, Debug, PartialEq, Eq)]
pub struct Refused {
    pub line: u64,
    pub wrong: Wrong,
}

// What a line does to a walk over lines: the first of the empty lines just before the next one, and how many bytes were written.
#[derive(Clone, Copy)]
pub struct Step {
    pub empty: Option<u64>,
    pub wrote: usize,
}

// What a block's lines came to: how many bytes they take, the number of the next line, the first of the empty lines just before it, and how many bytes
// were written.
#[derive(Clone, Copy)]
pub struct Checked {
    pub used: usize,
    pub line: u64,
    pub empty: Option<u64>,
    pub wrote: usize,
}

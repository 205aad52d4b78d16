// Why a table is refused.
#[derive(Clone, Copy, Debug, PartialEq, Eq)]
pub enum Kind {
    // The file has no line.
    NoHeader,
    // The first line has more columns than a record has fields.
    TooManyColumns,
    // A column's name is none of the fields' names.
    UnknownName,
    // A column's name stands there twice.
    RepeatedName,
    // No column is named form.
    FormMissing,
    // No column is named minute.
    MinuteMissing,
    // A line has fewer cells than the first line.
    TooFewCells,
    // A line has more cells than the first line.
    TooManyCells,
    // A cell has nothing in it.
    EmptyCell,
    // A cell holds something besides the digits 0 to 9.
    NotANumber,
    // A cell's number is 2^64 or more.
    TooLarge,
    // A quote stands in a cell that cannot be read, or in a column's name.
    Quoted,
    // A cell under form holds neither a number nor a form's name.
    UnknownForm,
    // A line has nothing in it, and is the first or there is a line behind it that has.
    EmptyLine,
    // A line does not fit the buffer that it is read into.
    LongLine,
    // The record writer does not take a line's order, by this refusal of the ledger's.
    Record(u64),
}

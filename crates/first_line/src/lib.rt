// The first line of a table: columns are found by their names alone.
#![tactic(auto)]

ghost use Rattle.std.specs.Prelude.{[], ◌≡◌, ◌≤◌, ◌<◌, drop, take, length, MatchOption};
ghost use Rattle.text.specs.Parts.{split};
ghost use Rattle.cells.specs.Cells.{comma};
ghost use Rattle.table.specs.Header.{no_place, name_kind, header_from, header_of, columns_of, wrong};
ghost use Rattle.table.specs.Lines.{column_from};
ghost use Rattle.table.specs.Import.{unmarked};

use cells::Kind;
use table::{Columns, Wrong};

// Where a text starts: behind its byte-order mark, if it has one.
pub fn text_start(file: &[u8]) -> usize
    ensures { (result ≤ length file.now) × (drop result file.now ≡ unmarked file.now) }
{
    if file.starts_with(b"\xEF\xBB\xBF") {
        return 3;
    }
    0
}

// Why a column's name names no field.
fn name_kind(name: &[u8]) -> Kind
    ensures { result ≡ name_kind name.now }
{
    if name.is_empty() {
        return Kind::EmptyCell;
    }
    cells::kind_of(Kind::UnknownName, name)
}

// The column of a field, counted from 1.
pub fn column_of(places: &[usize], place: usize) -> Option<usize>
    ensures { MatchOption result (column_from 1 places.now place ≡ 0) (λ column. (column ≡ column_from 1 places.now place) × (0 < column)) }
{
    places
        .iter()
        .position(|other| *other == place)
        .map(|before| before + 1)
}

// What is wrong with a column, or with the line where it is none.
fn wrong(kind: Kind, column: usize) -> Wrong
    ensures { result ≡ wrong kind column no_place }
{
    Wrong {
        kind,
        column,
        place: 18,
    }
}

// All columns have their fields; form and minute have to be among them.
fn with_needed(columns: Columns) -> Result<Columns, Wrong>
    ensures { columns_of result ≡ header_from (take columns.count columns.places) [] }
{
    let places = &columns.places[..columns.count];
    if !places.contains(&0) {
        return Err(wrong(Kind::FormMissing, 0));
    }
    if !places.contains(&1) {
        return Err(wrong(Kind::MinuteMissing, 0));
    }
    Ok(columns)
}

// The columns that a line names that is not empty.
fn columns(line: &[u8]) -> Result<Columns, Wrong>
    ensures { columns_of result ≡ header_from [] (split comma line.now) }
{
    let mut places = [0; 19];
    let mut count: usize = 0;
    for cell in line.split(|b| *b == b',') {
        if 18 <= count {
            return Err(wrong(Kind::TooManyColumns, count + 1));
        }
        let name = cells::trimmed(cell);
        let Some(place) = names::field_place(name) else {
            return Err(wrong(name_kind(name), count + 1));
        };
        if places[..count].contains(&place) {
            return Err(wrong(Kind::RepeatedName, count + 1));
        }
        places[count] = place;
        count += 1;
    }
    with_needed(Columns { count, places })
}

// The columns that a table's first line names.
pub fn header(line: &[u8]) -> Result<Columns, Wrong>
    ensures { columns_of result ≡ header_of line.now }
{
    if cells::is_empty(line) {
        return Err(wrong(Kind::EmptyLine, 0));
    }
    columns(line)
}

// The lines of a table: each is one order.
#![tactic(auto)]

ghost use Rattle.std.specs.Prelude.{false, ◌≡◌, ◌≤◌, length};
ghost use Rattle.rulebook.specs.Record.{fields_of};
ghost use Rattle.field_rules.specs.Fields.{refused_place};
ghost use Rattle.cells.specs.declared.kind.Kind.TheVariants.{Record};
ghost use Rattle.cells.specs.Cells.{is_empty};
ghost use Rattle.table.specs.Header.{Known, wrong};
ghost use Rattle.table.specs.Lines.{form_in, optional_in, field_number, column_from, line_fields, row_of, row_written};

use cells::Kind;
use rulebook::Order;
use table::Wrong;

// The form that a text says by its number or its name.
fn form_in(text: &[u8]) -> Result<u64, Kind>
    ensures { result ≡ form_in text.now }
{
    if text.is_empty() {
        return Err(Kind::EmptyCell);
    }
    if text[0].is_ascii_digit() {
        return cells::number_in(text);
    }
    match names::form_number(text) {
        Some(form) => Ok(form),
        None => Err(cells::kind_of(Kind::UnknownForm, text)),
    }
}

// The number that a text says, which is 0 where it is empty.
fn optional_in(text: &[u8]) -> Result<u64, Kind>
    ensures { result ≡ optional_in text.now }
{
    if text.is_empty() {
        return Ok(0);
    }
    cells::number_in(text)
}

// The number that a cell says under a field's name.
fn field_number(place: usize, cell: &[u8]) -> Result<u64, Kind>
    ensures { result ≡ field_number place cell.now }
{
    let text = cells::trimmed(cell);
    match place {
        0 => form_in(text),
        1 => cells::number_in(text),
        _ => optional_in(text),
    }
}

fn wrong(kind: Kind, column: usize, place: usize) -> Wrong
    ensures { result ≡ wrong kind column place }
{
    Wrong {
        kind,
        column,
        place,
    }
}

// The numbers of a line that is not empty, each in the field of its column.
fn line_fields(line: &[u8], places: &[usize]) -> Result<[u64; 19], Wrong>
    requires { Known places.now × (is_empty line.now ≡ false) }
    ensures { result ≡ line_fields places.now line.now }
{
    let mut values = [0; 19];
    let mut column: usize = 0;
    for cell in line.split(|b| *b == b',') {
        if column == places.len() {
            return Err(wrong(Kind::TooManyCells, column + 1, 18));
        }
        let place = places[column];
        column += 1;
        match field_number(place, cell) {
            Ok(number) => values[place] = number,
            Err(kind) => return Err(wrong(kind, column, place)),
        }
    }
    if column < places.len() {
        return Err(wrong(Kind::TooFewCells, column + 1, places[column]));
    }
    Ok(values)
}

// What is wrong with an order that the record writer does not take: told of the first field to which its refusal applies.
fn wrong_order(order: Order, places: &[usize], number: u64) -> Wrong
    ensures { result ≡ wrong (Record number) (column_from 1 places.now (refused_place (fields_of order))) (refused_place (fields_of order)) }
{
    let place = field_rules::refused_place(&layout::fields_of(order));
    let column = first_line::column_of(places, place).unwrap_or(0);
    wrong(Kind::Record(number), column, place)
}

// The order of a line that is not empty, with its record at the start of a buffer; a refusal leaves the buffer.
pub fn write_row(line: &[u8], places: &[usize], out: &mut [u8]) -> Result<Order, Wrong>
    requires { Known places.now × (is_empty line.now ≡ false) × (40 ≤ length out.old) }
    ensures value { result ≡ row_of places.now line.now }
    ensures out_after { out.new ≡ row_written result out.old }
{
    let values = line_fields(line, places)?;
    let order = layout::order_of(&values);
    match record::write(order, out) {
        Ok(()) => Ok(order),
        Err(refusal) => Err(wrong_order(order, places, refusal.into())),
    }
}

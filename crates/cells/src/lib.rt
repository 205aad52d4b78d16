// The cells of a line, and the numbers in them.
#![tactic(auto)]

mod kind;

ghost use Rattle.std.specs.Prelude.{◌≡◌, ◌-◌, ◌≤◌, length, drop, take};
ghost use Rattle.cells.specs.Cells.{blank, front, back, trim, is_empty, strange, number_in};

pub use kind::Kind;

fn is_blank(b: u8) -> bool
    ensures { result ≡ blank b }
{
    matches!(b, b' ' | b'\r' | b'\t')
}

// How many blanks stand before the cell's text.
fn blanks_before(cell: &[u8]) -> usize
    ensures { (result ≤ length cell.now) × (drop result cell.now ≡ front cell.now) }
{
    cell.iter()
        .position(|b| !is_blank(*b))
        .unwrap_or(cell.len())
}

// How many blanks stand behind the text.
fn blanks_behind(text: &[u8]) -> usize
    ensures { (result ≤ length text.now) × (take (length text.now - result) text.now ≡ back text.now) }
{
    text.iter()
        .rev()
        .position(|last| !is_blank(*last))
        .unwrap_or(text.len())
}

// A cell without the blanks around it.
pub fn trimmed(cell: &[u8]) -> &[u8]
    ensures { result.now ≡ trim cell.now }
{
    let start = blanks_before(cell);
    let text = &cell[start..];
    let end = text.len() - blanks_behind(text);
    &text[..end]
}

// A line that has nothing but blanks.
pub fn is_empty(line: &[u8]) -> bool
    ensures { result ≡ is_empty line.now }
{
    line.iter().all(|b| is_blank(*b))
}

// The kind of a text that cannot be read: a quote in it is told first.
pub fn kind_of(kind: Kind, text: &[u8]) -> Kind
    ensures { result ≡ strange kind text.now }
{
    if text.contains(&b'"') {
        Kind::Quoted
    } else {
        kind
    }
}

// The number that digits say, without wrapping.
pub fn number_in(text: &[u8]) -> Result<u64, Kind>
    ensures { result ≡ number_in text.now }
{
    if text.is_empty() {
        return Err(Kind::EmptyCell);
    }
    let mut number: u64 = 0;
    for b in text {
        if !b.is_ascii_digit() {
            return Err(kind_of(Kind::NotANumber, text));
        }
        let digit = u64::from(*b) - 48;
        if (u64::MAX - digit) / 10 < number {
            return Err(Kind::TooLarge);
        }
        number = number * 10 + digit;
    }
    Ok(number)
}

// The line that is told of a refused table.
#![tactic(auto)]

ghost use Rattle.std.specs.Prelude.{◌++◌, ◌∷◌, [], map, ◌≡◌, ◌+◌, ◌≤◌, length};
ghost use Rattle.text.specs.Text.{text};
ghost use Rattle.text.specs.Parts.{line_feed};
ghost use Rattle.import_lines.specs.Told.{reason, place, shown, bracketed, told, name_at};

use cells::Kind;
use names::Table;
use table::Refused;
use text::Buffer;

#[tactic(auto, unfolding(crate::specs::Told::reason))]
fn put_reason<const N: usize>(out: &mut Buffer<N>, kind: Kind)
    requires { length out.old + 200 ≤ N }
    ensures put { out.new ≡ out.old ++ reason kind }
    ensures upper_bound { length out.new ≤ length out.old + 200 }
{
    let sentence: &[u8] = match kind {
        Kind::Record(number) => {
            return wording::put_filled(out, b"refused by #, !", &[number, number]);
        }
        Kind::NoHeader => b"the file has nothing in it",
        Kind::TooManyColumns => b"there are more columns than a record has fields",
        Kind::UnknownName => b"no field has this name",
        Kind::RepeatedName => b"a column before this one has the same name",
        Kind::FormMissing => b"no column is named form",
        Kind::MinuteMissing => b"no column is named minute",
        Kind::TooFewCells => b"the line has fewer cells than the first line",
        Kind::TooManyCells => b"the line has more cells than the first line",
        Kind::EmptyCell => b"the cell is empty",
        Kind::NotANumber => b"the cell is not a number in plain decimal digits",
        Kind::TooLarge => b"the number is too large",
        Kind::Quoted => b"cells are not quoted",
        Kind::UnknownForm => b"the cell is neither a number nor the name of a form",
        Kind::EmptyLine => b"the line is empty",
        Kind::LongLine => b"the line is too long",
    };
    out.put(sentence);
}

#[tactic(auto, unfolding(crate::specs::Told::place))]
fn put_place<const N: usize>(out: &mut Buffer<N>, why: Refused)
    requires { length out.old + 200 ≤ N }
    ensures put { out.new ≡ out.old ++ place why.line why.wrong.column }
    ensures upper_bound { length out.new ≤ length out.old + 200 }
{
    let column = why.wrong.column as u64;
    if column == 0 {
        return wording::put_filled(out, b": line #", &[why.line]);
    }
    wording::put_filled(out, b": line #, column #", &[why.line, column]);
}

fn visible(b: u8) -> u8
    ensures { result ≡ shown b }
{
    if matches!(b, b' '..=b'~') { b } else { b'?' }
}

fn put_visible<const N: usize>(out: &mut Buffer<N>, bytes: &[u8])
    requires { length out.old + length bytes.now ≤ N }
    ensures put { out.new ≡ out.old ++ map shown bytes.now }
    ensures upper_bound { length out.new ≤ length out.old + length bytes.now }
{
    for b in bytes {
        out.put(&[visible(*b)]);
    }
}

fn put_brackets<const N: usize>(out: &mut Buffer<N>, name: &[u8])
    requires { (length out.old + 83 ≤ N) × (length name.now ≤ 80) }
    ensures put { out.new ≡ out.old ++ (text " (" ++ map shown name.now ++ text ")") }
    ensures upper_bound { length out.new ≤ length out.old + 83 }
{
    out.put(b" (");
    put_visible(out, name);
    out.put(b")");
}

#[tactic(auto, unfolding(crate::specs::Told::bracketed))]
fn put_name<const N: usize>(out: &mut Buffer<N>, name: &[u8])
    requires { length out.old + 83 ≤ N }
    ensures put { out.new ≡ out.old ++ bracketed name.now }
    ensures upper_bound { length out.new ≤ length out.old + 83 }
{
    if name.len() == 0 {
        return;
    }
    if 80 < name.len() {
        return put_brackets(out, &name[..80]);
    }
    put_brackets(out, name);
}

// The file, and where in it.
fn put_where<const N: usize>(out: &mut Buffer<N>, file: &[u8], why: Refused, name: &[u8])
    requires { length out.old + length file.now + 300 ≤ N }
    ensures put { out.new ≡ out.old ++ (file.now ++ place why.line why.wrong.column ++ bracketed name.now) }
    ensures upper_bound { length out.new ≤ length out.old + length file.now + 300 }
{
    out.put(file);
    put_place(out, why);
    put_name(out, name);
}

// What is wrong, and the line's end.
fn put_wrong<const N: usize>(out: &mut Buffer<N>, kind: Kind)
    requires { length out.old + 300 ≤ N }
    ensures { out.new ≡ out.old ++ (text ": " ++ reason kind ++ (line_feed ∷ [])) }
{
    out.put(b": ");
    put_reason(out, kind);
    out.put(b"\n");
}

// The whole line, with a name that is given.
#[tactic(auto, unfolding(crate::specs::Told::told))]
fn put_told<const N: usize>(out: &mut Buffer<N>, file: &[u8], why: Refused, name: &[u8])
    requires { length out.old + length file.now + 600 ≤ N }
    ensures { out.new ≡ out.old ++ told file.now why name.now }
{
    put_where(out, file, why, name);
    put_wrong(out, why.wrong.kind);
}

// What is told of a table that is refused. The first bytes are its first line, whose cells are told themselves; of any other line a field's name is told.
#[tactic(auto, unfolding(crate::specs::Told::told))]
pub fn put_refused<const N: usize>(out: &mut Buffer<N>, file: &[u8], first: &[u8], why: Refused)
    requires { length out.old + length file.now + 600 ≤ N }
    ensures { out.new ≡ out.old ++ told file.now why (name_at first.now why) }
{
    if why.line != 1 {
        let name = Table::Fields.name(why.wrong.place as u64);
        return put_told(out, file, why, name.as_bytes());
    }
    if why.wrong.column == 0 {
        return put_told(out, file, why, b"");
    }
    let name = cells::trimmed(text::part(first, b',', why.wrong.column - 1));
    put_told(out, file, why, name);
}

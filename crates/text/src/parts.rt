// A text cut at a mark, and texts compared.
ghost use Rattle.std.specs.Prelude.{[], ◌∷◌, ◌++◌, ◌≡◌, ◌+◌, ◌≤◌, length, get_or, drop};
ghost use Rattle.text.specs.Parts.{up_to, split, same_text, Short};

use crate::Buffer;

// The place of the first mark from a place on, or the end.
pub fn end_of(bytes: &[u8], at: usize, mark: u8) -> usize
    requires { at ≤ length bytes.now }
    ensures { (result ≡ at + up_to mark (drop at bytes.now)) × (result ≤ length bytes.now) }
{
    let rest = &bytes[at..];
    let before = rest.iter().position(|b| *b == mark);
    at + before.unwrap_or(rest.len())
}

pub fn same(one: &[u8], other: &[u8]) -> bool
    ensures { result ≡ same_text one.now other.now }
{
    one == other
}

// The part of a text at a place, counted from 0; nothing where it has fewer.
pub fn part(bytes: &[u8], mark: u8, place: usize) -> &[u8]
    ensures { result.now ≡ get_or (split mark bytes.now) place [] }
{
    bytes.split(|b| *b == mark).nth(place).unwrap_or(&[])
}

// The part with a number, counted from 1; nothing where there is none. Names have at most 80 bytes.
pub fn put_part<const N: usize>(out: &mut Buffer<N>, bytes: &[u8], mark: u8, number: u64)
    requires { (length out.old + 80 ≤ N) × Short (split mark bytes.now) }
    ensures put { out.new ≡ out.old ++ get_or ([] ∷ split mark bytes.now) number [] }
    ensures upper_bound { length out.new ≤ length out.old + 80 }
{
    if number != 0 {
        out.put(part(bytes, mark, (number - 1) as usize));
    }
}

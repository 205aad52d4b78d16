// Rows read from their 16 bytes.
ghost use Rattle.std.specs.Prelude.{◌≡◌, ◌≤◌, length};
ghost use Rattle.rulebook.specs.Rows.{posting_in, notice_in};

use rulebook::{Notice, Posting};

pub fn posting_in(row: &[u8]) -> Posting
    requires { 16 ≤ length row.now }
    ensures { result ≡ posting_in row.now }
{
    Posting {
        credit: bits::get_bits(row, 0, 1),
        cash: bits::get_bits(row, 1, 1),
        what: bits::get_bits(row, 2, 14),
        member: bits::get_bits(row, 16, 10),
        typ: bits::get_bits(row, 26, 8),
        shareholder: bits::get_bits(row, 34, 30),
        number: bits::get_bits(row, 64, 64),
    }
}

pub fn notice_in(row: &[u8]) -> Notice
    requires { 16 ≤ length row.now }
    ensures { result ≡ notice_in row.now }
{
    Notice {
        kind: bits::get_bits(row, 0, 4),
        deliverer: bits::get_bits(row, 4, 10),
        receiver: bits::get_bits(row, 14, 10),
        deliver_reference: bits::get_bits(row, 24, 32),
        receive_reference: bits::get_bits(row, 56, 32),
    }
}

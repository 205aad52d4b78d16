// A request's line.
ghost use Rattle.std.specs.Prelude.{◌++◌, ◌≡◌, ◌+◌, ◌≤◌, length};
ghost use Rattle.sheet_requests.specs.Line.{request_line};

use rulebook::Request;
use text::Buffer;

#[tactic(auto, unfolding(crate::specs::Line::request_line))]
pub fn put_line<const N: usize>(
    out: &mut Buffer<N>,
    page: bool,
    member: u64,
    reference: u64,
    request: Request,
)
    requires { length out.old + 900 ≤ N }
    ensures put { out.new ≡ out.old ++ request_line page member reference request }
    ensures upper_bound { length out.new ≤ length out.old + 900 }
{
    text_or_page::put_written(
        out,
        page,
        b"REQUEST MEMBER # REFERENCE # SECURITY # TYPE # (%) SHAREHOLDER # QUANTITY # DAY #\n",
        b"<tr><td class=n>#</td><td class=n>#</td><td class=n>#</td><td class=n>#</td><td>%</td>\
        <td class=n>#</td><td class=n>#</td><td class=n>#</td></tr>\n",
        &[
            member,
            reference,
            request.security,
            request.typ,
            request.typ,
            request.shareholder,
            request.quantity.0,
            request.day,
        ],
    );
}

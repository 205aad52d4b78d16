// Whether a sent cycle has fixed the item, and the halves of a pair that are marked for cancellation.
ghost use Rattle.std.specs.Prelude.{◌++◌, ◌≡◌, ◌+◌, ◌≤◌, length};
ghost use Rattle.sheet_state.specs.State.{sent_of, halves_of, marks_of};

use rulebook::State;
use text::Buffer;

// That a sent cycle has fixed the item (RULES 9.19).
#[tactic(auto, unfolding(crate::specs::State::sent_of))]
pub fn put_sent<const N: usize>(out: &mut Buffer<N>, page: bool, sent: bool)
    requires { length out.old + 50 ≤ N }
    ensures put { out.new ≡ out.old ++ sent_of page sent }
    ensures upper_bound { length out.new ≤ length out.old + 50 }
{
    text_or_page::put_where(
        out,
        page,
        sent,
        b" IN THE SENT CYCLE",
        b"in the sent cycle<br>",
    );
}

// The marks of a pair's halves.
fn put_halves<const N: usize>(out: &mut Buffer<N>, page: bool, deliver: bool, receive: bool)
    requires { length out.old + 60 ≤ N }
    ensures put { out.new ≡ out.old ++ halves_of page deliver receive }
    ensures upper_bound { length out.new ≤ length out.old + 60 }
{
    text_or_page::put_where(out, page, deliver, b" DELIVER MARKED", b"deliver");
    text_or_page::put_where(out, page, receive, b" RECEIVE MARKED", b"receive");
}

// The marks of a pair; other items have none.
#[tactic(auto, unfolding(crate::specs::State::marks_of))]
pub fn put_marks<const N: usize>(out: &mut Buffer<N>, page: bool, state: State)
    requires { length out.old + 60 ≤ N }
    ensures put { out.new ≡ out.old ++ marks_of page state }
    ensures upper_bound { length out.new ≤ length out.old + 60 }
{
    match state {
        State::Single { .. } => (),
        State::Pair {
            deliver_marked,
            receive_marked,
            ..
        } => put_halves(out, page, deliver_marked, receive_marked),
        State::Trade { .. } => (),
    }
}

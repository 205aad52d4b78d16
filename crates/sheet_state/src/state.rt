// The state of a waiting item, with its references.
ghost use Rattle.std.specs.Prelude.{◌++◌, ◌≡◌, ◌+◌, ◌≤◌, length};
ghost use Rattle.sheet_state.specs.State.{state_of};

use rulebook::State;
use text::Buffer;

#[tactic(auto, unfolding(crate::specs::State::state_of))]
fn put_single<const N: usize>(out: &mut Buffer<N>, page: bool, delivers: bool, reference: u64)
    requires { length out.old + 130 ≤ N }
    ensures put { out.new ≡ out.old ++ state_of page (State.Single delivers reference) }
    ensures upper_bound { length out.new ≤ length out.old + 130 }
{
    if delivers {
        return text_or_page::put_one(
            out,
            page,
            b"DELIVER #",
            b"<tr><td>deliver</td><td>#</td>",
            reference,
        );
    }
    text_or_page::put_one(
        out,
        page,
        b"RECEIVE #",
        b"<tr><td>receive</td><td>#</td>",
        reference,
    );
}

// The state and the references.
#[tactic(auto, unfolding(crate::specs::State::state_of))]
pub fn put_state<const N: usize>(out: &mut Buffer<N>, page: bool, state: State)
    requires { length out.old + 220 ≤ N }
    ensures put { out.new ≡ out.old ++ state_of page state }
    ensures upper_bound { length out.new ≤ length out.old + 220 }
{
    match state {
        State::Single {
            delivers,
            reference,
        } => put_single(out, page, delivers, reference),
        State::Pair {
            deliver_reference,
            receive_reference,
            ..
        } => text_or_page::put_written(
            out,
            page,
            b"PAIR # AND #",
            b"<tr><td>pair</td><td># and #</td>",
            &[deliver_reference, receive_reference],
        ),
        State::Trade { reference } => text_or_page::put_one(
            out,
            page,
            b"EXCHANGE TRADE #",
            b"<tr><td>exchange trade</td><td>#</td>",
            reference,
        ),
    }
}

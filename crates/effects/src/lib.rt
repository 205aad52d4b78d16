// What an accepted order does, by its form.
#![tactic(auto)]

ghost use Rattle.rulebook.specs.Forms.{effect};
ghost use Rattle.book.specs.Meaning.{ledger_of};
ghost use Rattle.book.specs.Handled.{Handled};
ghost use Rattle.checking.specs.Given.{Accepted};

use rulebook::{Counts, Order};

// The handler of the form is called. A number without a form does nothing.
pub fn handle(book: &mut [u64], order: Order, area: &mut [u8]) -> Counts
    requires { Accepted book.old order area.old }
    ensures { Handled (effect (ledger_of book.old) order) book.new area.old area.new result }
{
    let form = order.form;
    match form {
        1 => day::open_day(book, order),
        2 => movements::admit(book, order, area),
        3 => movements::deposit(book, order, area),
        4 => movements::withdraw(book, order, area),
        5 | 6 | 7 | 8 | 9 => movements::transfer(book, order, area),
        10 => movements::pay_in(book, order, area),
        11 => movements::pay_out(book, order, area),
        12 | 13 => instructions::instruct(book, order),
        14 => instructions::trade(book, order),
        15 => instructions::cancel(book, order, area),
        16 => cycle::send(book),
        17 => closing::close(book, order, area),
        18 => instructions::set_rate(book, order),
        19 => rematerialization::request_paper(book, order, area),
        20 => rematerialization::end_request(book, order, area),
        21 => answer::answer_cycle(book, order, area),
        _ => rows::no_counts(),
    }
}

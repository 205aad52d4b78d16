// Refusals 6 to 9, 22 and 23: what the day and the order settle.
#![tactic(auto)]

ghost use Rattle.std.specs.Prelude.{◌≡◌, get_or, length, ◌≤◌};
ghost use Rattle.plain.specs.Lists.{first};
ghost use Rattle.rulebook.specs.Answers.{number_in};
ghost use Rattle.rulebook.specs.Windows.{cycle_minutes, all_run, office_end, by_kind};
ghost use Rattle.rulebook.specs.Forms.{forms, window_of};
ghost use Rattle.rulebook.specs.Refusals.{wrong_day, wrong_cycle, awaits_answer, nothing_sent, goes_back, outside_window, day_tests};
ghost use Rattle.day_tests.specs.Window.{payment_end, answer_end, cycles_of};

use rulebook::{Day, Order, Refusal};

// RULES 7.6: no day can open, or none is open.
fn wrong_day(day: Day, order: Order) -> bool
    ensures { result ≡ wrong_day day order }
{
    if order.form == 1 {
        return day.opened | (day.number == 60_000);
    }
    !day.opened
}

fn by_kind(kind: u64, one: u64, two: u64) -> u64
    ensures { result ≡ by_kind kind one two }
{
    if kind == 1 {
        return one;
    }
    two
}

// How many cycles a day of that kind has.
fn cycles_of(kind: u64) -> u64
    ensures { result ≡ cycles_of kind }
{
    if kind == 1 {
        return 3;
    }
    2
}

// Whether all cycles of the day have run.
fn is_all_run(day: Day) -> bool
    ensures { result ≡ all_run day }
{
    cycles_of(day.kind) <= day.cycles
}

// RULES 7.7: a cycle too many, or a close too early.
fn wrong_cycle(day: Day, order: Order) -> bool
    ensures { result ≡ wrong_cycle day order }
{
    let all_run = is_all_run(day);
    ((order.form == 16) & all_run) | ((order.form == 17) & !all_run)
}

// RULES 7.22: cash, a further cycle or a close, while a cycle is sent.
fn awaits_answer(day: Day, order: Order) -> bool
    ensures { result ≡ awaits_answer day order }
{
    let form = order.form;
    ((form == 10) | (form == 11) | (form == 16) | (form == 17)) & day.sent
}

// RULES 7.23: an answer where no cycle is sent.
fn nothing_sent(day: Day, order: Order) -> bool
    ensures { result ≡ nothing_sent day order }
{
    (order.form == 21) & !day.sent
}

// RULES 7.8: the minute goes back.
fn goes_back(day: Day, order: Order) -> bool
    ensures { result ≡ goes_back day order }
{
    (order.form != 1) & (order.minute < day.minute)
}

// RULES 4.9: the next cycle's earliest minute.
fn cycle_minute(kind: u64, cycles: u64) -> u64
    ensures { result ≡ get_or (cycle_minutes kind) cycles 0 }
{
    if cycles == 0 {
        return 585;
    }
    if cycles == 1 {
        return 705;
    }
    if cycles == 2 {
        return by_kind(kind, 825, 0);
    }
    0
}

// A window of minutes, both ends inside.
#[derive(Clone, Copy)]
struct Window {
    first: u64,
    last: u64,
}

fn between(first: u64, last: u64) -> Window
    ensures { (result.first ≡ first) × (result.last ≡ last) }
{
    Window { first, last }
}

// When the office ends.
fn office_end(kind: u64) -> u64
    ensures { result ≡ office_end kind }
{
    by_kind(kind, 960, 900)
}

// Instructions end earlier where the settlement day is today.
fn payment_end(day: Day, settlement_day: u64) -> u64
    ensures { result ≡ payment_end day settlement_day }
{
    if settlement_day == day.number {
        return by_kind(day.kind, 825, 705);
    }
    office_end(day.kind)
}

// RULES 4.17: an answer may come until the day's end when no cycle is still to run.
fn answer_end(day: Day) -> u64
    ensures { result ≡ answer_end day }
{
    if is_all_run(day) {
        return 1439;
    }
    office_end(day.kind)
}

fn window_of(day: Day, order: Order) -> Window
    requires { (1 ≤ order.form) × (order.form ≤ length forms) }
    ensures { (result.first ≡ (window_of day order).0) × (result.last ≡ (window_of day order).1) }
{
    let form = order.form;
    let kind = day.kind;
    if form == 1 {
        return between(0, 480);
    }
    if checking::is_within(3, 9, form) | checking::is_within(19, 20, form) {
        return between(510, by_kind(kind, 870, 750));
    }
    if checking::is_within(12, 13, form) {
        return between(480, payment_end(day, order.settlement_day));
    }
    if form == 16 {
        return between(cycle_minute(kind, day.cycles), office_end(kind));
    }
    if form == 17 {
        return between(office_end(kind), 1439);
    }
    if form == 21 {
        return between(480, answer_end(day));
    }
    between(480, office_end(kind))
}

// RULES 7.9: outside the form's window.
fn outside_window(day: Day, order: Order) -> bool
    requires { (1 ≤ order.form) × (order.form ≤ length forms) }
    ensures { result ≡ outside_window day order }
{
    let window = window_of(day, order);
    !checking::is_within(window.first, window.last, order.minute)
}

// The day's stage: whether it lets the order pass, or the first refusal that applies.
#[tactic(auto, unfolding(rulebook::specs::Refusals::day_tests))]
pub fn check(day: Day, order: Order) -> Result<(), Refusal>
    requires { (1 ≤ order.form) × (order.form ≤ length forms) }
    ensures { number_in result ≡ first (day_tests day order) }
{
    checking::refuse(Refusal::WrongDay, wrong_day(day, order))?;
    checking::refuse(Refusal::WrongCycle, wrong_cycle(day, order))?;
    checking::refuse(Refusal::AwaitsAnswer, awaits_answer(day, order))?;
    checking::refuse(Refusal::NothingSent, nothing_sent(day, order))?;
    checking::refuse(Refusal::MinuteGoesBack, goes_back(day, order))?;
    checking::refuse(Refusal::OutsideWindow, outside_window(day, order))
}

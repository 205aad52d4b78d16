// A valid order of each form.
ghost use Rattle.std.specs.Prelude.{◌≡◌};

use rulebook::{Cents, Order, Party, Shares};

fn party(member: u64, typ: u64, shareholder: u64) -> Party {
    Party {
        member,
        typ,
        shareholder,
    }
}

// An order at minute 540.
fn order(
    form: u64,
    security: u64,
    currency: u64,
    debited: Party,
    credited: Party,
    quantity: u64,
    amount: u64,
    trade_day: u64,
    settlement_day: u64,
    reference: u64,
) -> Order
    ensures { (result.form ≡ form) × (result.minute ≡ 540) }
{
    Order {
        form,
        minute: 540,
        security,
        currency,
        debited,
        credited,
        quantity: Shares(quantity),
        amount: Cents(amount),
        trade_day,
        settlement_day,
        reference,
        operation: 0,
        original: 0,
        edition: 0,
    }
}

pub fn sample(form: u64) -> Order
    ensures { (result.form ≡ form) × (result.minute ≡ 540) }
{
    let nobody = party(0, 0, 0);
    let debited = party(7, 20, 5);
    let credited = party(8, 20, 5);
    match form {
        1 => order(form, 0, 0, nobody, nobody, 1, 0, 0, 0, 0),
        2 => order(form, 101, 0, nobody, nobody, 1000, 0, 0, 0, 0),
        3 => order(form, 101, 0, nobody, credited, 400, 0, 0, 0, 0),
        4 => order(form, 101, 0, debited, nobody, 400, 0, 0, 0, 0),
        5..=9 => order(form, 101, 0, debited, credited, 400, 0, 0, 1, 0),
        10 => order(form, 0, 1, nobody, party(8, 0, 0), 0, 100000, 0, 0, 0),
        11 => order(form, 0, 1, party(7, 0, 0), nobody, 0, 100000, 0, 0, 0),
        12 => order(form, 101, 1, debited, party(8, 0, 5), 400, 100000, 1, 1, 31),
        13 => order(
            form,
            101,
            1,
            party(7, 0, 5),
            credited,
            400,
            100000,
            1,
            1,
            31,
        ),
        14 => order(form, 101, 1, debited, credited, 400, 100000, 1, 4, 31),
        15 => order(form, 0, 0, party(7, 0, 0), nobody, 0, 0, 0, 0, 31),
        18 => order(form, 0, 0, nobody, nobody, 150750, 0, 0, 0, 0),
        19 => order(form, 101, 0, debited, nobody, 400, 0, 0, 0, 31),
        20 => order(form, 0, 0, party(7, 0, 0), party(0, 120, 0), 0, 0, 0, 0, 31),
        21 => order(form, 0, 0, nobody, nobody, 1, 0, 0, 0, 0),
        _ => order(form, 0, 0, nobody, nobody, 0, 0, 0, 0, 0),
    }
}

// A record's layout: its fields packed without gaps, and behind them the bits that no field has.
#![tactic(auto)]

pub mod places;

ghost use Rattle.std.specs.Prelude.{◌≡◌, ◌≤◌, length};
ghost use Rattle.rulebook.specs.Record.{fields_in, fields_of, order_of};

use rulebook::{Cents, Order, Party, Shares};

// The fields' widths in bits.
pub const WIDTHS: [usize; 19] = [
    5, 11, 14, 2, 10, 8, 10, 8, 30, 30, 40, 40, 16, 16, 32, 3, 32, 1, 12,
];

// The fields that a record's bytes hold.
pub fn fields_in(record: &[u8]) -> [u64; 19]
    requires { 40 ≤ length «record».now }
    ensures { result ≡ fields_in «record».now }
{
    [
        bits::get_bits(record, 0, 5),
        bits::get_bits(record, 5, 11),
        bits::get_bits(record, 16, 14),
        bits::get_bits(record, 30, 2),
        bits::get_bits(record, 32, 10),
        bits::get_bits(record, 42, 8),
        bits::get_bits(record, 50, 10),
        bits::get_bits(record, 60, 8),
        bits::get_bits(record, 68, 30),
        bits::get_bits(record, 98, 30),
        bits::get_bits(record, 128, 40),
        bits::get_bits(record, 168, 40),
        bits::get_bits(record, 208, 16),
        bits::get_bits(record, 224, 16),
        bits::get_bits(record, 240, 32),
        bits::get_bits(record, 272, 3),
        bits::get_bits(record, 275, 32),
        bits::get_bits(record, 307, 1),
        bits::get_bits(record, 308, 12),
    ]
}

// The order of such fields; what stands behind them is not looked at.
#[tactic(auto, unfolding(rulebook::specs::Record::order_of))]
pub fn order_of(fields: &[u64]) -> Order
    requires { 18 ≤ length fields.now }
    ensures { result ≡ order_of fields.now }
{
    Order {
        form: fields[places::FORM],
        minute: fields[places::MINUTE],
        security: fields[places::SECURITY],
        currency: fields[places::CURRENCY],
        debited: Party {
            member: fields[places::DEBITED_MEMBER],
            typ: fields[places::DEBITED_TYPE],
            shareholder: fields[places::DEBITED_SHAREHOLDER],
        },
        credited: Party {
            member: fields[places::CREDITED_MEMBER],
            typ: fields[places::CREDITED_TYPE],
            shareholder: fields[places::CREDITED_SHAREHOLDER],
        },
        quantity: Shares(fields[places::QUANTITY]),
        amount: Cents(fields[places::AMOUNT]),
        trade_day: fields[places::TRADE_DAY],
        settlement_day: fields[places::SETTLEMENT_DAY],
        reference: fields[places::REFERENCE],
        operation: fields[places::OPERATION],
        original: fields[places::ORIGINAL],
        edition: fields[places::EDITION],
    }
}

// The fields of an order, and 0 for the bits behind them. A function, since `From` of one crate's order for an array cannot stand in another crate.
#[tactic(auto, unfolding(rulebook::specs::Record::fields_of))]
pub fn fields_of(order: Order) -> [u64; 19]
    ensures { result ≡ fields_of order }
{
    let Order {
        debited,
        credited,
        ..
    } = order;
    [
        order.form,
        order.minute,
        order.security,
        order.currency,
        debited.member,
        debited.typ,
        credited.member,
        credited.typ,
        debited.shareholder,
        credited.shareholder,
        order.quantity.0,
        order.amount.0,
        order.trade_day,
        order.settlement_day,
        order.reference,
        order.operation,
        order.original,
        order.edition,
        0,
    ]
}

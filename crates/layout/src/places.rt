// The fields' places in a record; the last is that of the bits that no field has.
pub const FORM: usize = 0;

pub const MINUTE: usize = 1;

pub const SECURITY: usize = 2;

pub const CURRENCY: usize = 3;

pub const DEBITED_MEMBER: usize = 4;

pub const DEBITED_TYPE: usize = 5;

pub const CREDITED_MEMBER: usize = 6;

pub const CREDITED_TYPE: usize = 7;

pub const DEBITED_SHAREHOLDER: usize = 8;

pub const CREDITED_SHAREHOLDER: usize = 9;

pub const QUANTITY: usize = 10;

pub const AMOUNT: usize = 11;

pub const TRADE_DAY: usize = 12;

pub const SETTLEMENT_DAY: usize = 13;

pub const REFERENCE: usize = 14;

pub const OPERATION: usize = 15;

pub const ORIGINAL: usize = 16;

pub const EDITION: usize = 17;

pub const SPARE: usize = 18;

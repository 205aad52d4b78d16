// The types of the depository ledger. The definitions in specs/ speak of these under specs.declared.
#![tactic(auto)]

ghost use Rattle.std.specs.Prelude.{◌≡◌};
ghost use Rattle.rulebook.specs.Answers.{number_of};

// A count of shares.
#[derive(Clone, Copy, PartialEq, Eq, PartialOrd, Ord)]
pub struct Shares(pub u64);

// An amount of cash, in hundredths.
#[derive(Clone, Copy, PartialEq, Eq, PartialOrd, Ord)]
pub struct Cents(pub u64);

// A rate: hundredths of LBP for one USD. It is neither shares nor cash.
#[derive(Clone, Copy, PartialEq, Eq)]
pub struct Rate(pub u64);

// One side of an order: a member, an account type and a shareholder. (`type` is a word of the language.)
#[derive(Clone, Copy, PartialEq, Eq)]
pub struct Party {
    pub member: u64,
    pub typ: u64,
    pub shareholder: u64,
}

// An account: a party in a security.
#[derive(Clone, Copy, PartialEq, Eq)]
pub struct Account {
    pub security: u64,
    pub member: u64,
    pub typ: u64,
    pub shareholder: u64,
}

// A record's fields.
#[derive(Clone, Copy, PartialEq, Eq)]
pub struct Order {
    pub form: u64,
    pub minute: u64,
    pub security: u64,
    pub currency: u64,
    pub debited: Party,
    pub credited: Party,
    pub quantity: Shares,
    pub amount: Cents,
    pub trade_day: u64,
    pub settlement_day: u64,
    pub reference: u64,
    // An operation on another trade, and that trade's reference.
    pub operation: u64,
    pub original: u64,
    // The edition of the pairs of account types.
    pub edition: u64,
}

// Why a record or a call is refused, by the numbers of RULES 7.
#[derive(Clone, Copy, PartialEq, Eq)]
pub enum Refusal {
    ShortArea = 1,
    RecordLength,
    NoForm,
    UnusedField,
    FieldRange,
    WrongDay,
    WrongCycle,
    MinuteGoesBack,
    OutsideWindow,
    WrongSecurity,
    WrongTypes,
    WrongParties,
    WrongDays,
    WrongReference,
    WrongCancel,
    TooLittle,
    OverCeiling,
    NoSpace,
    WrongRequest,
    EndsTooSoon,
    TooManyRequests,
    AwaitsAnswer,
    NothingSent,
    CancelsSent,
}

impl From<Refusal> for u64 {
    ghost from_gives = { λ refusal number. number ≡ number_of refusal };

    fn from(refusal: Refusal) -> u64 {
        refusal as u64
    }
}

// What an accepted call answers with (RULES 1.8): rows, four counts of sides, and trades that a cycle leaves.
#[derive(Clone, Copy, PartialEq, Eq)]
pub struct Counts {
    pub rows: u64,
    pub settled: u64,
    pub cancelled: u64,
    pub deleted: u64,
    pub suspended: u64,
    pub left: u64,
}

// The day (RULES 4): its number, whether it is open, its kind, how many cycles have run, the last minute, and whether a cycle is sent that nobody has
// answered yet.
#[derive(Clone, Copy, PartialEq, Eq)]
pub struct Day {
    pub number: u64,
    pub opened: bool,
    pub kind: u64,
    pub cycles: u64,
    pub minute: u64,
    pub sent: bool,
}

// An admitted security (RULES 3.1, 3.19): its code, how many shares of it are issued, are outside, and are held in its accounts.
#[derive(Clone, Copy, PartialEq, Eq)]
pub struct Security {
    pub code: u64,
    pub issued: Shares,
    pub outside: Shares,
    pub held: Shares,
}

// A request for paper (RULES 3.15): of which shares, the type that they came from, how many, and the day on which it was made.
#[derive(Clone, Copy, PartialEq, Eq)]
pub struct Request {
    pub security: u64,
    pub typ: u64,
    pub shareholder: u64,
    pub quantity: Shares,
    pub day: u64,
}

// The state of a waiting item (RULES 1.19): a single is a deliver or else a receive.
#[derive(Clone, Copy, PartialEq, Eq)]
pub enum State {
    Single {
        delivers: bool,
        reference: u64,
    },
    Pair {
        deliver_reference: u64,
        receive_reference: u64,
        deliver_marked: bool,
        receive_marked: bool,
    },
    Trade {
        reference: u64,
    },
}

// A waiting item, and whether a sent cycle has fixed it (RULES 9.19).
#[derive(Clone, Copy, PartialEq, Eq)]
pub struct Item {
    pub security: u64,
    pub currency: u64,
    pub debited: Party,
    pub credited: Party,
    pub quantity: Shares,
    pub amount: Cents,
    pub trade_day: u64,
    pub settlement_day: u64,
    pub state: State,
    pub sent: bool,
}

// A posting row. `what` is the security or the currency, and `number` the quantity or the amount.
#[derive(Clone, Copy, PartialEq, Eq)]
pub struct Posting {
    pub credit: u64,
    pub cash: u64,
    pub what: u64,
    pub member: u64,
    pub typ: u64,
    pub shareholder: u64,
    pub number: u64,
}

// A notice row: why an item left, its members and their references.
#[derive(Clone, Copy, PartialEq, Eq)]
pub struct Notice {
    pub kind: u64,
    pub deliverer: u64,
    pub receiver: u64,
    pub deliver_reference: u64,
    pub receive_reference: u64,
}

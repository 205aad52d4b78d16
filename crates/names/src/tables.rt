// The tables of names, in the order of the rulebook's.
ghost use Rattle.std.specs.Prelude.{◌∷◌, [], ◌≡◌, ◌≤◌, map, length, get_or};
ghost use Rattle.rulebook.specs.Names.{type_name};
ghost use Rattle.text.specs.Text.{text};
ghost use Rattle.text.specs.Parts.{Short};
ghost use Rattle.names.specs.Tables.{name_of};

pub const FIELDS: [&str; 18] = [
    "form",
    "minute",
    "security",
    "currency",
    "debited member",
    "debited type",
    "credited member",
    "credited type",
    "debited shareholder",
    "credited shareholder",
    "quantity",
    "amount",
    "trade day",
    "settlement day",
    "reference",
    "operation",
    "original",
    "edition",
];

pub const FORMS: [&str; 21] = [
    "open day",
    "admit",
    "deposit",
    "withdrawal",
    "transfer",
    "pledge",
    "release",
    "block",
    "unblock",
    "pay-in",
    "pay-out",
    "deliver",
    "receive",
    "exchange trade",
    "cancel",
    "cycle",
    "close",
    "set rate",
    "request paper",
    "end request",
    "answer cycle",
];

const CURRENCIES: [&str; 2] = ["USD", "LBP"];

const REFUSALS: [&str; 24] = [
    "the area is too short",
    "the record does not have 40 bytes",
    "there is no such form",
    "a field that the form does not use is not 0",
    "a field that the form uses is out of its range",
    "a day is open already, or none is open, or no day is left",
    "the day has had all its cycles, or has not had them yet",
    "the minute goes back",
    "the minute is outside the form's window",
    "the security is not admitted, or is admitted already",
    "the form does not allow these account types",
    "the form does not allow these parties",
    "the form does not allow these days",
    "the reference is taken already, or nothing waits under it",
    "this sender cannot cancel the item",
    "there is less than is asked for",
    "the currency's cash would pass its ceiling",
    "the book has no room",
    "the request is open already, or is not open, or does not end so",
    "the request was made today",
    "the book has sixteen requests already",
    "a sent cycle has not been answered",
    "no cycle is sent",
    "the trade is in a sent cycle",
];

const NOTICES: [&str; 4] = [
    "deleted single",
    "aged pair",
    "suspended exchange trade",
    "cancelled pair",
];

// A table of names, and what it is asked by.
#[derive(Clone, Copy)]
pub enum Table {
    // A field's place, from 0.
    Fields,
    // A form's number, from 1.
    Forms,
    // A currency's number, from 1.
    Currencies,
    // An account type.
    Types,
    // A refusal's number, from 1.
    Refusals,
    // A notice's kind, from 1.
    Notices,
}

impl Table {
    // The name of a number; no letters where it has none.
    pub fn name(self, number: u64) -> &'static str
        ensures name { result.now ≡ text (name_of self number) }
        ensures short { length result.now ≤ 80 }
    {
        match self {
            Table::Fields => name_at(&FIELDS, number),
            Table::Forms => name_from1(&FORMS, number),
            Table::Currencies => name_from1(&CURRENCIES, number),
            Table::Types => type_name(number),
            Table::Refusals => name_from1(&REFUSALS, number),
            Table::Notices => name_from1(&NOTICES, number),
        }
    }
}

// The name at a place; no letters behind the last.
fn name_at(names: &'static [&'static str], place: u64) -> &'static str
    requires { Short (map (λ name. name.now) names.now) }
    ensures name { result.now ≡ get_or (map (λ name. name.now) names.now) place [] }
    ensures short { length result.now ≤ 80 }
{
    names.get(place as usize).copied().unwrap_or("")
}

// The name of a number from 1 on; no letters where there is none.
fn name_from1(names: &'static [&'static str], number: u64) -> &'static str
    requires { Short (map (λ name. name.now) names.now) }
    ensures name { result.now ≡ get_or ([] ∷ map (λ name. name.now) names.now) number [] }
    ensures short { length result.now ≤ 80 }
{
    if number == 0 {
        return "";
    }
    name_at(names, number - 1)
}

fn type_name(typ: u64) -> &'static str
    ensures name { result.now ≡ text (type_name typ) }
    ensures short { length result.now ≤ 80 }
{
    match typ {
        10 => "own",
        11 => "own pledged",
        12 => "own blocked",
        20 => "clients'",
        21 => "clients' pledged",
        22 => "clients' blocked",
        50 => "paper requested",
        91 => "outside",
        110 => "own physical",
        112 => "own physical blocked",
        120 => "clients' physical",
        121 => "clients' physical pledged",
        122 => "clients' physical blocked",
        _ => "",
    }
}

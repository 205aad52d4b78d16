// Refusals 3, 4 and 5, which reader and writer share.
#![tactic(auto)]

ghost use Rattle.std.specs.Prelude.{◌≡◌, true, false, not, ◌&&◌, ◌||◌, [], ◌∷◌, map, ◌<◌, get_or, MatchOption};
ghost use Rattle.std.specs.Int.Bits.{bit_or};
ghost use Rattle.plain.specs.Lists.{◌is◌, ◌is_not◌, within, some, first};
ghost use Rattle.rulebook.specs.Answers.{number_of, number_in, number_found};
ghost use Rattle.rulebook.specs.Field.{places};
ghost use Rattle.rulebook.specs.Forms.{most};
ghost use Rattle.rulebook.specs.Record.{no_form};
ghost use Rattle.field_rules.specs.Fields.{has, least_in, RuledBy, RuleOf, fields_refusal, refused_place};

use layout::places;
use rulebook::Refusal;

// Sets of fields, a bit for each at its place.
const MINUTE: u64 = 1 << places::MINUTE;

const FORM_AND_MINUTE: u64 = 1 << places::FORM | MINUTE;

const SECURITY: u64 = 1 << places::SECURITY;

const CURRENCY: u64 = 1 << places::CURRENCY;

const DEBITED_MEMBER: u64 = 1 << places::DEBITED_MEMBER;

const DEBITED_TYPE: u64 = 1 << places::DEBITED_TYPE;

const DEBITED: u64 = DEBITED_MEMBER | DEBITED_TYPE | 1 << places::DEBITED_SHAREHOLDER;

const CREDITED_MEMBER: u64 = 1 << places::CREDITED_MEMBER;

const CREDITED_TYPE: u64 = 1 << places::CREDITED_TYPE;

const CREDITED: u64 = CREDITED_MEMBER | CREDITED_TYPE | 1 << places::CREDITED_SHAREHOLDER;

const QUANTITY: u64 = 1 << places::QUANTITY;

const AMOUNT: u64 = 1 << places::AMOUNT;

const DAYS: u64 = 1 << places::TRADE_DAY | 1 << places::SETTLEMENT_DAY;

const REFERENCE: u64 = 1 << places::REFERENCE;

const TRANSFER: u64 = SECURITY | DEBITED | CREDITED | QUANTITY | 1 << places::SETTLEMENT_DAY;

const ALL: u64 = SECURITY | CURRENCY | DEBITED | CREDITED | QUANTITY | AMOUNT | DAYS | REFERENCE;

// The most that each field can be: that of its width, or less.
const MOST: [u64; 19] = [
    (1 << 5) - 1,
    1439,
    (1 << 14) - 1,
    2,
    64,
    (1 << 8) - 1,
    64,
    (1 << 8) - 1,
    (1 << 30) - 1,
    (1 << 30) - 1,
    (1 << 40) - 1,
    (1 << 40) - 1,
    (1 << 16) - 1,
    (1 << 16) - 1,
    (1 << 32) - 1,
    (1 << 3) - 1,
    (1 << 32) - 1,
    (1 << 1) - 1,
    (1 << 12) - 1,
];

// What a form says of its fields: those that it uses, and those that may be 0.
#[derive(Clone, Copy)]
struct Rule {
    used: u64,
    optional: u64,
}

// A form that uses these fields, each from 1 on, besides form and minute.
fn uses(fields: u64) -> Rule
    ensures { (result.used ≡ bit_or 3 fields) × (result.optional ≡ 2) }
{
    Rule {
        used: FORM_AND_MINUTE | fields,
        optional: MINUTE,
    }
}

// The table of forms: no form uses nothing.
fn rule_of(form: u64) -> Rule
    ensures { RuleOf form result }
{
    match form {
        1 => uses(QUANTITY),
        2 => uses(SECURITY | QUANTITY),
        3 => uses(SECURITY | CREDITED | QUANTITY),
        4 => uses(SECURITY | DEBITED | QUANTITY),
        5 | 6 | 7 | 8 | 9 => uses(TRANSFER),
        10 => uses(CURRENCY | CREDITED_MEMBER | AMOUNT),
        11 => uses(CURRENCY | DEBITED_MEMBER | AMOUNT),
        12 => uses(ALL ^ CREDITED_TYPE),
        13 => uses(ALL ^ DEBITED_TYPE),
        14 => uses(ALL),
        15 => uses(DEBITED_MEMBER | REFERENCE),
        16 | 17 => uses(0),
        18 => uses(QUANTITY),
        19 => uses(SECURITY | DEBITED | QUANTITY | REFERENCE),
        20 => uses(DEBITED_MEMBER | CREDITED_TYPE | REFERENCE),
        21 => uses(QUANTITY),
        _ => Rule {
            used: 0,
            optional: 0,
        },
    }
}

// Whether a set has the field at a place.
fn is_in(set: u64, place: usize) -> bool
    requires { place < 64 }
    ensures { result ≡ has set place }
{
    set >> place & 1 == 1
}

// The least that a used field can be.
fn least_of(optional: u64, place: usize) -> u64
    requires { place < 64 }
    ensures { result ≡ least_in optional place }
{
    if is_in(optional, place) { 0 } else { 1 }
}

// Whether a form's quantity is one of two: form 1's is the day kind, form 21's the answer to a cycle.
fn is_one_of_two(form: u64) -> bool
    ensures { result ≡ (form is 1 || form is 21) }
{
    (form == 1) | (form == 21)
}

// The most that each field can be.
fn most_of(form: u64) -> [u64; 19]
    ensures { result ≡ map (most form) places }
{
    let mut most = MOST;
    if is_one_of_two(form) {
        most[places::QUANTITY] = 2;
        return most;
    }
    most
}

// What is wrong with one field.
fn field_refusal(is_used: bool, least: u64, most: u64, value: u64) -> Option<Refusal>
    ensures { number_found result ≡ first ((4, not is_used && value is_not 0) ∷ (5, is_used && not (within least most value)) ∷ []) }
{
    if is_used {
        if value < least || most < value {
            return Some(Refusal::FieldRange);
        }
        return None;
    }
    if value == 0 {
        None
    } else {
        Some(Refusal::UnusedField)
    }
}

// A record's fields, with what their form says of each of them.
#[derive(Drop)]
struct RuledFields<'a> {
    rule: Rule,
    most: [u64; 19],
    fields: &'a [u64; 19],
    ghost by_form: { RuledBy rule most fields.now },
}

impl RuledFields<'_> {
    ghost use Rattle.field_rules.specs.Fields.{field_refusal, last_are_zero, first_place};
    ghost use Rattle.rulebook.specs.Record.{unused_not_zero, used_out_of_range};

    // What is wrong with the field at a place.
    fn refusal_at(&self, place: usize) -> Option<Refusal>
        requires { place < 19 }
        ensures { number_found result ≡ field_refusal self.now.fields.now place }
    {
        field_refusal(
            is_in(self.rule.used, place),
            least_of(self.rule.optional, place),
            self.most[place],
            self.fields[place],
        )
    }

    // Whether the field at a place has this refusal, or none.
    fn has_at(&self, place: usize, refusal: Option<Refusal>) -> bool
        requires { place < 19 }
        ensures { result ≡ (field_refusal self.now.fields.now place is number_found refusal) }
    {
        self.refusal_at(place) == refusal
    }

    // Whether a refusal applies to one of the fields.
    fn has(&self, refusal: Refusal) -> bool
        ensures { result ≡ some (λ place. field_refusal self.now.fields.now place is number_of refusal) places }
    {
        (0..19).any(|place| self.has_at(place, Some(refusal)))
    }

    // Whether neither 4 nor 5 applies, or which does first.
    fn check(&self) -> Result<(), Refusal>
        ensures { number_in result ≡ first ((4, unused_not_zero self.now.fields.now) ∷ (5, used_out_of_range self.now.fields.now) ∷ []) }
    {
        if self.has(Refusal::UnusedField) {
            return Err(Refusal::UnusedField);
        }
        if self.has(Refusal::FieldRange) {
            return Err(Refusal::FieldRange);
        }
        Ok(())
    }

    // Whether the fields behind the reference are 0, as they are in most records.
    fn last_are_zero(&self) -> bool
        ensures { result ≡ last_are_zero self.now.fields.now }
    {
        (self.fields[places::OPERATION] == 0)
            & (self.fields[places::ORIGINAL] == 0)
            & (self.fields[places::EDITION] == 0)
            & (self.fields[places::SPARE] == 0)
    }

    // Whether neither 4 nor 5 applies: the short way for a record that is read. In every form 0 is right behind the reference.
    fn are_right(&self) -> bool
        ensures { result ≡ true → 0 ≡ first ((4, unused_not_zero self.now.fields.now) ∷ (5, used_out_of_range self.now.fields.now) ∷ []) }
    {
        self.last_are_zero() && (0..15).all(|place| self.has_at(place, None))
    }

    // The first place whose field has this refusal or none, as is asked; 19 where no field is so.
    fn place_with(&self, refusal: Option<Refusal>) -> usize
        ensures { result ≡ first_place (λ place. field_refusal self.now.fields.now place is number_found refusal) places }
    {
        (0..19)
            .find(|&place| self.has_at(place, refusal))
            .unwrap_or(19)
    }
}

// The fields by the rules of their form, where there is such a form.
fn ruled(fields: &[u64; 19]) -> Option<RuledFields<'_>>
    ensures { MatchOption result (no_form fields.now ≡ true) (λ ruled. (no_form fields.now ≡ false) × (ruled.fields.now ≡ fields.now)) }
{
    let form = fields[places::FORM];
    let rule = rule_of(form);
    if rule.used == 0 {
        return None;
    }
    let most = most_of(form);
    Some(RuledFields { rule, most, fields })
}

// Whether none of 3, 4, 5 applies, or which does first.
pub fn check(fields: &[u64; 19]) -> Result<(), Refusal>
    ensures { number_in result ≡ fields_refusal fields.now }
{
    let Some(ruled) = ruled(fields) else {
        return Err(Refusal::NoForm);
    };
    if ruled.are_right() {
        return Ok(());
    }
    ruled.check()
}

// The first field to which the refusal of some fields applies.
pub fn refused_place(fields: &[u64; 19]) -> usize
    ensures { result ≡ refused_place fields.now }
{
    match ruled(fields) {
        None => places::FORM,
        Some(ruled) => ruled.place_with(ruled.check().err()),
    }
}

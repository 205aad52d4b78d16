// What things are called, and what a name means.
#![tactic(auto)]

mod tables;

ghost use Rattle.std.specs.Prelude.{◌≡◌, ◌≤◌, ◌<◌, MatchOption};
ghost use Rattle.names.specs.Numbers.{field_place, form_number};

pub use tables::Table;

// The place of the field with this name.
pub fn field_place(name: &[u8]) -> Option<usize>
    ensures { MatchOption result (18 ≤ field_place name.now) (λ place. (place < 18) × (place ≡ field_place name.now)) }
{
    tables::FIELDS
        .iter()
        .position(|field| name == field.as_bytes())
}

// The number of the form with this name.
pub fn form_number(name: &[u8]) -> Option<u64>
    ensures { MatchOption result (form_number name.now ≡ 0) (λ form. (0 < form) × (form ≡ form_number name.now)) }
{
    let place = tables::FORMS
        .iter()
        .position(|form| name == form.as_bytes())?;
    Some(place as u64 + 1)
}

// Reads every one-bit change of a valid record of each form, and prints how many of the 320 changes
// read as an order, and how many get 2, 3, 4 and 5.
#![tactic(auto)]

mod samples;

ghost use Rattle.std.specs.Prelude.{◌≡◌, ◌<◌};
ghost use Rattle.one_bit.specs.Changes.{answer_to, count_of};

// The reader's answer to the record with one bit changed.
fn answer_to(record: [u8; 40], bit: usize) -> u64
    requires { bit < 320 }
    ensures { result ≡ answer_to «record» bit }
{
    let at = bit / 8;
    let mut other = record;
    other[at] = other[at] ^ 128 >> (bit % 8);
    match record::read(&other) {
        Ok(_) => 0,
        Err(refusal) => refusal.into(),
    }
}

// How many changes get this answer.
fn count_of(record: [u8; 40], number: u64) -> u64
    ensures { result ≡ count_of «record» number 320 }
{
    let mut count = 0;
    for bit in 0..320 {
        if answer_to(record, bit) == number {
            count += 1;
        }
    }
    count
}

fn print(rt: &impl Print, number: u64) {
    let _ = print!(rt; " {number}");
}

// Prints nothing where there is no such form: the writer refuses its order.
fn print_form(rt: &impl Print, form: u64) {
    let mut record = [0u8; 40];
    if record::write(samples::sample(form), &mut record).is_err() {
        return;
    }
    let _ = print!(rt; "{form}");
    print(rt, count_of(record, 0));
    print(rt, count_of(record, 2));
    print(rt, count_of(record, 3));
    print(rt, count_of(record, 4));
    print(rt, count_of(record, 5));
    let _ = println!(rt);
}

// All that five bits can name.
fn main(rt: HostRuntime) {
    let _ = println!(rt; "form read 2 3 4 5");
    for form in 1..32 {
        print_form(&rt, form);
    }
}

// The record reader and the record writer.
#![tactic(auto)]

ghost use Rattle.record.specs.Answers.{ReadAs, WrittenAs};

use rulebook::{Order, Refusal};

// The order that a record of any bytes holds, or the first refusal that applies.
pub fn read(record: &[u8]) -> Result<Order, Refusal>
    ensures { ReadAs «record».now result }
{
    if record.len() != 40 {
        return Err(Refusal::RecordLength);
    }
    let fields = layout::fields_in(record);
    field_rules::check(&fields)?;
    Ok(layout::order_of(&fields))
}

// Writes the order's 40 bytes at the area's start and keeps the bytes after them. A refusal leaves the area as it was.
pub fn write(order: Order, area: &mut [u8]) -> Result<(), Refusal>
    ensures { WrittenAs order area.old result area.new }
{
    if area.len() < 40 {
        return Err(Refusal::ShortArea);
    }
    let fields = layout::fields_of(order);
    field_rules::check(&fields)?;
    bits::pack_bits(area, &layout::WIDTHS, &fields);
    Ok(())
}

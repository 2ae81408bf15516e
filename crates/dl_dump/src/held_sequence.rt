//! What is told of a sequence, held until its end row comes. Sections 6.2.2 and 6.2.5.

ghost use Rattle.std.specs.Prelude.{◌≡◌, ◌++◌, IfOk};
ghost use Rattle.std.specs.Option.{option_copied};
ghost use Rattle.dl_look.specs.Answer.{first_place};
ghost use Rattle.dl_print.specs.Output.{BlamesWriter, Prints};
ghost use Rattle.dl_print.specs.ValueText.{Strings, strings_of};
ghost use Rattle.dl_dump.specs.DetailText.{reached, reached_after, shown_after, shown_visit};
ghost use Rattle.dl_dump.specs.RangeText.{covers_between, first_within, rows_held, unit_lines, visit_held, visits_held};

use crate::details::Details;
use crate::dumping::{print_header, print_row};
use crate::operation::{print_bytes, print_operation};
use crate::reached::{Opcode, Reached, op_index_with};
use dl_head::{Header, HeaderLengths};
use dl_look::{AddressRange, Place};
use dl_output::Destination;
use dl_print::{Printer, StringSections, WriteFault};
use dl_rows::{Operation, Row};

/// A part of what is told of a sequence.
#[derive(Clone, Copy)]
pub enum HeldItem {
    /// The next byte of an operation.
    Byte(u8),
    /// The bytes since the last operation are this one.
    Operation(Operation),
    /// The operation appends this row.
    Row(Row),
}

/// A place, or the first one of the range, where that is above it.
fn first_within(range: AddressRange, place: Place) -> Place
    ensures { result ≡ first_within range place }
{
    if place.address < range.start {
        Place {
            address: range.start,
            op_index: 0,
        }
    } else {
        place
    }
}

/// Whether there is a place from `first` up to below `last` whose address is in the range.
pub fn covers_between(range: AddressRange, first: Place, last: Place) -> bool
    ensures { result ≡ covers_between range first last }
{
    let from = first_within(range, first);
    let end = u128::from(range.start) + u128::from(range.size);
    from < last && u128::from(from.address) < end
}

/// Where the first row stands of what is held.
pub fn first_place_of(items: &[HeldItem]) -> Place
    ensures { result ≡ first_place (rows_held items.now) }
{
    for item in items {
        if let HeldItem::Row(row) = item {
            return Place::of(row);
        }
    }
    Place {
        address: 0,
        op_index: 0,
    }
}

/// Prints the lines of a unit that is so long, where they are wanted.
fn print_unit_lines<W: Destination>(
    printer: &mut Printer,
    output: &mut W,
    strings: &StringSections<'_>,
    details: &Details<'_>,
    at: &Reached,
    header: &Header,
    unit: Option<HeaderLengths>,
) -> Result<(), WriteFault>
    ensures printed { Prints (W.contents output.old) (W.contents output.new) printer.old printer.new
        (unit_lines (record { details = details.now; strings = strings_of strings.now }) at.now header.now unit) result }
    ensures blames { BlamesWriter W.fails result }
{
    match unit {
        Some(lengths) => print_header(printer, output, strings, details, at.unit, &lengths, header),
        None => printer.put(output, b""),
    }
}

/// Prints a part of a sequence.
fn print_item<W: Destination>(
    printer: &mut Printer,
    output: &mut W,
    strings: &StringSections<'_>,
    details: &Details<'_>,
    at: &Reached,
    header: &Header,
    item: HeldItem,
) -> Result<(), WriteFault>
    ensures printed { Prints (W.contents output.old) (W.contents output.new) printer.old printer.new
        (shown_visit (record { details = details.now; strings = strings_of strings.now }) at.now (visit_held header.now item)) result }
    ensures blames { BlamesWriter W.fails result }
{
    match item {
        HeldItem::Row(row) => print_row(printer, output, strings, details, at, header, &row),
        HeldItem::Byte(byte) if details.operations => print_bytes(printer, output, at, &[byte]),
        HeldItem::Operation(operation) if details.operations => {
            print_operation(printer, output, header, at, operation)
        }
        _ => printer.put(output, b""),
    }
}

/// How far a section has come after a part of a sequence.
fn after_item(details: &Details<'_>, at: Reached, header: &Header, item: HeldItem) -> Reached
    ensures { (strings : Strings) → result
        ≡ reached (record { details = details.now; strings = strings }) at (visit_held header.now item) }
{
    match item {
        HeldItem::Byte(byte) if details.operations => at.with_bytes(&[byte]),
        HeldItem::Operation(operation) if details.operations => Reached {
            opcode: Opcode::Unread,
            op_index: op_index_with(header.params(), at.op_index, operation),
            ..at
        },
        _ => at,
    }
}

/// Prints the parts of a sequence that begins there, and answers how far the section has come after them.
fn print_items<W: Destination>(
    printer: &mut Printer,
    output: &mut W,
    strings: &StringSections<'_>,
    details: &Details<'_>,
    at: Reached,
    header: &Header,
    items: &[HeldItem],
) -> Result<Reached, WriteFault>
    ensures printed { Prints (W.contents output.old) (W.contents output.new) printer.old printer.new
        (shown_after (record { details = details.now; strings = strings_of strings.now }) at (visits_held header.now items.now)) result }
    ensures reached { IfOk result (λ after. after
        ≡ reached_after (record { details = details.now; strings = strings_of strings.now }) at (visits_held header.now items.now)) }
    ensures blames { BlamesWriter W.fails result }
{
    let mut now = at;
    for item in items {
        print_item(printer, output, strings, details, &now, header, *item)?;
        now = after_item(details, now, header, *item);
    }
    Ok(now)
}

/// How far a section has come after the parts of a sequence that begins there.
pub fn pass_items(
    details: &Details<'_>,
    at: Reached,
    header: &Header,
    items: &[HeldItem],
) -> Reached
    ensures { (strings : Strings) → result
        ≡ reached_after (record { details = details.now; strings = strings }) at (visits_held header.now items.now) }
{
    let mut now = at;
    for item in items {
        now = after_item(details, now, header, *item);
    }
    now
}

/// Prints the lines of a sequence that begins there, before them those of its unit, where they are wanted, and answers how far the
/// section has come after it.
pub fn print_sequence<W: Destination>(
    printer: &mut Printer,
    output: &mut W,
    strings: &StringSections<'_>,
    details: &Details<'_>,
    at: Reached,
    header: &Header,
    unit: Option<HeaderLengths>,
    items: &[HeldItem],
) -> Result<Reached, WriteFault>
    ensures printed { Prints (W.contents output.old) (W.contents output.new) printer.old printer.new
        (unit_lines (record { details = details.now; strings = strings_of strings.now }) at header.now unit
        ++ shown_after (record { details = details.now; strings = strings_of strings.now }) at (visits_held header.now items.now)) result }
    ensures reached { IfOk result (λ after. after
        ≡ reached_after (record { details = details.now; strings = strings_of strings.now }) at (visits_held header.now items.now)) }
    ensures blames { BlamesWriter W.fails result }
{
    print_unit_lines(printer, output, strings, details, &at, header, unit)?;
    print_items(printer, output, strings, details, at, header, items)
}

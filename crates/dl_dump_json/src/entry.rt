//! The entries of tables as JSON objects. Section 6.2.4.1.

ghost use Rattle.std.specs.Prelude.{◌≡◌, ◌≤◌, ◌+◌, ◌++◌, codes, decimal, flat_map};
ghost use Rattle.dl_table.specs.EntryData.{with_content};
ghost use Rattle.dl_table.specs.EntryHeld.{entry_items};
ghost use Rattle.dl_table.specs.Held.{value_lent};
ghost use Rattle.dl_print.specs.Output.{BlamesWriter, Prints};
ghost use Rattle.dl_print.specs.ValueText.{content_name, strings_of};
ghost use Rattle.dl_dump_json.specs.Members.{array, array_member, comma_before, elements, name_start};
ghost use Rattle.dl_dump_json.specs.Units.{table_member};
ghost use Rattle.dl_dump_json.specs.Values.{entry_object, value_member};

use crate::array::print_comma;
use crate::member::print_name;
use crate::value::{print_content_name, print_value};
use dl_head::{Entry, Table, ValueRef};
use dl_output::Destination;
use dl_print::{Printer, StringSections, WriteFault};

/// Prints a member that is a table, whose entries are numbered from `first` on.
#[tactic(auto, unfolding(crate::specs::Members::array_member, crate::specs::Members::array))]
pub fn print_table<W: Destination>(
    printer: &mut Printer,
    output: &mut W,
    strings: &StringSections<'_>,
    name: &[u8],
    first: u64,
    table: &Table,
) -> Result<(), WriteFault>
    requires least { first ≤ 1 }
    ensures printed { Prints (W.contents output.old) (W.contents output.new) printer.old printer.new
        (table_member (strings_of strings.now) name.now first table.now) result }
    ensures blames { BlamesWriter W.fails result }
{
    print_name(printer, output, name)?;
    printer.put(output, b"[")?;
    print_entries(printer, output, strings, first, table)?;
    printer.put(output, b"]")
}

fn print_entries<W: Destination>(
    printer: &mut Printer,
    output: &mut W,
    strings: &StringSections<'_>,
    first: u64,
    table: &Table,
) -> Result<(), WriteFault>
    requires least { first ≤ 1 }
    ensures printed { Prints (W.contents output.old) (W.contents output.new) printer.old printer.new
        (elements (λ place values. entry_object (strings_of strings.now) (first + place) (with_content table.now.pairs values))
        0 table.now.entries) result }
    ensures blames { BlamesWriter W.fails result }
{
    for place in 0..table.len() {
        if let Some(entry) = table.entry(place) {
            print_one_entry(printer, output, strings, place, first + place as u64, entry)?;
        }
    }
    Ok(())
}

fn print_one_entry<W: Destination>(
    printer: &mut Printer,
    output: &mut W,
    strings: &StringSections<'_>,
    place: usize,
    number: u64,
    entry: Entry<'_>,
) -> Result<(), WriteFault>
    ensures printed { Prints (W.contents output.old) (W.contents output.new) printer.old printer.new
        (comma_before place ++ entry_object (strings_of strings.now) number (entry_items entry.entry)) result }
    ensures blames { BlamesWriter W.fails result }
{
    print_comma(printer, output, place)?;
    print_entry(printer, output, strings, number, entry)
}

/// Prints an entry of a table under its number.
#[tactic(auto, unfolding(crate::specs::Values::entry_object))]
fn print_entry<W: Destination>(
    printer: &mut Printer,
    output: &mut W,
    strings: &StringSections<'_>,
    number: u64,
    entry: Entry<'_>,
) -> Result<(), WriteFault>
    ensures printed { Prints (W.contents output.old) (W.contents output.new) printer.old printer.new
        (entry_object (strings_of strings.now) number (entry_items entry.entry)) result }
    ensures blames { BlamesWriter W.fails result }
{
    printer.number(output, b"{\"number\":", number)?;
    print_values(printer, output, strings, entry)?;
    printer.put(output, b"}")
}

/// Prints the values of an entry, each after the name of its content code.
fn print_values<W: Destination>(
    printer: &mut Printer,
    output: &mut W,
    strings: &StringSections<'_>,
    entry: Entry<'_>,
) -> Result<(), WriteFault>
    ensures printed { Prints (W.contents output.old) (W.contents output.new) printer.old printer.new
        (flat_map (value_member (strings_of strings.now)) (entry_items entry.entry)) result }
    ensures blames { BlamesWriter W.fails result }
{
    for (content, value) in entry.values() {
        print_named_value(printer, output, strings, content, value)?;
    }
    Ok(())
}

#[tactic(auto, unfolding(crate::specs::Values::value_member))]
fn print_named_value<W: Destination>(
    printer: &mut Printer,
    output: &mut W,
    strings: &StringSections<'_>,
    content: u64,
    value: ValueRef<'_>,
) -> Result<(), WriteFault>
    ensures printed { Prints (W.contents output.old) (W.contents output.new) printer.old printer.new
        (value_member (strings_of strings.now) (content, value_lent value.entry)) result }
    ensures blames { BlamesWriter W.fails result }
{
    print_content_start(printer, output, content)?;
    print_value(printer, output, strings, value)
}

/// Prints the name of a value, up to the value.
#[tactic(auto, unfolding(crate::specs::Members::name_start))]
fn print_content_start<W: Destination>(
    printer: &mut Printer,
    output: &mut W,
    content: u64,
) -> Result<(), WriteFault>
    ensures printed { Prints (W.contents output.old) (W.contents output.new) printer.old printer.new
        (name_start (content_name content)) result }
    ensures blames { BlamesWriter W.fails result }
{
    printer.put(output, b",\"")?;
    print_content_name(printer, output, content)?;
    printer.put(output, b"\":")
}

//! The lines of what is asked.

ghost use Rattle.std.specs.Prelude.{◌≡◌, []};
ghost use Rattle.std.specs.Option.{option_copied, option_map};
ghost use Rattle.dl_print.specs.Output.{BlamesWriter as PrintBlames, Prints};
ghost use Rattle.dl_addr.specs.Answers.{answer_seen};
ghost use Rattle.dl_addr.specs.Locations.{address_text, asked_text, column_text, no_row_text, place_text, row_text};
ghost use Rattle.dl_addr.specs.Texts.{path_kept};
ghost use Rattle.dl_addr.specs.Printing.{named_text, seen_line, seen_text};

use crate::json_line::{print_json_asked, print_json_row};
use crate::locating::Answer;
use crate::path_text::print_path;
use crate::style::{AnswerForm, Style};
use dl_look::Asked;
use dl_output::Destination;
use dl_print::{Printer, WriteFault};

/// Prints the line of what is asked, with its answer.
pub fn print_line<W: Destination>(
    printer: &mut Printer,
    output: &mut W,
    style: Style<'_>,
    asked: Asked,
    answer: Option<Answer<'_, '_>>,
) -> Result<(), WriteFault>
    ensures printed { Prints (W.contents output.old) (W.contents output.new) printer.old printer.new
        (seen_line style.entry asked (option_map answer_seen answer.entry)) result }
    ensures blames_writer { PrintBlames W.fails result }
{
    print_asked(printer, output, style, asked)?;
    print_answer(printer, output, style.form, answer)?;
    printer.put(output, b"\n")
}

/// Prints what stands before an answer.
fn print_asked<W: Destination>(
    printer: &mut Printer,
    output: &mut W,
    style: Style<'_>,
    asked: Asked,
) -> Result<(), WriteFault>
    ensures printed { Prints (W.contents output.old) (W.contents output.new) printer.old printer.new
        (asked_text style.entry.form (option_copied style.entry.section) asked) result }
    ensures blames_writer { PrintBlames W.fails result }
{
    match style.form {
        AnswerForm::Location => printer.put(output, b""),
        AnswerForm::AddressAndLocation => print_address(printer, output, asked.address),
        AnswerForm::Json => print_json_asked(printer, output, asked.address, style.section),
    }
}

/// Prints the address as it was given, where there is one.
fn print_address<W: Destination>(
    printer: &mut Printer,
    output: &mut W,
    address: Option<u64>,
) -> Result<(), WriteFault>
    ensures printed { Prints (W.contents output.old) (W.contents output.new) printer.old printer.new
        (address_text address) result }
    ensures blames_writer { PrintBlames W.fails result }
{
    match address {
        Some(address) => {
            printer.address(output, address)?;
            printer.put(output, b" ")
        }
        None => printer.put(output, b""),
    }
}

fn print_answer<W: Destination>(
    printer: &mut Printer,
    output: &mut W,
    form: AnswerForm,
    answer: Option<Answer<'_, '_>>,
) -> Result<(), WriteFault>
    ensures printed { Prints (W.contents output.old) (W.contents output.new) printer.old printer.new
        (seen_text form (option_map answer_seen answer.entry)) result }
    ensures blames_writer { PrintBlames W.fails result }
{
    match answer {
        Some(answer) => print_row(printer, output, form, &answer),
        None => print_no_row(printer, output, form),
    }
}

/// Prints what is known of a row, under its path.
fn print_row<W: Destination>(
    printer: &mut Printer,
    output: &mut W,
    form: AnswerForm,
    answer: &Answer<'_, '_>,
) -> Result<(), WriteFault>
    ensures printed { Prints (W.contents output.old) (W.contents output.new) printer.old printer.new
        (row_text form (named_text form (path_kept answer.now.path)) (answer_seen answer.now)) result }
    ensures blames_writer { PrintBlames W.fails result }
{
    match form {
        AnswerForm::Location | AnswerForm::AddressAndLocation => print_place(
            printer, output, form, answer,
        ),
        AnswerForm::Json => {
            print_json_row(printer, output, answer)?;
            printer.put(output, b"}")
        }
    }
}

fn print_no_row<W: Destination>(
    printer: &mut Printer,
    output: &mut W,
    form: AnswerForm,
) -> Result<(), WriteFault>
    ensures printed { Prints (W.contents output.old) (W.contents output.new) printer.old printer.new
        (no_row_text form) result }
    ensures blames_writer { PrintBlames W.fails result }
{
    match form {
        AnswerForm::Location | AnswerForm::AddressAndLocation => printer.put(output, b"??:0"),
        AnswerForm::Json => printer.put(output, b"}"),
    }
}

/// Prints a path, a line, and a column where it isn't 0.
fn print_place<W: Destination>(
    printer: &mut Printer,
    output: &mut W,
    form: AnswerForm,
    answer: &Answer<'_, '_>,
) -> Result<(), WriteFault>
    ensures printed { Prints (W.contents output.old) (W.contents output.new) printer.old printer.new
        (place_text (named_text form (path_kept answer.now.path)) (answer_seen answer.now)) result }
    ensures blames_writer { PrintBlames W.fails result }
{
    print_path(printer, output, form, answer.path)?;
    printer.number(output, b":", answer.position.line)?;
    print_column(printer, output, answer.position.column)
}

fn print_column<W: Destination>(
    printer: &mut Printer,
    output: &mut W,
    column: u64,
) -> Result<(), WriteFault>
    ensures printed { Prints (W.contents output.old) (W.contents output.new) printer.old printer.new
        (column_text column) result }
    ensures blames_writer { PrintBlames W.fails result }
{
    if column == 0 {
        printer.put(output, b"")
    } else {
        printer.number(output, b":", column)
    }
}

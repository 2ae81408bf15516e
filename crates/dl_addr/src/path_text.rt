//! The texts of paths, as they are printed.

ghost use Rattle.std.specs.Prelude.{◌≡◌, ◌++◌, [], codes, unwrap_or};
ghost use Rattle.std.specs.Option.{option_copied};
ghost use Rattle.dl_print.specs.Output.{BlamesWriter as PrintBlames, Prints};
ghost use Rattle.dl_addr.specs.declared.style.AnswerForm.TheVariants as all_forms;
ghost use Rattle.dl_path.specs.Paths.{slash_after};
ghost use Rattle.dl_addr.specs.Printing.{inner_text, named_text};
ghost use Rattle.dl_addr.specs.Shown.{no_path_text, text_in};
ghost use Rattle.dl_addr.specs.Texts.{path_in_table, path_kept, path_named};

use crate::kept::{KeptBytes, KeptPath, KeptText};
use crate::style::AnswerForm;
use dl_output::Destination;
use dl_path::{print_json_text, print_shown, wants_slash};
use dl_print::{Printer, WriteFault};

/// Prints a path as it stands in a line of this form, or what stands for one that isn't known.
pub fn print_path<W: Destination>(
    printer: &mut Printer,
    output: &mut W,
    form: AnswerForm,
    path: KeptPath<'_, '_>,
) -> Result<(), WriteFault>
    ensures printed { Prints (W.contents output.old) (W.contents output.new) printer.old printer.new
        (named_text form (path_kept path.entry)) result }
    ensures blames_writer { PrintBlames W.fails result }
{
    match path.text(path.file.name) {
        Some(name) => print_known(printer, output, form, path, name),
        None => print_no_path(printer, output, form),
    }
}

/// Prints a path whose file's own path is this one.
fn print_known<W: Destination>(
    printer: &mut Printer,
    output: &mut W,
    form: AnswerForm,
    path: KeptPath<'_, '_>,
    name: &KeptText<'_>,
) -> Result<(), WriteFault>
    ensures printed { Prints (W.contents output.old) (W.contents output.new) printer.old printer.new
        (text_in form (path_named path.entry name.now)) result }
    ensures blames_writer { PrintBlames W.fails result }
{
    match form {
        AnswerForm::Location | AnswerForm::AddressAndLocation => {
            print_rooted(printer, output, form, path, name)
        }
        AnswerForm::Json => print_quoted(printer, output, path, name),
    }
}

/// Prints what stands for a path that isn't known.
fn print_no_path<W: Destination>(
    printer: &mut Printer,
    output: &mut W,
    form: AnswerForm,
) -> Result<(), WriteFault>
    ensures printed { Prints (W.contents output.old) (W.contents output.new) printer.old printer.new
        (no_path_text form) result }
    ensures blames_writer { PrintBlames W.fails result }
{
    match form {
        AnswerForm::Location | AnswerForm::AddressAndLocation => printer.put(output, b"??"),
        AnswerForm::Json => printer.put(output, b"null"),
    }
}

/// Prints the JSON string of a path.
fn print_quoted<W: Destination>(
    printer: &mut Printer,
    output: &mut W,
    path: KeptPath<'_, '_>,
    name: &KeptText<'_>,
) -> Result<(), WriteFault>
    ensures printed { Prints (W.contents output.old) (W.contents output.new) printer.old printer.new
        (text_in all_forms.Json (path_named path.entry name.now)) result }
    ensures blames_writer { PrintBlames W.fails result }
{
    printer.put(output, b"\"")?;
    print_rooted(printer, output, AnswerForm::Json, path, name)?;
    printer.put(output, b"\"")
}

/// Prints a path under its compilation directory, where there is one.
fn print_rooted<W: Destination>(
    printer: &mut Printer,
    output: &mut W,
    form: AnswerForm,
    path: KeptPath<'_, '_>,
    name: &KeptText<'_>,
) -> Result<(), WriteFault>
    ensures printed { Prints (W.contents output.old) (W.contents output.new) printer.old printer.new
        (inner_text form (path_named path.entry name.now)) result }
    ensures blames_writer { PrintBlames W.fails result }
{
    let Some(root) = path.root else {
        return print_parts(printer, output, form, path, name);
    };
    let root = KeptText::new(KeptBytes::Lent(root));
    print_folder(printer, output, form, &root)?;
    print_parts(printer, output, form, path, name)
}

/// Prints the parts of a path, one after the other.
fn print_parts<W: Destination>(
    printer: &mut Printer,
    output: &mut W,
    form: AnswerForm,
    path: KeptPath<'_, '_>,
    name: &KeptText<'_>,
) -> Result<(), WriteFault>
    ensures printed { Prints (W.contents output.old) (W.contents output.new) printer.old printer.new
        (inner_text form (path_in_table path.entry name.now)) result }
    ensures blames_writer { PrintBlames W.fails result }
{
    print_directory(printer, output, form, path.text(path.file.base))?;
    print_directory(printer, output, form, path.text(path.file.directory))?;
    print_text(printer, output, form, name)
}

/// Prints a directory, with what stands between it and a path in it; nothing where there is none.
#[inline]
fn print_directory<W: Destination>(
    printer: &mut Printer,
    output: &mut W,
    form: AnswerForm,
    directory: Option<&KeptText<'_>>,
) -> Result<(), WriteFault>
    ensures printed { Prints (W.contents output.old) (W.contents output.new) printer.old printer.new
        (inner_text form (unwrap_or (option_copied directory.entry) [])
        ++ slash_after (unwrap_or (option_copied directory.entry) [])) result }
    ensures blames_writer { PrintBlames W.fails result }
{
    match directory {
        Some(directory) => print_folder(printer, output, form, directory),
        None => printer.put(output, b""),
    }
}

/// Prints a directory that is there.
#[inline]
fn print_folder<W: Destination>(
    printer: &mut Printer,
    output: &mut W,
    form: AnswerForm,
    directory: &KeptText<'_>,
) -> Result<(), WriteFault>
    ensures printed { Prints (W.contents output.old) (W.contents output.new) printer.old printer.new
        (inner_text form directory.now ++ slash_after directory.now) result }
    ensures blames_writer { PrintBlames W.fails result }
{
    print_text(printer, output, form, directory)?;
    print_slash(printer, output, directory.bytes())
}

/// Prints what stands between a directory and a path in it.
#[inline]
fn print_slash<W: Destination>(
    printer: &mut Printer,
    output: &mut W,
    directory: &[u8],
) -> Result<(), WriteFault>
    ensures printed { Prints (W.contents output.old) (W.contents output.new) printer.old printer.new
        (slash_after directory.now) result }
    ensures blames_writer { PrintBlames W.fails result }
{
    if wants_slash(directory) {
        printer.put(output, b"/")
    } else {
        printer.put(output, b"")
    }
}

/// Prints a text as it stands in a path.
#[inline]
fn print_text<W: Destination>(
    printer: &mut Printer,
    output: &mut W,
    form: AnswerForm,
    text: &KeptText<'_>,
) -> Result<(), WriteFault>
    ensures printed { Prints (W.contents output.old) (W.contents output.new) printer.old printer.new
        (inner_text form text.now) result }
    ensures blames_writer { PrintBlames W.fails result }
{
    if text.is_plain() {
        return printer.put(output, text.bytes());
    }
    match form {
        AnswerForm::Location | AnswerForm::AddressAndLocation => print_shown(
            printer,
            output,
            text.bytes(),
        ),
        AnswerForm::Json => print_json_text(printer, output, text.bytes()),
    }
}

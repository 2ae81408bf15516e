//! The path of the file of a row. Section 6.2.4.

ghost use Rattle.std.specs.Prelude.{◌≡◌, ◌++◌, Some, codes, option_map, unwrap_or};
ghost use Rattle.std.specs.Option.{option_copied};
ghost use Rattle.dl_dirs.specs.Compilation.{directory_by};
ghost use Rattle.dl_path.specs.Parts.{path_seen};
ghost use Rattle.dl_path.specs.Paths.{beside_table, compiled_in, has_directory_0, is_whole, path_of, slash_after, under};
ghost use Rattle.dl_path.specs.Shown.{shown};
ghost use Rattle.dl_print.specs.Output.{BlamesWriter, Prints};
ghost use Rattle.dl_print.specs.ValueText.{strings_of};
ghost use Rattle.dl_dump.specs.DetailText.{path_text};

use dl_dirs::CompilationDirectories;
use dl_head::Header;
use dl_output::Destination;
use dl_path::{
    Path, beside_table, has_directory_0, is_whole_path, path_of, print_shown, slash_after,
};
use dl_print::{Printer, StringSections, WriteFault};

/// Prints the path of the file of this number in the unit at this offset, under the directory in which that was compiled,
/// or what stands for one that isn't known.
pub fn print_path<W: Destination>(
    printer: &mut Printer,
    output: &mut W,
    strings: &StringSections<'_>,
    directories: CompilationDirectories<'_>,
    unit: u64,
    header: &Header,
    file: u64,
) -> Result<(), WriteFault>
    ensures printed { Prints (W.contents output.old) (W.contents output.new) printer.old printer.new
        (path_text (option_map (compiled_in (beside_table (has_directory_0 (Some header.now)) (directory_by directories.entry unit)))
        (path_of (strings_of strings.now) (Some header.now) file))) result }
    ensures blames { BlamesWriter W.fails result }
{
    match path_of(strings, Some(header), file) {
        Some(path) => {
            let directory = beside_table(has_directory_0(Some(header)), directories.of(unit));
            print_compiled(printer, output, directory, path)
        }
        None => printer.put(output, b"??"),
    }
}

/// Prints a path, under this directory where it isn't whole.
fn print_compiled<W: Destination>(
    printer: &mut Printer,
    output: &mut W,
    directory: Option<&[u8]>,
    path: Path<'_>,
) -> Result<(), WriteFault>
    ensures printed { Prints (W.contents output.old) (W.contents output.new) printer.old printer.new
        (shown (compiled_in (option_copied directory.entry) (path_seen path.entry))) result }
    ensures blames { BlamesWriter W.fails result }
{
    if is_whole_path(path) {
        print_parts(printer, output, path)
    } else {
        print_under(printer, output, directory.unwrap_or(b""), path)
    }
}

/// Prints a path in this directory.
fn print_under<W: Destination>(
    printer: &mut Printer,
    output: &mut W,
    directory: &[u8],
    path: Path<'_>,
) -> Result<(), WriteFault>
    ensures printed { Prints (W.contents output.old) (W.contents output.new) printer.old printer.new
        (shown (under directory.now (path_seen path.entry))) result }
    ensures blames { BlamesWriter W.fails result }
{
    print_folder(printer, output, directory)?;
    print_parts(printer, output, path)
}

/// Prints the parts of a path, one after the other.
fn print_parts<W: Destination>(
    printer: &mut Printer,
    output: &mut W,
    path: Path<'_>,
) -> Result<(), WriteFault>
    ensures printed { Prints (W.contents output.old) (W.contents output.new) printer.old printer.new
        (shown (path_seen path.entry)) result }
    ensures blames { BlamesWriter W.fails result }
{
    print_folder(printer, output, path.base)?;
    print_folder(printer, output, path.directory)?;
    print_shown(printer, output, path.name)
}

/// Prints a directory, and what stands between it and a path in it.
fn print_folder<W: Destination>(
    printer: &mut Printer,
    output: &mut W,
    directory: &[u8],
) -> Result<(), WriteFault>
    ensures printed { Prints (W.contents output.old) (W.contents output.new) printer.old printer.new
        (shown directory.now ++ slash_after directory.now) result }
    ensures blames { BlamesWriter W.fails result }
{
    print_shown(printer, output, directory)?;
    printer.put(output, slash_after(directory))
}

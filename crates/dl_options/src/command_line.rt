//! The command line: its subcommands, with their help.
ghost use Rattle.std.specs.Prelude.{IfOk, OnErr, codes};
ghost use Rattle.clap.specs.Words.{AddsSubcommand, App, with_subcommand};
ghost use Rattle.dl_options.specs.CommandLine.{IsApp, addr_app, check_app, command_line, copy_app, dump_app, find_app};
ghost use Rattle.dl_options.specs.CommandLine.{index_app, lines_app, lint_app, sources_app, top_app};
ghost use Rattle.dl_options.specs.Memory.{LibraryRefused};

use crate::arguments::{address, index_file, list, op, output, section};
use crate::library::refused;
use crate::parts::{
    add_addresses, add_files, add_follow, add_input, add_keep_going, add_lines, add_listing,
    add_making, add_part, add_rules, add_shown, add_strings, add_to_5, add_units, with_arg,
};
use clap::Command;
use std::alloc::{AllocError, Global};

/// The version of the program and of its crates.
const VERSION: &str = "0.1.0";

/// What stands at the head of the page of a command whose FILE may be left out.
const WITHOUT_FILE: &str =
    "Without FILE the bytes of a section .debug_line are read from standard input, not an ELF file.";

/// What stands at the head of the page of `check`.
const WITHOUT_FILES: &str =
    "Without FILE and --files-from the bytes of a section .debug_line are read from standard input, not an ELF file.";

/// What stands at the head of the pages of `addr` and of `lines`.
const WITHOUT_ELF_FILE: &str =
    "Where FILE is - the bytes of a section .debug_line are read from standard input, not an ELF file.";

/// The command line with one subcommand more.
fn take_subcommand<'a>(line: Command<'a>, command: Command<'a>) -> Result<Command<'a>, AllocError>
    ensures added { IfOk result (λ r. AddsSubcommand line.entry command.entry r) }
    ensures refused { OnErr result LibraryRefused }
{
    match line.subcommand(command) {
        Ok(line) => Ok(line),
        Err(error) => Err(refused(error)),
    }
}

/// The command line with one subcommand more, where that could be made.
fn with_command<'a>(
    line: Command<'a>,
    command: Result<Command<'a>, AllocError>,
) -> Result<Command<'a>, AllocError>
    ensures app { (a sub : App) → IsApp a line.entry → IfOk command.entry (IsApp sub)
        → IfOk result (IsApp (with_subcommand a sub.top)) }
    ensures refused { OnErr command.entry LibraryRefused → OnErr result LibraryRefused }
{
    take_subcommand(line, command?)
}

/// `dump`, which prints all units.
pub fn dump<'a>(alloc: Global) -> Result<Command<'a>, AllocError>
    ensures app { IfOk result (IsApp dump_app) }
    ensures refused { OnErr result LibraryRefused }
{
    let command = Command::new(alloc, "dump")
        .before_help(WITHOUT_FILE)
        .about("Print each unit with its directories, files and rows")
        .after_help(
            "Examples:\n  dwline dump program\n  dwline dump --line-str debug_line_str < debug_line",
        );
    let command = add_keep_going(alloc, Ok(command));
    let command = add_part(alloc, add_shown(alloc, command));
    let command = add_units(alloc, command);
    add_strings(alloc, add_follow(alloc, command))
}

/// `check`, which counts units, sequences and rows.
pub fn check<'a>(alloc: Global) -> Result<Command<'a>, AllocError>
    ensures app { IfOk result (IsApp check_app) }
    ensures refused { OnErr result LibraryRefused }
{
    let command = Command::new(alloc, "check")
        .before_help(WITHOUT_FILES)
        .about("Read all units, and print how many units, sequences and rows there are")
        .after_help(
            "Examples:\n  dwline check program\n  dwline check --big < debug_line\n  \
             find /usr/bin -type f -print0 | dwline check --files-from - -0",
        );
    let command = add_keep_going(alloc, Ok(command));
    let command = add_units(alloc, command);
    add_files(alloc, add_follow(alloc, command))
}

/// `find`, which looks up an address.
pub fn find<'a>(alloc: Global) -> Result<Command<'a>, AllocError>
    ensures app { IfOk result (IsApp find_app) }
    ensures refused { OnErr result LibraryRefused }
{
    let command = Command::new(alloc, "find")
        .before_help(WITHOUT_FILE)
        .about("Print the source file and the row of an address")
        .after_help(
            "Examples:\n  dwline find 0x401136 program\n  dwline find 4198710 < debug_line",
        );
    let command = with_arg(Ok(command), address(alloc));
    let command = with_arg(command, op(alloc));
    let command = with_arg(command, section(alloc));
    let command = add_units(alloc, command);
    add_strings(alloc, add_follow(alloc, command))
}

/// `copy`, which writes all units anew.
pub fn copy<'a>(alloc: Global) -> Result<Command<'a>, AllocError>
    ensures app { IfOk result (IsApp copy_app) }
    ensures refused { OnErr result LibraryRefused }
{
    let command = Command::new(alloc, "copy")
        .before_help(WITHOUT_FILE)
        .about("Write each unit anew, with the same header and rows, as the bytes of a section")
        .after_help(
            "Examples:\n  dwline copy program > debug_line\n  dwline copy < debug_line > copied\n  \
             dwline copy --to-5 program > debug_line",
        );
    add_input(alloc, add_to_5(alloc, Ok(command)))
}

/// `addr`, which prints where addresses are in the source.
pub fn addr<'a>(alloc: Global) -> Result<Command<'a>, AllocError>
    ensures app { IfOk result (IsApp addr_app) }
    ensures refused { OnErr result LibraryRefused }
{
    let command = Command::new(alloc, "addr")
        .before_help(WITHOUT_ELF_FILE)
        .about("Print path, line and column of each address")
        .after_help(
            "Examples:\n  dwline addr program 0x401136 0x40113a\n  dwline addr -e program 0x401136\n  \
             dwline addr program < addresses\n  dwline addr program.idx 0x401136",
        );
    add_addresses(alloc, Ok(command))
}

/// `index`, which makes the index of a file, or lists one.
pub fn index<'a>(alloc: Global) -> Result<Command<'a>, AllocError>
    ensures app { IfOk result (IsApp index_app) }
    ensures refused { OnErr result LibraryRefused }
{
    let command = Command::new(alloc, "index")
        .about(
            "Make the index of a file, which answers addresses without its line table, or list one",
        )
        .after_help(
            "Examples:\n  dwline index -o program.dli program\n  dwline index --list program.dli",
        );
    let command = add_making(alloc, Ok(command));
    let command = with_arg(command, list(alloc));
    let command = with_arg(command, output(alloc));
    with_arg(command, index_file(alloc))
}

/// `sources`, which prints the path of each source file.
pub fn sources<'a>(alloc: Global) -> Result<Command<'a>, AllocError>
    ensures app { IfOk result (IsApp sources_app) }
    ensures refused { OnErr result LibraryRefused }
{
    let command = Command::new(alloc, "sources")
        .before_help(WITHOUT_FILE)
        .about("Print the path of each source file")
        .after_help(
            "Examples:\n  dwline sources program\n  dwline sources --rows --md5 program\n  \
             dwline sources --line-str debug_line_str < debug_line",
        );
    let command = add_units(alloc, add_listing(alloc, Ok(command)));
    add_strings(alloc, add_follow(alloc, command))
}

/// `lines`, which prints the addresses of source lines.
pub fn lines<'a>(alloc: Global) -> Result<Command<'a>, AllocError>
    ensures app { IfOk result (IsApp lines_app) }
    ensures refused { OnErr result LibraryRefused }
{
    let command = Command::new(alloc, "lines")
        .before_help(WITHOUT_ELF_FILE)
        .about("Print the addresses of source lines")
        .override_usage("dwline lines [OPTIONS] <FILE> <PATH:LINE>...")
        .after_help(
            "Examples:\n  dwline lines program main.c:12\n  dwline lines --exact program src/main.c:12 util.c:7",
        );
    add_lines(alloc, Ok(command))
}

/// `lint`, which tells what in line tables misleads a debugger.
pub fn lint<'a>(alloc: Global) -> Result<Command<'a>, AllocError>
    ensures app { IfOk result (IsApp lint_app) }
    ensures refused { OnErr result LibraryRefused }
{
    let command = Command::new(alloc, "lint")
        .before_help(WITHOUT_FILE)
        .about("Tell what in line tables misleads a debugger although they read well")
        .after_help(
            "Examples:\n  dwline lint program\n  dwline lint --no-rule no-statement --json program\n  \
             dwline lint --rule file-index < debug_line",
        );
    let command = add_rules(alloc, add_keep_going(alloc, Ok(command)));
    let command = add_units(alloc, command);
    add_strings(alloc, add_follow(alloc, command))
}

/// The command line without its subcommands, of which one is wanted.
fn program<'a>(alloc: Global) -> Command<'a>
    ensures { IsApp top_app result }
{
    Command::new(alloc, "dwline")
        .about(
            "Read line tables of DWARF 2 to 5: those of FILE, an ELF file. Without FILE the bytes of a \
             section .debug_line are read from standard input, not an ELF file. What is asked for \
             goes to standard output.",
        )
        .after_help(
            "Examples:\n  dwline addr program 0x401136\n  dwline dump program\n  \
             dwline dump --line-str debug_line_str < debug_line",
        )
        .version(VERSION)
        .subcommand_required(true)
}

/// The whole command line.
pub fn make_command_line<'a>(alloc: Global) -> Result<Command<'a>, AllocError>
    ensures app { IfOk result (IsApp command_line) }
    ensures refused { OnErr result LibraryRefused }
{
    let line = with_command(program(alloc), addr(alloc))?;
    let line = with_command(line, index(alloc))?;
    let line = with_command(line, dump(alloc))?;
    let line = with_command(line, check(alloc))?;
    let line = with_command(line, find(alloc))?;
    let line = with_command(line, copy(alloc))?;
    let line = with_command(line, sources(alloc))?;
    let line = with_command(line, lines(alloc))?;
    with_command(line, lint(alloc))
}

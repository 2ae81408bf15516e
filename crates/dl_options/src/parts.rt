//! The arguments of subcommands, several at a time, as far as a subcommand could be made.
ghost use Rattle.std.specs.Prelude.{IfOk, OnErr, codes};
ghost use Rattle.clap.specs.Words.{AddsArg, App, Rule, with_rule};
ghost use Rattle.dl_options.specs.CommandLine.{IsApp, IsRule, with_addresses, with_files, with_follow, with_input, with_keep_going};
ghost use Rattle.dl_options.specs.CommandLine.{with_lines, with_listing, with_making, with_part, with_printing, with_rules, with_search, with_settings};
ghost use Rattle.dl_options.specs.CommandLine.{with_shown, with_strings, with_to_5, with_units, with_units_of_file};
ghost use Rattle.dl_options.specs.Memory.{LibraryRefused};

use crate::arguments::{
    addr_file, address_size, addresses, all, base, big, comp_dir, debug_dir, exe, file, files,
    files_from, json, letter, line_str, lines, listed_unit, made_of, no_rule, older, range, rule,
    section, stop, strings, switch, unit, version_5,
};
use crate::library::refused;
use clap::{Arg, Command};
use std::alloc::{AllocError, Global};

/// The command with one argument more.
fn take_arg<'a>(command: Command<'a>, arg: Arg<'a>) -> Result<Command<'a>, AllocError>
    ensures added { IfOk result (λ r. AddsArg command.entry arg.entry r) }
    ensures refused { OnErr result LibraryRefused }
{
    match command.arg(arg) {
        Ok(command) => Ok(command),
        Err(error) => Err(refused(error)),
    }
}

/// The command with one argument more, where it could be made so far.
pub fn with_arg<'a>(
    command: Result<Command<'a>, AllocError>,
    arg: Arg<'a>,
) -> Result<Command<'a>, AllocError>
    ensures app { (a : App) (r : Rule) → IfOk command.entry (IsApp a) → IsRule r arg.entry
        → IfOk result (IsApp (with_rule a r)) }
    ensures refused { OnErr command.entry LibraryRefused → OnErr result LibraryRefused }
{
    take_arg(command?, arg)
}

/// Which units of versions 2 to 4 are read.
pub fn add_units<'a>(
    alloc: Global,
    command: Result<Command<'a>, AllocError>,
) -> Result<Command<'a>, AllocError>
    ensures app { (a : App) → IfOk command.entry (IsApp a) → IfOk result (IsApp (with_units a)) }
    ensures refused { OnErr command.entry LibraryRefused → OnErr result LibraryRefused }
{
    add_units_of_file(alloc, with_arg(command, older(alloc)))
}

/// The same of a FILE that is no section on standard input.
pub fn add_units_of_file<'a>(
    alloc: Global,
    command: Result<Command<'a>, AllocError>,
) -> Result<Command<'a>, AllocError>
    ensures app { (a : App) → IfOk command.entry (IsApp a) → IfOk result (IsApp (with_units_of_file a)) }
    ensures refused { OnErr command.entry LibraryRefused → OnErr result LibraryRefused }
{
    let command = with_arg(command, address_size(alloc));
    with_arg(command, version_5(alloc))
}

/// `--to-5`, and what is said of the units that it copies.
pub fn add_to_5<'a>(
    alloc: Global,
    command: Result<Command<'a>, AllocError>,
) -> Result<Command<'a>, AllocError>
    ensures app { (a : App) → IfOk command.entry (IsApp a) → IfOk result (IsApp (with_to_5 a)) }
    ensures refused { OnErr command.entry LibraryRefused → OnErr result LibraryRefused }
{
    let to_5 = switch(
        alloc,
        "to-5",
        "Copy units of versions 2 to 4 too, as units of version 5",
    );
    let command = with_arg(command, to_5);
    let command = with_arg(command, older(alloc));
    let command = with_arg(command, address_size(alloc));
    with_arg(command, comp_dir(alloc))
}

/// Whether units after a damaged one are read.
pub fn add_keep_going<'a>(
    alloc: Global,
    command: Result<Command<'a>, AllocError>,
) -> Result<Command<'a>, AllocError>
    ensures app { (a : App) → IfOk command.entry (IsApp a) → IfOk result (IsApp (with_keep_going a)) }
    ensures refused { OnErr command.entry LibraryRefused → OnErr result LibraryRefused }
{
    let keep_going = switch(
        alloc,
        "keep-going",
        "After a damaged unit go on with the next one",
    );
    with_arg(command, keep_going)
}

/// What `dump` prints of each unit beside its directories, files and rows, and where their paths stand.
pub fn add_shown<'a>(
    alloc: Global,
    command: Result<Command<'a>, AllocError>,
) -> Result<Command<'a>, AllocError>
    ensures app { (a : App) → IfOk command.entry (IsApp a) → IfOk result (IsApp (with_shown a)) }
    ensures refused { OnErr command.entry LibraryRefused → OnErr result LibraryRefused }
{
    let header = switch(alloc, "header", "Print the fields of each header too");
    let command = with_arg(command, header);
    let operations = switch(
        alloc,
        "operations",
        "Print each operation before the row that it makes",
    );
    let command = with_arg(command, operations);
    let paths = switch(
        alloc,
        "paths",
        "Print the path of its file at the end of each row",
    );
    with_arg(with_arg(command, paths), comp_dir(alloc))
}

/// Which units and sequences `dump` prints, and whether as JSON objects.
pub fn add_part<'a>(
    alloc: Global,
    command: Result<Command<'a>, AllocError>,
) -> Result<Command<'a>, AllocError>
    ensures app { (a : App) → IfOk command.entry (IsApp a) → IfOk result (IsApp (with_part a)) }
    ensures refused { OnErr command.entry LibraryRefused → OnErr result LibraryRefused }
{
    let json = switch(
        alloc,
        "json",
        "Print a JSON object for each unit and each row, one a line",
    );
    let command = with_arg(command, json);
    with_arg(with_arg(command, unit(alloc)), range(alloc))
}

/// Which findings `lint` tells, and whether as JSON objects.
pub fn add_rules<'a>(
    alloc: Global,
    command: Result<Command<'a>, AllocError>,
) -> Result<Command<'a>, AllocError>
    ensures app { (a : App) → IfOk command.entry (IsApp a) → IfOk result (IsApp (with_rules a)) }
    ensures refused { OnErr command.entry LibraryRefused → OnErr result LibraryRefused }
{
    let command = with_arg(command, rule(alloc));
    let command = with_arg(command, no_rule(alloc));
    let json = switch(
        alloc,
        "json",
        "Print a JSON object for each finding, one a line",
    );
    with_arg(command, json)
}

/// Which files are read in place of one without a line table.
pub fn add_follow<'a>(
    alloc: Global,
    command: Result<Command<'a>, AllocError>,
) -> Result<Command<'a>, AllocError>
    ensures app { (a : App) → IfOk command.entry (IsApp a) → IfOk result (IsApp (with_follow a)) }
    ensures refused { OnErr command.entry LibraryRefused → OnErr result LibraryRefused }
{
    let no_follow = switch(alloc, "no-follow", "Read no other file in place of FILE");
    let verbose = switch(
        alloc,
        "verbose",
        "Tell on standard error which file is read, and what is passed over",
    );
    let command = with_arg(command, debug_dir(alloc));
    with_arg(with_arg(command, no_follow), verbose)
}

pub fn add_input<'a>(
    alloc: Global,
    command: Result<Command<'a>, AllocError>,
) -> Result<Command<'a>, AllocError>
    ensures app { (a : App) → IfOk command.entry (IsApp a) → IfOk result (IsApp (with_input a)) }
    ensures refused { OnErr command.entry LibraryRefused → OnErr result LibraryRefused }
{
    with_arg(with_arg(command, big(alloc)), file(alloc))
}

/// Which files are read, and whether it is told how far the work is.
pub fn add_files<'a>(
    alloc: Global,
    command: Result<Command<'a>, AllocError>,
) -> Result<Command<'a>, AllocError>
    ensures app { (a : App) → IfOk command.entry (IsApp a) → IfOk result (IsApp (with_files a)) }
    ensures refused { OnErr command.entry LibraryRefused → OnErr result LibraryRefused }
{
    let command = with_arg(command, big(alloc));
    let command = with_arg(command, files_from(alloc));
    let null = letter(
        alloc,
        "null",
        '0',
        "Paths of --files-from end with a zero byte, as find -print0 writes them",
    );
    let command = with_arg(command, null);
    let progress = switch(
        alloc,
        "progress",
        "Tell on standard error how far the work is",
    );
    with_arg(with_arg(command, progress), files(alloc))
}

pub fn add_strings<'a>(
    alloc: Global,
    command: Result<Command<'a>, AllocError>,
) -> Result<Command<'a>, AllocError>
    ensures app { (a : App) → IfOk command.entry (IsApp a) → IfOk result (IsApp (with_strings a)) }
    ensures refused { OnErr command.entry LibraryRefused → OnErr result LibraryRefused }
{
    let command = with_arg(command, big(alloc));
    let command = with_arg(command, line_str(alloc));
    let command = with_arg(command, strings(alloc));
    with_arg(command, file(alloc))
}

/// How answers are printed.
pub fn add_printing<'a>(
    alloc: Global,
    command: Result<Command<'a>, AllocError>,
) -> Result<Command<'a>, AllocError>
    ensures app { (a : App) → IfOk command.entry (IsApp a) → IfOk result (IsApp (with_printing a)) }
    ensures refused { OnErr command.entry LibraryRefused → OnErr result LibraryRefused }
{
    let addresses = letter(
        alloc,
        "addresses",
        'a',
        "Print each address before its location",
    );
    let command = with_arg(command, addresses);
    let basenames = letter(
        alloc,
        "basenames",
        's',
        "Print the last component of each path alone",
    );
    with_arg(with_arg(command, basenames), json(alloc))
}

/// How addresses are read and looked up, and how answers are printed.
pub fn add_settings<'a>(
    alloc: Global,
    command: Result<Command<'a>, AllocError>,
) -> Result<Command<'a>, AllocError>
    ensures app { (a : App) → IfOk command.entry (IsApp a) → IfOk result (IsApp (with_settings a)) }
    ensures refused { OnErr command.entry LibraryRefused → OnErr result LibraryRefused }
{
    let command = add_printing(alloc, command);
    let decimal = switch(alloc, "decimal", "Read digits without 0x as decimal");
    let hex = switch(
        alloc,
        "hex",
        "Read digits without 0x as hexadecimal (default)",
    );
    let command = with_arg(command, decimal);
    let command = with_arg(command, hex);
    let command = with_arg(command, base(alloc));
    let command = with_arg(command, all(alloc));
    let command = with_arg(command, stop(alloc));
    with_arg(command, section(alloc))
}

pub fn add_addresses<'a>(
    alloc: Global,
    command: Result<Command<'a>, AllocError>,
) -> Result<Command<'a>, AllocError>
    ensures app { (a : App) → IfOk command.entry (IsApp a) → IfOk result (IsApp (with_addresses a)) }
    ensures refused { OnErr command.entry LibraryRefused → OnErr result LibraryRefused }
{
    let command = add_units(alloc, add_settings(alloc, command));
    let command = with_arg(command, comp_dir(alloc));
    let command = with_arg(command, made_of(alloc));
    let command = add_follow(alloc, command);
    let command = with_arg(command, big(alloc));
    let command = with_arg(command, line_str(alloc));
    let command = with_arg(command, strings(alloc));
    let command = with_arg(command, exe(alloc));
    let command = with_arg(command, addr_file(alloc));
    with_arg(command, addresses(alloc))
}

/// What an index is made of.
pub fn add_making<'a>(
    alloc: Global,
    command: Result<Command<'a>, AllocError>,
) -> Result<Command<'a>, AllocError>
    ensures app { (a : App) → IfOk command.entry (IsApp a) → IfOk result (IsApp (with_making a)) }
    ensures refused { OnErr command.entry LibraryRefused → OnErr result LibraryRefused }
{
    let command = add_keep_going(alloc, with_arg(command, all(alloc)));
    let command = with_arg(command, section(alloc));
    let command = add_units_of_file(alloc, command);
    add_follow(alloc, with_arg(command, comp_dir(alloc)))
}

/// What `sources` tells of each source file, of which sequences and units, and where paths stand.
pub fn add_listing<'a>(
    alloc: Global,
    command: Result<Command<'a>, AllocError>,
) -> Result<Command<'a>, AllocError>
    ensures app { (a : App) → IfOk command.entry (IsApp a) → IfOk result (IsApp (with_listing a)) }
    ensures refused { OnErr command.entry LibraryRefused → OnErr result LibraryRefused }
{
    let rows = switch(
        alloc,
        "rows",
        "Print how many rows name each path, and how many bytes of code they have",
    );
    let command = with_arg(command, rows);
    let md5 = switch(alloc, "md5", "Print the MD5 sums of each path");
    let command = with_arg(command, md5);
    let json = switch(
        alloc,
        "json",
        "Print a JSON object for each path, one a line",
    );
    let command = with_arg(with_arg(command, json), listed_unit(alloc));
    let command = add_keep_going(alloc, with_arg(command, all(alloc)));
    with_arg(command, comp_dir(alloc))
}

/// Which rows answer for a line, and of which units.
fn add_search<'a>(
    alloc: Global,
    command: Result<Command<'a>, AllocError>,
) -> Result<Command<'a>, AllocError>
    ensures app { (a : App) → IfOk command.entry (IsApp a) → IfOk result (IsApp (with_search a)) }
    ensures refused { OnErr command.entry LibraryRefused → OnErr result LibraryRefused }
{
    let exact = switch(
        alloc,
        "exact",
        "Look for each line alone, and for none above it where it has no address",
    );
    let command = with_arg(with_arg(command, exact), all(alloc));
    with_arg(with_arg(command, stop(alloc)), section(alloc))
}

/// The file that `lines` reads, and the lines that it looks up.
pub fn add_lines<'a>(
    alloc: Global,
    command: Result<Command<'a>, AllocError>,
) -> Result<Command<'a>, AllocError>
    ensures app { (a : App) → IfOk command.entry (IsApp a) → IfOk result (IsApp (with_lines a)) }
    ensures refused { OnErr command.entry LibraryRefused → OnErr result LibraryRefused }
{
    let command = add_units(alloc, add_search(alloc, command));
    let command = add_follow(alloc, with_arg(command, comp_dir(alloc)));
    let command = with_arg(command, big(alloc));
    let command = with_arg(command, line_str(alloc));
    let command = with_arg(command, strings(alloc));
    with_arg(with_arg(command, addr_file(alloc)), lines(alloc))
}

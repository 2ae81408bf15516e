//! The arguments of the command line, with their help. Which of them may not stand together is in `refusal`, and so is which
//! have to be there beside others: of arguments that have no rule on one another clap's contract says each kind of error.
ghost use Rattle.dl_options.specs.CommandLine.{IsRule, address_rule, addresses_rule, base_rule, big_rule, exe_rule, file_rule, files_rule};
ghost use Rattle.dl_options.specs.CommandLine.{index_file_rule, letter_rule, line_str_rule, lines_rule, op_rule, output_rule};
ghost use Rattle.dl_options.specs.CommandLine.{section_rule, str_rule, switch_rule, value_rule, values_rule};
ghost use Rattle.std.specs.Prelude.{codes};

use clap::{Arg, ArgAction};
use std::alloc::Global;

/// The ELF file that is read.
pub fn file<'a>(alloc: Global) -> Arg<'a>
    ensures { IsRule file_rule result }
{
    Arg::new(alloc, "file").value_name("FILE").help(
        "ELF file to read; without it the bytes of a section .debug_line are read from \
             standard input",
    )
}

/// The ELF files of `check`.
pub fn files<'a>(alloc: Global) -> Arg<'a>
    ensures { IsRule files_rule result }
{
    Arg::new(alloc, "file")
        .action(ArgAction::Append)
        .value_name("FILE")
        .help(
            "ELF files to read; without one, and without --files-from, the bytes of a section .debug_line \
             are read from standard input",
        )
}

/// The list of files of `check`.
pub fn files_from<'a>(alloc: Global) -> Arg<'a>
    ensures { IsRule (value_rule (codes "files-from")) result }
{
    valued(
        alloc,
        "files-from",
        "PATH",
        "File with the paths of further files to read, one a line, or - for standard input",
    )
}

pub fn big<'a>(alloc: Global) -> Arg<'a>
    ensures { IsRule big_rule result }
{
    switch(
        alloc,
        "big",
        "Read the section on standard input as big-endian (it is little-endian else)",
    )
}

pub fn line_str<'a>(alloc: Global) -> Arg<'a>
    ensures { IsRule line_str_rule result }
{
    Arg::new(alloc, "line-str")
        .long("line-str")
        .value_name("PATH")
        .help("File with the bytes of .debug_line_str, where paths may stand")
}

pub fn strings<'a>(alloc: Global) -> Arg<'a>
    ensures { IsRule str_rule result }
{
    Arg::new(alloc, "str")
        .long("str")
        .value_name("PATH")
        .help("File with the bytes of .debug_str, where paths may stand")
}

pub fn address<'a>(alloc: Global) -> Arg<'a>
    ensures { IsRule address_rule result }
{
    Arg::new(alloc, "address")
        .required(true)
        .value_name("ADDRESS")
        .help("Address to look up: 0x and hexadecimal digits, or decimal digits")
}

pub fn op<'a>(alloc: Global) -> Arg<'a>
    ensures { IsRule op_rule result }
{
    Arg::new(alloc, "op")
        .long("op")
        .value_name("N")
        .value_parser(clap::value_parser!(u8))
        .default_value("0")
        .help("Operation within the instruction at ADDRESS, from 0 to 255")
}

/// The section of an object file in which addresses are looked up, also by the letter that addr2line has for it.
pub fn section<'a>(alloc: Global) -> Arg<'a>
    ensures { IsRule section_rule result }
{
    Arg::new(alloc, "section")
        .long("section")
        .short('j')
        .value_name("NAME")
        .help(
            "Section of an object file to look into; without it .text, or where there is none the \
             first section with code",
        )
}

/// The file of `addr` and of `lines`, which may be `-` beside `--big`, `--line-str` and `--str`.
pub fn addr_file<'a>(alloc: Global) -> Arg<'a>
    ensures { IsRule file_rule result }
{
    Arg::new(alloc, "file").value_name("FILE").help(
        "ELF file to read, or - for the bytes of a section .debug_line on standard input",
    )
}

/// The file of `addr` by a letter, as addr2line and llvm-symbolizer take it. Then each other word is an address.
pub fn exe<'a>(alloc: Global) -> Arg<'a>
    ensures { IsRule exe_rule result }
{
    Arg::new(alloc, "exe")
        .long("exe")
        .short('e')
        .value_name("FILE")
        .help("The file to read, in place of the first word; all words are addresses then")
}

/// The file of `index`.
pub fn index_file<'a>(alloc: Global) -> Arg<'a>
    ensures { IsRule index_file_rule result }
{
    Arg::new(alloc, "file")
        .required(true)
        .value_name("FILE")
        .help("ELF file to read, or with --list the index to list")
}

/// Where the index is written.
pub fn output<'a>(alloc: Global) -> Arg<'a>
    ensures { IsRule output_rule result }
{
    Arg::new(alloc, "output")
        .long("output")
        .short('o')
        .value_name("PATH")
        .help("File to write the index to, or - for standard output")
}

pub fn list<'a>(alloc: Global) -> Arg<'a>
    ensures { IsRule (switch_rule (codes "list")) result }
{
    switch(
        alloc,
        "list",
        "List the stretches of an index in place of making one",
    )
}

pub fn json<'a>(alloc: Global) -> Arg<'a>
    ensures { IsRule (switch_rule (codes "json")) result }
{
    switch(
        alloc,
        "json",
        "Print a JSON object for each address, one a line",
    )
}

pub fn all<'a>(alloc: Global) -> Arg<'a>
    ensures { IsRule (switch_rule (codes "all")) result }
{
    switch(
        alloc,
        "all",
        "Look into sequences too that begin outside executable sections",
    )
}

pub fn stop<'a>(alloc: Global) -> Arg<'a>
    ensures { IsRule (switch_rule (codes "stop")) result }
{
    switch(
        alloc,
        "stop",
        "Stop at the first damaged unit, of which the units before it answer alone",
    )
}

pub fn addresses<'a>(alloc: Global) -> Arg<'a>
    ensures { IsRule addresses_rule result }
{
    Arg::new(alloc, "address")
        .action(ArgAction::Append)
        .value_name("ADDRESS")
        .help(
            "Addresses to look up: hexadecimal digits, with or without 0x; without one they are read \
             from standard input, one a line",
        )
}

/// The lines of source files that `lines` looks up.
pub fn lines<'a>(alloc: Global) -> Arg<'a>
    ensures { IsRule lines_rule result }
{
    Arg::new(alloc, "line")
        .action(ArgAction::Append)
        .value_name("PATH:LINE")
        .help(
            "Lines to look up: the path of a source file, or its end from after a slash on, and a number",
        )
}

pub fn base<'a>(alloc: Global) -> Arg<'a>
    ensures { IsRule base_rule result }
{
    Arg::new(alloc, "base")
        .long("base")
        .value_name("ADDRESS")
        .help("Load address, which is subtracted from each address first")
}

/// An option `--id` without a value.
pub fn switch<'a>(alloc: Global, id: &'a str, help: &'a str) -> Arg<'a>
    ensures { IsRule (switch_rule id.entry.now) result }
{
    Arg::new(alloc, id)
        .long(id)
        .action(ArgAction::SetTrue)
        .help(help)
}

/// An option `--id`, or by its letter, without a value.
pub fn letter<'a>(alloc: Global, id: &'a str, short: char, help: &'a str) -> Arg<'a>
    ensures { IsRule (letter_rule id.entry.now short) result }
{
    switch(alloc, id, help).short(short)
}

/// An option `--id` with a value.
fn valued<'a>(alloc: Global, id: &'a str, value_name: &'a str, help: &'a str) -> Arg<'a>
    ensures { IsRule (value_rule id.entry.now) result }
{
    Arg::new(alloc, id)
        .long(id)
        .value_name(value_name)
        .help(help)
}

/// The same, any number of times.
fn several<'a>(alloc: Global, id: &'a str, value_name: &'a str, help: &'a str) -> Arg<'a>
    ensures { IsRule (values_rule id.entry.now) result }
{
    valued(alloc, id, value_name, help).action(ArgAction::Append)
}

pub fn older<'a>(alloc: Global) -> Arg<'a>
    ensures { IsRule (value_rule (codes "older")) result }
{
    valued(
        alloc,
        "older",
        "SIZE",
        "Read units of versions 2 to 4 on standard input too, whose addresses have SIZE bytes: 1, 2, 4 \
         or 8",
    )
}

pub fn address_size<'a>(alloc: Global) -> Arg<'a>
    ensures { IsRule (value_rule (codes "address-size")) result }
{
    valued(
        alloc,
        "address-size",
        "SIZE",
        "Size of an address in units of versions 2 to 4 of FILE, in place of that of its class: 1, 2, 4 \
         or 8",
    )
}

pub fn version_5<'a>(alloc: Global) -> Arg<'a>
    ensures { IsRule (switch_rule (codes "version-5")) result }
{
    switch(alloc, "version-5", "Read units of version 5 alone of FILE")
}

pub fn comp_dir<'a>(alloc: Global) -> Arg<'a>
    ensures { IsRule (value_rule (codes "comp-dir")) result }
{
    valued(
        alloc,
        "comp-dir",
        "DIR",
        "Compilation directory of all units, in place of the one that .debug_info says",
    )
}

/// A folder for separate debug files.
pub fn debug_dir<'a>(alloc: Global) -> Arg<'a>
    ensures { IsRule (values_rule (codes "debug-dir")) result }
{
    several(
        alloc,
        "debug-dir",
        "DIR",
        "Folder for separate debug files, in place of /usr/lib/debug; there may be several",
    )
}

/// The unit that is printed.
pub fn unit<'a>(alloc: Global) -> Arg<'a>
    ensures { IsRule (value_rule (codes "unit")) result }
{
    valued(
        alloc,
        "unit",
        "OFFSET",
        "Print the unit alone that begins at this offset of the section: 0x and hexadecimal digits, or \
         decimal digits",
    )
}

/// The unit whose source files are printed.
pub fn listed_unit<'a>(alloc: Global) -> Arg<'a>
    ensures { IsRule (value_rule (codes "unit")) result }
{
    valued(
        alloc,
        "unit",
        "OFFSET",
        "Print the paths of the unit alone that begins at this offset of the section: 0x and \
         hexadecimal digits, or decimal digits",
    )
}

/// The addresses whose sequences are printed.
pub fn range<'a>(alloc: Global) -> Arg<'a>
    ensures { IsRule (value_rule (codes "range")) result }
{
    valued(
        alloc,
        "range",
        "LOW-HIGH",
        "Print the sequences alone that cover an address from LOW on and below HIGH, and their units",
    )
}

/// A rule whose findings are told.
pub fn rule<'a>(alloc: Global) -> Arg<'a>
    ensures { IsRule (values_rule (codes "rule")) result }
{
    several(
        alloc,
        "rule",
        "NAME",
        "Tell the findings of this rule, and of no rule that isn't named; there may be several",
    )
}

/// A rule whose findings aren't told.
pub fn no_rule<'a>(alloc: Global) -> Arg<'a>
    ensures { IsRule (values_rule (codes "no-rule")) result }
{
    several(
        alloc,
        "no-rule",
        "NAME",
        "Tell no finding of this rule; there may be several",
    )
}

/// The file of which an index has to be made. A section on standard input has none.
pub fn made_of<'a>(alloc: Global) -> Arg<'a>
    ensures { IsRule (value_rule (codes "for")) result }
{
    valued(
        alloc,
        "for",
        "PATH",
        "ELF file whose build ID the index FILE must have",
    )
}

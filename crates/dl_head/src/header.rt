//! Headers. Section 6.2.4.

ghost use Rattle.std.specs.Prelude.{◌≡◌, ◌≤◌, ◌↔◌, IsTrue, ◌-◌, ◌^◌, None, Some, IfErr, IfOk, IfNone, OnOk, min, nat_lt, if◌then◌else◌};
ghost use Rattle.std.specs.Option.{option_map};
ghost use Rattle.dl_field.specs.Usable.{IsUsable};
ghost use Rattle.dl_head.specs.Built.{param_fault as param_fault_of, with_standard_opcodes as standard};
ghost use Rattle.dl_head.specs.Built.{are_operations as are_operations_of, wrong_length as wrong_length_of};
ghost use Rattle.dl_table.specs.Sound.{IsSoundTable};
ghost use Rattle.dl_head.specs.Sound.{IsSoundHeader};
ghost use Rattle.dl_field.specs.HeaderData.{header_cells};
ghost use Rattle.dl_head.specs.Numbers.{directory_numbered, file_numbered, first_number};
ghost use Rattle.dl_table.specs.EntryHeld.{entry_items};

use crate::fault::ParamFault;
use dl_field::Params;
use dl_field::params::{is_wrong_length, standard_lengths};
use dl_table::{Entry, Table};
use std::marker::Model;
use thiserror::Error;

/// The header of a unit: its params, and its tables of directories and files.
#[derive(Debug, Drop)]
pub struct Header {
    params: Params,
    directories: Table,
    files: Table,
}

impl Model for Header {
    ghost use Rattle.dl_field.specs.HeaderData.{HeaderData};

    ghost Value = { HeaderData };

    ghost use Rattle.dl_head.specs.Sound.{IsSoundHeader};

    ghost view = { λ h. record { params = h.params; directories = h.directories; files = h.files } };

    ghost invariant = { λ h. IsSoundHeader
        (record { params = h.params; directories = h.directories; files = h.files }) };
}

impl PartialEq for Header {
    ghost use Rattle.std.specs.Cmp.{partial_equiv_from_equiv};
    ghost use Rattle.dl_head.specs.Equal.{same_header};
    ghost use Rattle.dl_head.specs.EqualLaws.{same_header-laws as same_header_laws};

    ghost eq = { same_header };

    ghost laws = { partial_equiv_from_equiv same_header_laws };

    fn eq(&self, other: &Header) -> bool
        ensures value { result ≡ same_header self.now other.now }
        ensures exact { IsTrue result ↔ (self.now ≡ other.now) }
    {
        self.params == other.params
            && self.directories == other.directories
            && self.files == other.files
    }
}

impl Eq for Header {
    ghost use Rattle.dl_head.specs.EqualLaws.{same_header-laws as same_header_laws};

    ghost laws = { same_header_laws };
}

/// How long a unit and its header are. Section 6.2.4.
#[derive(Clone, Copy, Debug, PartialEq, Eq)]
pub struct HeaderLengths {
    /// unit_length: how many bytes the unit has after this field.
    pub unit_length: u64,
    /// header_length: how many bytes the header has after this field.
    pub header_length: u64,
    /// How many bytes stand between the last entry of the tables and the program.
    pub padding: u64,
}

/// Why the parts of a header were refused, and all of them.
#[derive(Debug, Drop, Error)]
#[error("no header: {fault}")]
pub struct Refused {
    pub fault: ParamFault,
    pub params: Params,
    pub directories: Table,
    pub files: Table,
}

impl Header {
    /// A header of these parts, or the first reason against it with all parts.
    pub fn new(params: Params, directories: Table, files: Table) -> Result<Header, Refused>
        ensures fits { OnOk result (param_fault_of params directories files ≡ None) }
        ensures made { IfOk result
            (λ h. h ≡ record { params = params; directories = directories; files = files }) }
        ensures refused { IfErr result
            (λ r. param_fault_of params directories files ≡ Some r.fault) }
        ensures handed_back { IfErr result
            (λ r. (r.params ≡ params) × (r.directories ≡ directories) × (r.files ≡ files)) }
    {
        match param_fault(&params, &directories, &files) {
            Some(fault) => Err(Refused {
                fault,
                params,
                directories,
                files,
            }),
            None => Ok(Header {
                params,
                directories,
                files,
            }),
        }
    }

    /// The header of parts that were read.
    pub(crate) fn of_parts(params: Params, directories: Table, files: Table) -> Header
        requires { param_fault_of params directories files ≡ None }
        ensures { result
            ≡ record { params = params; directories = directories; files = files } }
    {
        Header {
            params,
            directories,
            files,
        }
    }

    /// The fields that are numbers.
    pub fn params(&self) -> &Params
        ensures value { result.now ≡ self.now.params }
        ensures usable { IsUsable self.now.params }
        ensures sound { IsSoundHeader self.now }
    {
        &self.params
    }

    /// The table of directories.
    pub fn directories(&self) -> &Table
        ensures { result.now ≡ self.now.directories }
    {
        &self.directories
    }

    /// The table of files.
    pub fn files(&self) -> &Table
        ensures { result.now ≡ self.now.files }
    {
        &self.files
    }

    /// The number of the first entry of each table: 0 in version 5, and 1 before.
    pub fn first_number(&self) -> u64
        ensures value { result ≡ first_number self.now.params }
        ensures least { result ≤ 1 }
    {
        if self.params.version == 5 { 0 } else { 1 }
    }

    /// The directory of this number. None where the table has none of this number.
    pub fn directory(&self, number: u64) -> Option<Entry<'_>>
        ensures { option_map entry_items result ≡ directory_numbered self.now number }
    {
        self.directories.entry(self.place_of(number)?)
    }

    /// The file of this number, as rows name it. None where the table has none of this number.
    pub fn file(&self, number: u64) -> Option<Entry<'_>>
        ensures { option_map entry_items result ≡ file_numbered self.now number }
    {
        self.files.entry(self.place_of(number)?)
    }

    /// Which entry of its table has this number, counted from 0. None where a number comes before those of the entries.
    fn place_of(&self, number: u64) -> Option<usize>
        ensures { result ≡ (if nat_lt number (first_number self.now.params) then None
            else Some (number - first_number self.now.params)) }
    {
        let place = number.checked_sub(self.first_number())?;
        Some(place as usize)
    }

    /// How many pairs, values, and bytes of texts and blocks the tables hold; 2^64 - 1 where there
    /// are more.
    pub fn cells(&self) -> u64
        ensures { result ≡ min (header_cells self.now) (2 ^ 64 - 1) }
    {
        self.directories.cells().saturating_add(self.files.cells())
    }

    /// The same header with opcode_base 13 and the twelve lengths of section 6.2.5.2.
    pub fn with_standard_opcodes(self) -> Header
        ensures { result ≡ standard self }
    {
        let Header {
            mut params,
            directories,
            files,
        } = self;
        params.opcode_base = 13;
        params.lengths = standard_lengths();
        Header {
            params,
            directories,
            files,
        }
    }
}

/// The first reason for which the parts make no header.
fn param_fault(params: &Params, directories: &Table, files: &Table) -> Option<ParamFault>
    ensures value { result ≡ param_fault_of params.now directories.now files.now }
    ensures sound_directories { IfNone result (IsSoundTable directories.now) }
    ensures sound_files { IfNone result (IsSoundTable files.now) }
{
    if !matches!(params.version, 2 | 3 | 4 | 5) {
        return Some(ParamFault::Version);
    }
    if !matches!(params.address_size, 1 | 2 | 4 | 8) {
        return Some(ParamFault::AddressSize);
    }
    if !are_operations(params.version, params.maximum_operations_per_instruction) {
        return Some(ParamFault::MaxOps);
    }
    if params.line_range == 0 {
        return Some(ParamFault::LineRange);
    }
    if params.lengths.len() + 1 != usize::from(params.opcode_base) {
        return Some(ParamFault::OpcodeBase);
    }
    if let Some(opcode) = wrong_length(params.lengths.as_slice()) {
        return Some(ParamFault::StandardLength(opcode));
    }
    if directories.format() != params.format || files.format() != params.format {
        return Some(ParamFault::TableFormat);
    }
    None
}

/// Whether an instruction of this version may have so many operations at most.
fn are_operations(version: u16, operations: u8) -> bool
    ensures { result ≡ are_operations_of version operations }
{
    if version < 4 {
        operations == 1
    } else {
        operations > 0
    }
}

/// The least standard opcode whose length isn't that of section 6.2.5.2.
fn wrong_length(lengths: &[u8]) -> Option<u8>
    ensures { result ≡ wrong_length_of 1 lengths.now }
{
    for (i, length) in lengths.iter().enumerate() {
        if is_wrong_length(i + 1, *length) {
            return Some((i + 1) as u8);
        }
    }
    None
}

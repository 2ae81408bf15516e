//! Headers of versions 2 to 4, made headers of version 5. Sections 6.2.4 and 6.2.4.1; DWARF 4, section 6.2.4.

ghost use Rattle.std.specs.Prelude.{◌≡◌, ◌≢◌, IfOk, OnErr};
ghost use Rattle.std.specs.Option.{option_copied};
ghost use Rattle.dl_memory.specs.Refusals.{IsRefused, SystemRefuses};
ghost use Rattle.dl_field.specs.HeaderData.{header_cells};
ghost use Rattle.dl_field.specs.Usable.{IsUsable};
ghost use Rattle.dl_emit.specs.Conversion.{before_zero, first_directory, to_version_5, version_5_params};
ghost use Rattle.dl_emit.specs.Texts.{IsText};

use crate::new_tables::{directories, files};
use arrayvec::ArrayVec;
use dl_head::{Header, Params, text_at};
use dl_memory::{Memory, NoMemory, System};
use std::alloc::{AllocError, Global};

/// The header in version 5, with the compilation directory where that is known. It is unchanged where its version is 5.
///
/// In version 5 directories and files are numbered from 0, before from 1 on; so each keeps its number. Directory 0 is
/// the compilation directory, which is cut at its first zero byte, since a text of a table can't have one, and `.` where it
/// isn't known. File 0 is file 1 again. Times and sizes of files are kept where any isn't 0. Memory is taken for the tables
/// alone, of a header of another version than 5.
pub fn into_version_5(
    alloc: Global,
    header: Header,
    directory: Option<&[u8]>,
) -> Result<Header, AllocError>
    ensures value { IfOk result (λ h. h ≡ to_version_5 header (option_copied directory.entry)) }
    ensures older { OnErr result (header.params.version ≢ 5) }
    ensures refused { OnErr result
        (IsRefused SystemRefuses (header_cells (to_version_5 header (option_copied directory.entry)))) }
{
    match into_version_5_in(&System::new(alloc), header, directory) {
        Ok(header) => Ok(header),
        Err(NoMemory) => Err(AllocError),
    }
}

/// The same, by this memory, which is asked for no list of more items than the new tables have cells.
pub fn into_version_5_in<M: Memory>(
    memory: &M,
    header: Header,
    directory: Option<&[u8]>,
) -> Result<Header, NoMemory>
    ensures value { IfOk result (λ h. h ≡ to_version_5 header (option_copied directory.entry)) }
    ensures older { OnErr result (header.params.version ≢ 5) }
    ensures refused { OnErr result
        (IsRefused (M.refuses memory.now) (header_cells (to_version_5 header (option_copied directory.entry)))) }
{
    if header.params().version == 5 {
        return Ok(header);
    }
    let params = params_of_version_5(header.params());
    let directories = directories(memory, header.directories(), first_directory(directory))?;
    let files = files(memory, header.files())?;
    match Header::new(params, directories, files) {
        Ok(header) => Ok(header),
        Err(_) => unreachable!(),
    }
}

/// The params in version 5.
pub(crate) fn params_of_version_5(params: &Params) -> Params
    requires { IsUsable params.now }
    ensures value { result ≡ version_5_params params.now }
    ensures usable { IsUsable result }
{
    Params {
        format: params.format,
        version: 5,
        address_size: params.address_size,
        segment_selector_size: params.segment_selector_size,
        minimum_instruction_length: params.minimum_instruction_length,
        maximum_operations_per_instruction: params.maximum_operations_per_instruction,
        default_is_stmt: params.default_is_stmt,
        line_base: params.line_base,
        line_range: params.line_range,
        opcode_base: params.opcode_base,
        lengths: ArrayVec::try_from(params.lengths.as_slice()).unwrap(),
    }
}

/// The compilation directory as directory 0.
fn first_directory<'a>(directory: Option<&'a [u8]>) -> &'a [u8]
    ensures value { result.now ≡ first_directory (option_copied directory.entry) }
    ensures text { IsText result.now }
{
    match directory {
        Some(directory) => before_zero(directory),
        None => b".",
    }
}

/// The bytes before the first zero byte.
fn before_zero(bytes: &[u8]) -> &[u8]
    ensures value { result.now ≡ before_zero bytes.now }
    ensures text { IsText result.now }
{
    match text_at(bytes, 0) {
        Some(text) => text,
        None => bytes,
    }
}

//! Worked units.
use std::alloc::Global;
use std::test::Fail;

/// The header after unit_length of a unit of the 32-bit format: addresses of 8 bytes, minimum 1,
/// maximum 1, default_is_stmt 1, line_base -5, line_range 14, opcode_base 13, empty tables. Little.
const HEADER: &[u8] = b"\x05\0\x08\0\x16\0\0\0\x01\x01\x01\xfb\x0e\x0d\
    \0\x01\x01\x01\x01\0\0\0\x01\0\0\x01\0\0\0\0";

/// The unit of the header above and the bytes of a program. Little.
pub fn unit_of(alloc: Global, program: &[u8]) -> Result<Vec<u8>, Fail> {
    let len = u32::try_from(HEADER.len().saturating_add(program.len()))?;
    let mut unit = Vec::with_capacity(alloc, 4)?;
    unit.extend_from_slice(&len.to_le_bytes())?;
    unit.extend_from_slice(HEADER)?;
    unit.extend_from_slice(program)?;
    Ok(unit)
}

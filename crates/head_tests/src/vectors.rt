//! Worked headers.

use dl_head::Header;
use dl_num::Order;
use std::alloc::Global;
use test_support::header_of;

/// The header of an empty program: the 32-bit format, addresses of 8 bytes, opcode_base 13, empty
/// tables. Little.
pub const EMPTY_PROGRAM: &[u8] = b"\x1e\0\0\0\x05\0\x08\0\x16\0\0\0\x01\x01\x01\xfb\x0e\x0d\
    \0\x01\x01\x01\x01\0\0\0\x01\0\0\x01\0\0\0\0";

/// A header of the 64-bit format: the directory `/s`, and the file `a.c` in it with its MD5. Little.
pub const DWARF64_WITH_MD5: &[u8] = b"\xff\xff\xff\xff\x42\0\0\0\0\0\0\0\x05\0\x08\0\
    \x36\0\0\0\0\0\0\0\x01\x01\x01\xfb\x0e\x0d\0\x01\x01\x01\x01\0\0\0\x01\0\0\x01\
    \x01\x01\x08\x01/s\0\x03\x01\x08\x02\x0f\x05\x1e\x01a.c\0\0\
    \0\x01\x02\x03\x04\x05\x06\x07\x08\x09\x0a\x0b\x0c\x0d\x0e\x0f";

/// The sum of the file of `DWARF64_WITH_MD5`.
pub const MD5: [u8; 16] = [0, 1, 2, 3, 4, 5, 6, 7, 8, 9, 10, 11, 12, 13, 14, 15];

/// A header that claims 2^60 directories, and has one.
pub const HUGE_DIRECTORY_COUNT: &[u8] = b"\x29\0\0\0\x05\0\x08\0\x21\0\0\0\x01\x01\x01\xfb\x0e\x0d\
    \0\x01\x01\x01\x01\0\0\0\x01\0\0\x01\x01\x01\x08\
    \x80\x80\x80\x80\x80\x80\x80\x80\x10/s\0";

/// A header that claims 2,000 directories, and has one.
pub const TWO_THOUSAND_DIRECTORIES: &[u8] =
    b"\x22\0\0\0\x05\0\x08\0\x1a\0\0\0\x01\x01\x01\xfb\x0e\x0d\
    \0\x01\x01\x01\x01\0\0\0\x01\0\0\x01\x01\x01\x08\xd0\x0f/s\0";

/// A header with a directory whose values have each form, two of them as blocks with long lengths, and two files of a
/// number of three or twelve bytes and a block. Little.
pub const EACH_FORM: &[u8] = b"\x9c\0\0\0\x05\0\x08\0\x94\0\0\0\x01\x01\x01\xfb\x0e\x0d\
    \0\x01\x01\x01\x01\0\0\0\x01\0\0\x01\
    \x0e\x01\x03\x02\x04\x03\x05\x04\x06\x05\x07\x06\x08\x07\x09\x08\x0a\x09\x0b\x0a\x0e\x0b\x0f\x0c\x1d\x0d\x1e\x0e\x1f\
    \x01\x02\0ab\x03\0\0\0cde\x02\x01\x04\x03\x02\x01\x08\x07\x06\x05\x04\x03\x02\x01fg\0\
    \x81\x80\0h\0\x09\x0a\0\0\0\xff\xff\xff\xff\xff\xff\xff\xff\xff\x01\x0b\0\0\0\
    \0\x01\x02\x03\x04\x05\x06\x07\x08\x09\x0a\x0b\x0c\x0d\x0e\x0f\x0c\0\0\0\
    \x02\x01\x0f\x02\x09\x02\xe0\xa7\x12\x02ij\x85\x80\x80\x80\x80\x80\x80\x80\x80\x80\x80\0\x03klm";

/// Whether the header is the one that these bytes begin with, which are Little.
pub fn is_header_of(alloc: Global, bytes: &[u8], header: Option<&Header>) -> bool {
    header == header_of(alloc, Order::Little, bytes).as_ref()
}

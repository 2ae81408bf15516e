//! Files without an MD5 sum among others that have one. Section 6.2.4.1.

ghost use Rattle.std.specs.Prelude.{◌≡◌, option_to_list};
ghost use Rattle.dl_table.specs.Held.{value_lent};
ghost use Rattle.dl_table_rules.specs.Keeping.{counted};
ghost use Rattle.dl_table_rules.specs.Sums.{has_sum, is_sum, sums_found, without_sum};

use crate::files_named::{FileNumbers, NONE};
use crate::table_rules::in_header;
use dl_findings::{Finding, Found};
use dl_head::{Header, ValueRef};

/// The content code DW_LNCT_MD5.
const MD5: u64 = 5;

/// Whether a value is an MD5 sum. Sixteen zeros are none.
fn is_sum(value: &ValueRef<'_>) -> bool
    ensures { result ≡ is_sum (value_lent value.now) }
{
    match value {
        ValueRef::Data16(bytes) => *bytes != [0; 16],
        _ => false,
    }
}

/// Whether the file of this number has an MD5 sum.
fn has_sum(header: &Header, file: u64) -> bool
    ensures { result ≡ has_sum header.now file }
{
    let Some(entry) = header.file(file) else {
        return false;
    };
    match entry.get(MD5) {
        Some(value) => is_sum(&value),
        None => false,
    }
}

/// Which files have no MD5 sum.
fn without_sum(header: &Header) -> FileNumbers
    ensures { result ≡ counted (without_sum header.now) }
{
    let first = header.first_number();
    let mut without = NONE;
    for place in 0..header.files().len() {
        let file = first + place as u64;
        if !has_sum(header, file) {
            without = without.and(file);
        }
    }
    without
}

/// `md5-missing`, in the header of the unit at this offset
pub fn md5_missing(unit: u64, header: &Header) -> Option<Finding>
    ensures { option_to_list result ≡ sums_found unit header.now }
{
    let without = without_sum(header);
    if without.files == 0 || without.files == header.files().len() as u64 {
        return None;
    }
    Some(in_header(
        unit,
        Found::Md5Missing {
            files: without.files,
            first: without.first,
        },
    ))
}

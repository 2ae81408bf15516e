//! What the name in a header says.
ghost use Rattle.std.specs.Prelude.{◌≡◌, ◌≤◌, length, IfSome};
ghost use Rattle.dl_archive.specs.Archive.{name_field, HasName};

use crate::field::{number_of, place_of};

/// What the name in a header says.
#[derive(Debug, Clone, Copy)]
pub(crate) enum NameField {
    /// The entry is a table of symbols.
    Symbols,
    /// The entry is the table of long names, of GNU.
    LongNames,
    /// The name stands in that table, from this byte on.
    InTable(u64),
    /// The name is so many of the first bytes behind the header, as BSD has it.
    InMember(u64),
    /// The name is so many of the first bytes of the header.
    Here(usize),
}

/// What a name says, without the spaces at its end.
pub(crate) fn name_field(name: &[u8]) -> Option<NameField>
    ensures says { result ≡ name_field name.now }
    ensures within { length name.now ≤ 16 → IfSome result HasName }
{
    if name == b"/".as_slice() || name == b"/SYM64/".as_slice() {
        return Some(NameField::Symbols);
    }
    if name == b"//".as_slice() {
        return Some(NameField::LongNames);
    }
    if let Some(digits) = name.strip_prefix(b"/".as_slice()) {
        return Some(NameField::InTable(number_of(digits)?));
    }
    if let Some(digits) = name.strip_prefix(b"#1/".as_slice()) {
        return Some(NameField::InMember(number_of(digits)?));
    }
    Some(NameField::Here(place_of(name, b'/')))
}

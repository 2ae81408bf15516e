//! Abbreviation declarations. DWARF 2, 3, 4 and 5, section 7.5.3.
ghost use Rattle.std.specs.Prelude.{◌≡◌, length, IfOk};
ghost use Rattle.dl_info.specs.Front.{seen};
ghost use Rattle.dl_info.specs.Abbreviations.{attribute_at, attributes_at, attributes_in, declaration, declaration_at};
ghost use Rattle.dl_info.specs.Abbreviations.{declared_from, declared_in, is_end, HasEnd};

use crate::form::IMPLICIT_CONST;
use crate::front::{FieldFault, bytes_at, bytes_from, leb_at, uleb_at};

/// What an abbreviation says of an attribute.
#[derive(Clone, Copy)]
pub(crate) struct Attribute {
    /// Its name (DW_AT).
    pub name: u64,
    /// The number of its value's form (DW_FORM).
    pub form: u64,
}

impl Attribute {
    /// Whether it is the pair that ends the attributes.
    pub(crate) fn is_end(self) -> bool
        ensures { result ≡ is_end self }
    {
        self.name == 0 && self.form == 0
    }
}

/// An abbreviation declaration.
#[derive(Clone, Copy)]
pub(crate) struct Declaration<'a> {
    /// The code that entries name it by.
    pub code: u64,
    /// The bytes from the first of its attributes on.
    pub attributes: &'a [u8],
}

/// The next attribute of an abbreviation, and what follows it.
#[tactic(auto, unfolding(crate::specs::Abbreviations::attribute_at))]
pub(crate) fn attribute_at(bytes: &[u8]) -> Result<(Attribute, &[u8]), FieldFault>
    ensures { seen (λ x. (x.0, x.1.now)) result ≡ attribute_at bytes.entry.now }
{
    let (name, rest) = uleb_at(bytes)?;
    let (form, rest) = uleb_at(rest)?;
    if form != IMPLICIT_CONST {
        return Ok((Attribute { name, form }, rest));
    }
    let (_, rest) = leb_at(rest)?;
    Ok((Attribute { name, form }, rest))
}

/// What follows the attributes of an abbreviation and the pair that ends them.
fn after_attributes(bytes: &[u8]) -> Result<&[u8], FieldFault>
    ensures { seen (λ rest. rest.now) result
        ≡ seen (λ x. x.1) (attributes_at (length bytes.entry.now) bytes.entry.now) }
{
    let mut rest = bytes;
    // Each has a byte at least.
    for _ in 0..bytes.len() {
        let (attribute, after) = attribute_at(rest)?;
        if attribute.is_end() {
            return Ok(after);
        }
        rest = after;
    }
    Err(FieldFault::Short(1))
}

/// The next abbreviation, which isn't the end of them, and what follows it.
#[tactic(auto, unfolding(crate::specs::Abbreviations::declaration_at))]
pub(crate) fn declaration_at(bytes: &[u8]) -> Result<(Declaration<'_>, &[u8]), FieldFault>
    ensures declaration { seen (λ x. (declaration x.0, x.1.now)) result ≡ declaration_at bytes.entry.now }
    ensures whole { IfOk result (λ x. HasEnd x.0.attributes.now) }
{
    let (code, rest) = uleb_at(bytes)?;
    if code == 0 {
        return Err(FieldFault::Damaged);
    }
    let (_, rest) = uleb_at(rest)?;
    let (_, attributes) = bytes_at(1, rest)?;
    let rest = after_attributes(attributes)?;
    Ok((Declaration { code, attributes }, rest))
}

/// The bytes of the attributes of the first abbreviation with a code; fails where there is none.
fn declared_in(code: u64, table: &[u8]) -> Result<&[u8], FieldFault>
    ensures attributes { seen (λ bytes. attributes_in bytes.now) result
        ≡ declared_in (length table.entry.now) code table.entry.now }
    ensures whole { IfOk result (λ bytes. HasEnd bytes.now) }
{
    let mut rest = table;
    // Each has a byte at least.
    for _ in 0..table.len() {
        let (declaration, after) = declaration_at(rest)?;
        if declaration.code == code {
            return Ok(declaration.attributes);
        }
        rest = after;
    }
    Err(FieldFault::Short(1))
}

/// The bytes of the attributes of the first abbreviation with a code, of those from an offset of the section on.
pub(crate) fn declared_from(offset: u64, code: u64, section: &[u8]) -> Result<&[u8], FieldFault>
    ensures attributes { seen (λ bytes. attributes_in bytes.now) result ≡ declared_from offset code section.entry.now }
    ensures whole { IfOk result (λ bytes. HasEnd bytes.now) }
{
    match declared_in(code, bytes_from(offset, section)) {
        Ok(attributes) => Ok(attributes),
        Err(_) => Err(FieldFault::Damaged),
    }
}

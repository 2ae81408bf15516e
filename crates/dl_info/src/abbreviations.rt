//! The abbreviations of a section, of which those of one table may be kept. DWARF 2, 3, 4 and 5, section 7.5.3.
ghost use Rattle.std.specs.Prelude.{◌≡◌, ◌++◌, IfOk, OnOk, ℕ, List, drop};
ghost use Rattle.std.proofs.Props.{props};
ghost use Rattle.dl_info.specs.Abbreviations.{attributes_in, declaration, declared_from, HasEnd};
ghost use Rattle.dl_info.specs.Kept.{Ends, IsRight, IsTable, has_bytes, kept_in, kept_more, StandsFor, with_bytes};

use crate::abbreviation::{Attribute, Declaration, attribute_at, declaration_at, declared_from};
use crate::front::{FieldFault, bytes_from};
use dl_memory::NoMemory;
use std::alloc::Global;
use std::collections::BTreeMap;

/// The bytes of `.debug_abbrev`.
///
/// Where units one after the other name the same table, it is read once, and its abbreviations are kept by their codes,
/// without the attributes whose values have no bytes. So many units together take no longer for an abbreviation that stands far
/// behind, or has many attributes. Where memory is refused for that, each is read where it stands.
#[derive(Drop)]
pub struct Abbreviations<'a> {
    alloc: Global,
    section: &'a [u8],
    last: Last,
    ghost right: { IsRight section.now last } by { Prim.hlevel props },
}

/// Which table was looked into last.
#[derive(Drop)]
pub(crate) enum Last {
    /// None was.
    Nothing,
    /// The one at this offset.
    Seen(u64),
    /// The one at this offset, which is kept.
    Kept(u64, Table),
}

/// The attributes that have bytes of the first abbreviation with each code.
#[derive(Drop)]
pub(crate) struct Table {
    attributes: BTreeMap<u64, Vec<Attribute>>,
}

/// The attributes of an abbreviation.
#[derive(Clone, Copy)]
pub(crate) enum Attributes<'t> {
    /// The bytes that declare them.
    Declared(&'t [u8]),
    /// Those whose values have bytes.
    Kept(&'t [Attribute]),
}

impl Attribute {
    /// Whether a value of its form may have bytes: it is neither flag_present nor implicit_const.
    fn has_bytes(self) -> bool
        ensures { result ≡ has_bytes self }
    {
        !matches!(self.form, 0x19 | 0x21)
    }
}

/// The attributes of an abbreviation whose values have bytes.
fn with_bytes(alloc: Global, declared: &[u8]) -> Result<Vec<Attribute>, NoMemory>
    requires { HasEnd declared.now }
    ensures { IfOk result (λ kept. kept.items ≡ with_bytes (attributes_in declared.now)) }
{
    let mut kept = Vec::new(alloc);
    let mut left = declared;
    // Each attribute has a byte at least.
    for _ in 0..declared.len() {
        let Ok((attribute, others)) = attribute_at(left) else {
            return Ok(kept);
        };
        if attribute.is_end() {
            return Ok(kept);
        }
        if attribute.has_bytes() && kept.push(attribute).is_err() {
            return Err(NoMemory);
        }
        left = others;
    }
    Ok(kept)
}

impl Table {
    /// The table that these bytes begin with, as far as its declarations can be read.
    fn read(alloc: Global, bytes: &[u8]) -> Result<Table, NoMemory>
        ensures { IfOk result (λ table. IsTable table bytes.now) }
    {
        let mut table = Table {
            attributes: BTreeMap::new(alloc),
        };
        let mut rest = bytes;
        // Each has a byte at least.
        for _ in 0..bytes.len() {
            let Ok((declaration, after)) = declaration_at(rest) else {
                return Ok(table);
            };
            table.keep(alloc, declaration)?;
            rest = after;
        }
        Ok(table)
    }

    /// Keeps an abbreviation, where none with its code is kept.
    fn keep(&mut self, alloc: Global, declared: Declaration<'_>) -> Result<(), NoMemory>
        requires { HasEnd declared.attributes.now }
        ensures { OnOk result ((code : ℕ) → kept_in self.new code
            ≡ kept_more (kept_in self.old code) (declaration declared.entry) code) }
    {
        if self.attributes.contains_key(&declared.code) {
            return Ok(());
        }
        let attributes = with_bytes(alloc, declared.attributes)?;
        match self.attributes.insert(declared.code, attributes) {
            Ok(_) => Ok(()),
            Err(_) => Err(NoMemory),
        }
    }

    /// The attributes that are kept for a code; fails where there are none.
    fn find(&self, offset: u64, code: u64, section: &[u8]) -> Result<Attributes<'_>, FieldFault>
        requires { IsTable self.now (drop offset section.now) }
        ensures attributes { StandsFor result (declared_from offset code section.now) }
        ensures whole { IfOk result Ends }
    {
        match self.attributes.get(&code) {
            Some(attributes) => Ok(Attributes::Kept(attributes.as_slice())),
            None => Err(FieldFault::Damaged),
        }
    }
}

impl<'a> Abbreviations<'a> {
    ghost use Rattle.dl_info.specs.Section.{section_of};

    /// The bytes of a section. It takes no memory.
    pub fn new(alloc: Global, section: &'a [u8]) -> Abbreviations<'a>
        ensures { section_of result ≡ section.entry.now }
    {
        Abbreviations {
            alloc,
            section,
            last: Last::Nothing,
        }
    }

    /// Turns to the table at an offset, which is kept where it was looked into last.
    pub(crate) fn turn_to(&mut self, offset: u64)
        ensures { section_of self.new ≡ section_of self.old }
    {
        let is_again = match &self.last {
            Last::Nothing => false,
            Last::Seen(last) => *last == offset,
            Last::Kept(last, _) if *last == offset => return,
            Last::Kept(..) => false,
        };
        self.last = if is_again {
            self.kept(offset)
        } else {
            Last::Seen(offset)
        };
    }

    /// The table at an offset, which is kept if there is memory for it.
    fn kept(&self, offset: u64) -> Last
        ensures { IsRight (section_of self.now) result }
    {
        match Table::read(self.alloc, bytes_from(offset, self.section)) {
            Ok(table) => Last::Kept(offset, table),
            Err(NoMemory) => Last::Seen(offset),
        }
    }

    /// The attributes of the first abbreviation with a code, of the table at an offset.
    pub(crate) fn find(&self, offset: u64, code: u64) -> Result<Attributes<'_>, FieldFault>
        ensures attributes { StandsFor result (declared_from offset code (section_of self.now)) }
        ensures whole { IfOk result Ends }
    {
        match &self.last {
            Last::Kept(last, table) if *last == offset => table.find(offset, code, self.section),
            _ => Ok(Attributes::Declared(declared_from(offset, code, self.section)?)),
        }
    }
}

//! The sections of the names that are looked for, found in one pass over the section headers.
ghost use Rattle.std.specs.Prelude.{◌≡◌, ◌+◌, ◌-◌, ◌<◌, ◌≤◌, ℕ, None, replicate, false};
ghost use Rattle.std.specs.Prelude.{IsFalse, IfOk, IfErr, OnOk};
ghost use Rattle.dl_elf.specs.Source.{ForBytes};
ghost use Rattle.dl_elf.specs.Window.{Shows, Has, shown};
ghost use Rattle.dl_elf.specs.Slots.{begins_with_name, name_front, noted, slot_of};
ghost use Rattle.dl_elf.specs.SectionsHeld.{slots, forward_of};
ghost use Rattle.dl_elf.specs.Found.{AreFound};
ghost use Rattle.dl_elf.specs.Forward.{NoneForward, passed};
ghost use Rattle.dl_elf.specs.SlotsFound.{AreFoundBefore};

use crate::file::{Elf, section_at};
use crate::header::{Class, FileHeader};
use crate::name::SectionName;
use crate::section::{NOBITS, SectionHeader};
use crate::source::{ReadAt, shorter};
use crate::window::Window;
use dl_num::Order;
use std::io;

/// A section that was found by its name.
#[derive(Clone, Copy)]
pub struct NamedSection {
    pub name: SectionName,
    /// Its number; that of the first section is 0.
    pub number: u64,
    pub header: SectionHeader,
}

/// How many names there are.
const NAMES: usize = SectionName::ALL.len();

/// How many bytes the longest name has with its zero byte.
const LONGEST: usize = 20;

/// The sections of the names, each where it was found.
#[derive(Clone, Copy)]
pub struct Sections {
    /// In the order of `SectionName::ALL`.
    found: [Option<NamedSection>; NAMES],
    /// The number of the first section that may have relocations of a later one.
    forward: u64,
}

impl Sections {
    ghost use Rattle.dl_elf.specs.Slots.{noted, slot_at, name_at, slot_of};
    ghost use Rattle.dl_elf.specs.SectionsHeld.{slots, forward_of};

    /// None found yet.
    fn new() -> Sections
        ensures slots { slots result ≡ replicate 16 None }
        ensures forward { forward_of result ≡ 1 }
    {
        Sections {
            found: [None; NAMES],
            forward: 1,
        }
    }

    /// The section of a name.
    pub fn get(&self, name: SectionName) -> Option<NamedSection>
        ensures { result ≡ slot_of (slots self.now) name }
    {
        self.found[name.index()]
    }

    /// The number of a section before which none has relocations of section `number`.
    pub fn relocations_from(&self, number: u64) -> u64
        ensures from { 1 ≤ result }
        ensures most { result - 1 ≤ forward_of self.now - 1 }
        ensures before { (k : ℕ) → 1 ≤ k → k < result → k < number }
    {
        self.forward.min(number).max(1)
    }

    /// Goes past section `number`, where it is the next one and has no relocations of a later one.
    fn pass(&mut self, number: u64, header: &SectionHeader)
        requires { number < 18446744073709551615 }
        ensures slots { slots self.new ≡ slots self.old }
        ensures forward { forward_of self.new ≡ passed number header.now (forward_of self.old) }
    {
        if self.forward == number && !header.relocates_later(number) {
            self.forward = number + 1;
        }
    }

    /// Keeps the section under each name that `bytes` begin with and that has no section yet.
    #[inline(always)]
    fn note(&mut self, number: u64, header: &SectionHeader, bytes: &[u8])
        ensures slots { (k : ℕ) → k < 16 → slot_at (slots self.new) k
            ≡ noted bytes.now number header.now (name_at k) (slot_at (slots self.old) k) }
        ensures forward { forward_of self.new ≡ forward_of self.old }
    {
        if may_be_looked_for(bytes) {
            self.note_each(number, *header, bytes);
        }
    }

    /// The same, name by name.
    // Apart from the loop over all sections, few of which come here, so that it needs no header in memory.
    #[inline(never)]
    fn note_each(&mut self, number: u64, header: SectionHeader, bytes: &[u8])
        ensures slots { (k : ℕ) → k < 16 → slot_at (slots self.new) k
            ≡ noted bytes.now number header (name_at k) (slot_at (slots self.old) k) }
        ensures forward { forward_of self.new ≡ forward_of self.old }
    {
        for (index, name) in SectionName::ALL.iter().enumerate() {
            self.found[index] = noted(bytes, number, &header, *name, self.found[index]);
        }
    }
}

/// Whether one of the names may begin so: each has a dot first, and d, z or n after it.
fn may_be_looked_for(bytes: &[u8]) -> bool
    ensures { IsFalse result → (name : SectionName) → begins_with_name bytes.now name ≡ false }
{
    1 < bytes.len() && bytes[0] == b'.' && matches!(bytes[1], b'd' | b'z' | b'n')
}

/// What is kept under a name after this section, whose name begins as `bytes` do.
fn noted(
    bytes: &[u8],
    number: u64,
    header: &SectionHeader,
    name: SectionName,
    kept: Option<NamedSection>,
) -> Option<NamedSection>
    ensures { result ≡ noted bytes.now number header.now name kept }
{
    if kept.is_some() || !begins_with_name(bytes, name) {
        return kept;
    }
    Some(NamedSection {
        name,
        number,
        header: *header,
    })
}

/// Whether the bytes begin with the name and a zero byte.
fn begins_with_name(bytes: &[u8], name: SectionName) -> bool
    ensures { result ≡ begins_with_name bytes.now name }
{
    let text = name.text().as_bytes();
    text.len() < bytes.len() && &bytes[..text.len()] == text && bytes[text.len()] == 0
}

/// The bytes of the name table from a section's name on, as many as there are of `LONGEST`: where they stand in the
/// file, and how many the window shows.
#[inline(always)]
fn show_name<S: ReadAt>(
    source: &S,
    window: &mut Window,
    elf: &Elf,
    section: &SectionHeader,
) -> io::Result<(u64, usize)>
    requires shows { Shows (S.all_bytes source.now) window.old }
    ensures shows { Shows (S.all_bytes source.now) window.new }
    ensures has { IfOk result (λ name. Has window.new name.0 name.1) }
    ensures name { ForBytes (S.all_bytes source.now) (λ f. IfOk result (λ name.
        shown window.new name.0 name.1 ≡ name_front elf.now f section.now 20)) }
    ensures fails { IfErr result (S.fails_with source.now) }
{
    let left = elf.names.size.saturating_sub(section.name_offset);
    let at = elf.names.offset.saturating_add(section.name_offset);
    let len = window.show(source, at, shorter(LONGEST, left))?;
    Ok((at, len))
}

/// Looks at section `number`, and keeps it where it is the first of one of the names.
#[inline(always)]
fn look_at<S: ReadAt>(
    source: &S,
    headers: &mut Window,
    names: &mut Window,
    elf: &Elf,
    number: u64,
    sections: &mut Sections,
) -> io::Result<()>
    requires headers { Shows (S.all_bytes source.now) headers.old }
    requires names { Shows (S.all_bytes source.now) names.old }
    requires from { 1 ≤ number }
    requires within { number < 18446744073709551615 }
    ensures headers { Shows (S.all_bytes source.now) headers.new }
    ensures names { Shows (S.all_bytes source.now) names.new }
    ensures found { ForBytes (S.all_bytes source.now) (λ f. OnOk result
        (AreFoundBefore elf.now f number (slots sections.old)
        → AreFoundBefore elf.now f (number + 1) (slots sections.new))) }
    ensures forward { ForBytes (S.all_bytes source.now) (λ f. OnOk result
        (NoneForward elf.now f (forward_of sections.old) → NoneForward elf.now f (forward_of sections.new))) }
    ensures most { OnOk result (forward_of sections.old ≤ number → forward_of sections.new ≤ number + 1) }
    ensures fails { IfErr result (S.fails_with source.now) }
{
    let header = section_at(source, headers, &elf.header, number)?;
    let Some(header) = header else {
        return Ok(());
    };
    sections.pass(number, &header);
    if header.section_type == NOBITS {
        return Ok(());
    }
    let (at, len) = show_name(source, names, elf, &header)?;
    sections.note(number, &header, names.shown(at, len));
    Ok(())
}

/// The same as [`find_sections`]. It is compiled into its caller for each call, so where a call has a constant class and
/// order, they aren't looked at for each header.
#[inline(always)]
fn find_among<S: ReadAt>(source: &S, elf: &Elf) -> io::Result<Sections>
    ensures found { ForBytes (S.all_bytes source.now) (λ f.
        IfOk result (λ s. AreFound elf.now f (slot_of (slots s)))) }
    ensures forward { ForBytes (S.all_bytes source.now) (λ f.
        IfOk result (λ s. NoneForward elf.now f (forward_of s))) }
    ensures within { IfOk result (λ s. forward_of s - 1 ≤ elf.now.count - 1) }
    ensures fails { IfErr result (S.fails_with source.now) }
{
    let mut headers = Window::new();
    let mut names = Window::new();
    let mut sections = Sections::new();
    for number in 1..elf.count {
        look_at(source, &mut headers, &mut names, elf, number, &mut sections)?;
    }
    Ok(sections)
}

/// Finds the sections of the names, and from where on sections may have relocations of later ones, in one pass over
/// the section headers.
pub fn find_sections<S: ReadAt>(source: &S, elf: &Elf) -> io::Result<Sections>
    ensures found { ForBytes (S.all_bytes source.now) (λ f.
        IfOk result (λ s. AreFound elf.now f (slot_of (slots s)))) }
    ensures forward { ForBytes (S.all_bytes source.now) (λ f.
        IfOk result (λ s. NoneForward elf.now f (forward_of s))) }
    ensures within { IfOk result (λ s. forward_of s - 1 ≤ elf.now.count - 1) }
    ensures fails { IfErr result (S.fails_with source.now) }
{
    match (elf.header.class, elf.header.order) {
        (Class::Bits64, Order::Little) => {
            let header = FileHeader {
                class: Class::Bits64,
                order: Order::Little,
                ..elf.header
            };
            find_among(source, &Elf { header, ..*elf })
        }
        _ => find_among(source, elf),
    }
}

//! The tables of a header: those of version 5, section 6.2.4.1, and those of versions 2 to 4.

ghost use Rattle.dl_memory.specs.Refusals.{SystemRefuses, WasRefused};
ghost use Rattle.std.specs.Prelude.{◌≡◌, ◌≤◌, length, take};
ghost use Rattle.dl_head.specs.declared.reader.Phase.TheVariants as phase;

use crate::reader::{HeadReader, Phase};
use dl_field::FieldStep;

impl HeadReader {
    ghost use Rattle.dl_field.specs.declared.field_step.FieldStep.TheVariants as byte_makes;
    ghost use Rattle.dl_head.specs.Place.{SameCounts};
    ghost use Rattle.dl_head.specs.Whole.{Pushed, TakesValues};

    /// Takes values of the current table that the bytes begin with, as long as they are of common kinds, and the
    /// table goes on after them: how many bytes they have. 0 outside the tables.
    #[inline(always)]
    pub(super) fn table_values(&mut self, bytes: &[u8]) -> usize
        ensures within { result ≤ length bytes.now }
        ensures counts { SameCounts self.old self.new }
        ensures takes { TakesValues self.old (take result bytes.now) self.new }
    {
        match self.phase {
            Phase::Directories | Phase::Files => {
                self.table
                    .whole_values(self.dialect.order, self.params.format, bytes)
            }
            Phase::OlderDirectories | Phase::OlderFiles => self.list.whole_values(bytes),
            _ => 0,
        }
    }

    pub(super) fn directories(&mut self, bytes: &[u8]) -> (usize, FieldStep)
        requires phase { self.old.phase ≡ phase.Directories }
        requires some { 1 ≤ length bytes.now }
        ensures pushed { Pushed self.old bytes.now result.0 result.1 self.new }
        ensures refused { result.1 ≡ byte_makes.NoMemory → WasRefused SystemRefuses }
    {
        let format = self.params.format;
        let next = self.table.push_front(self.dialect.order, format, bytes);
        if let Some(table) = self.table.take(self.alloc, format) {
            self.directories = table;
            self.phase = Phase::Files;
        }
        next
    }

    pub(super) fn files(&mut self, bytes: &[u8]) -> (usize, FieldStep)
        requires phase { self.old.phase ≡ phase.Files }
        requires some { 1 ≤ length bytes.now }
        ensures pushed { Pushed self.old bytes.now result.0 result.1 self.new }
        ensures refused { result.1 ≡ byte_makes.NoMemory → WasRefused SystemRefuses }
    {
        let format = self.params.format;
        let next = self.table.push_front(self.dialect.order, format, bytes);
        if let Some(table) = self.table.take(self.alloc, format) {
            self.files = table;
            self.phase = Phase::Padding;
        }
        next
    }

    pub(super) fn older_directories(&mut self, bytes: &[u8]) -> (usize, FieldStep)
        requires phase { self.old.phase ≡ phase.OlderDirectories }
        requires some { 1 ≤ length bytes.now }
        ensures pushed { Pushed self.old bytes.now result.0 result.1 self.new }
        ensures refused { result.1 ≡ byte_makes.NoMemory → WasRefused SystemRefuses }
    {
        let next = self.list.push_front(bytes);
        if let Some(table) = self.list.take(self.alloc, self.params.format) {
            self.directories = table;
            self.phase = Phase::OlderFiles;
        }
        next
    }

    pub(super) fn older_files(&mut self, bytes: &[u8]) -> (usize, FieldStep)
        requires phase { self.old.phase ≡ phase.OlderFiles }
        requires some { 1 ≤ length bytes.now }
        ensures pushed { Pushed self.old bytes.now result.0 result.1 self.new }
        ensures refused { result.1 ≡ byte_makes.NoMemory → WasRefused SystemRefuses }
    {
        let next = self.list.push_front(bytes);
        if let Some(table) = self.list.take(self.alloc, self.params.format) {
            self.files = table;
            self.phase = Phase::Padding;
        }
        next
    }
}

//! Units of other versions, which aren't read.

ghost use Rattle.dl_input.specs.Failing.{Blames};
ghost use Rattle.std.specs.Prelude.{◌≡◌, ◌≤◌, ◌∷◌, ◌++◌, [], ℕ, List, Some};
ghost use Rattle.std.specs.Io.KnownBytes.{Consumes};
ghost use Rattle.dl_sections.specs.PassedOver.{PassesOver};
ghost use Rattle.dl_sections.specs.PassingOver.{IsPassedOver, Spans};

use crate::fault::RunFault;
use crate::options::{Options, SECTION_LIMIT};
use crate::section::{Visitor, read_units};
use dl_head::{Header, HeaderLengths};
use dl_input::Source;
use dl_output::Destination;
use dl_print::WriteFault;
use dl_rows::{Flow, Operation, Row};
use std::alloc::Global;
use std::io;

/// Units of other versions than 5, of which there is one or more. Section 6.2.4.
#[derive(Clone, Copy, Debug, PartialEq, Eq)]
pub struct PassedOver {
    /// How many there are.
    pub units: u64,
    /// Their least version and their greatest, which may be the same.
    pub least: u16,
    pub greatest: u16,
}

/// The least of some versions and the greatest.
#[derive(Clone, Copy)]
struct VersionRange {
    least: u16,
    greatest: u16,
}

impl VersionRange {
    /// That of one version.
    fn of(version: u16) -> VersionRange
        ensures { Spans (version ∷ []) (Some result) }
    {
        VersionRange {
            least: version,
            greatest: version,
        }
    }

    /// That of one version more.
    fn with(self, version: u16) -> VersionRange
        ensures { (versions : List ℕ) → Spans versions (Some self) → Spans (versions ++ version ∷ []) (Some result) }
    {
        VersionRange {
            least: version.min(self.least),
            greatest: version.max(self.greatest),
        }
    }
}

/// The versions of the units that were passed over so far. Prints nothing.
#[derive(Drop)]
struct OtherVersions {
    range: Option<VersionRange>,
}

impl OtherVersions {
    /// So many units of these versions.
    fn passed_over(&self, units: u64) -> Option<PassedOver>
        ensures { IsPassedOver units self.now.range result }
    {
        let range = self.range?;
        Some(PassedOver {
            units,
            least: range.least,
            greatest: range.greatest,
        })
    }
}

impl<W: Destination> Visitor<W> for OtherVersions {
    ghost use Rattle.dl_sections.specs.PassingOver.{version_story};

    ghost story = { version_story };

    fn header(
        &mut self,
        _output: &mut W,
        _offset: u64,
        _lengths: HeaderLengths,
        _header: &Header,
    ) -> Result<(), RunFault> {
        Ok(())
    }

    fn foreign(&mut self, _output: &mut W, _offset: u64, version: u16) -> Result<(), RunFault> {
        self.range = Some(match self.range {
            Some(range) => range.with(version),
            None => VersionRange::of(version),
        });
        Ok(())
    }

    #[inline(always)]
    fn bytes(&mut self, _output: &mut W, _bytes: &[u8]) -> Result<(), WriteFault> {
        Ok(())
    }

    #[inline(always)]
    fn operation(
        &mut self,
        _output: &mut W,
        _header: &Header,
        _operation: Operation,
    ) -> Result<(), WriteFault> {
        Ok(())
    }

    #[inline(always)]
    fn row(&mut self, _output: &mut W, _header: &Header, _row: &Row) -> Result<(), RunFault> {
        Ok(())
    }

    fn unterminated(&mut self, _output: &mut W) -> Result<(), RunFault> {
        Ok(())
    }

    fn end(&mut self, _output: &mut W, _header: Option<Header>) -> Result<Flow, RunFault> {
        Ok(Flow::On)
    }

    fn flush(&mut self, _output: &mut W) -> Result<(), RunFault> {
        Ok(())
    }
}

/// Reads all units of the input, and answers how many of them are of other versions than 5, with their
/// least version and their greatest; None where all are of version 5.
///
/// The faults are those of `check`, but for failed writes.
pub fn passed_over<R: Source>(
    alloc: Global,
    input: &mut R,
    options: &Options<'_>,
) -> Result<Option<PassedOver>, RunFault>
    requires { options.now.limit ≤ SECTION_LIMIT }
    ensures ran { (bs : List ℕ) × Consumes (R.remaining input.old) (R.remaining input.new) bs
        × PassesOver options.now.dialect options.now.limit bs (R.remaining input.new) result }
    ensures blames { Blames R.follows R.fails input.old input.new
        (result ≡ Err RunFault.Read) }
{
    let mut versions = OtherVersions { range: None };
    let summary = read_units(alloc, input, &mut io::sink(), options, &mut versions)?;
    Ok(versions.passed_over(summary.skipped))
}

//! What is told of a section once it is read to its end. Section 6.2.2.

ghost use Rattle.std.specs.Prelude.{◌≡◌, ◌+◌, ◌*◌, [], IfOk, IfSome, List, OnErr, flat_map, length, true};
ghost use Rattle.dl_print.specs.Output.{BlamesWriter as BlamesPrinted};
ghost use Rattle.dl_sections.specs.Blaming.{BlamesWriter};
ghost use Rattle.dl_memory.specs.Refusals.{IsRefused};
ghost use Rattle.dl_sequence_rules.specs.Keeping.{IsAddressCoverage, IsCoverage};
ghost use Rattle.dl_sequence_rules.specs.NoCode.{no_code_found};
ghost use Rattle.dl_sequence_rules.specs.SequenceFindings.{overlaps_after, section_found};
ghost use Rattle.dl_sequence_rules.specs.declared.ended.Ended as kept;
ghost use Rattle.dl_lint.specs.Telling.{Tells, TellsAll, TellsSection};
ghost use Rattle.dl_lint.specs.Keeping.{AreCovered, IsCrowded};
ghost use Rattle.dl_lint.specs.Wanting.{keeps_sequences};

use crate::report::Report;
use crate::sequences_seen::{SequencesSeen, keeps_sequences};
use dl_findings::Rule;
use dl_memory::{Memory, NoMemory};
use dl_output::Destination;
use dl_print::WriteFault;
use dl_sections::RunFault;
use dl_sequence_rules::{AddressCoverage, Coverage, Ended, crowded, no_code};

/// The sequences that share places with others, and what is looked for among them by.
#[derive(Drop)]
struct Crowded {
    sequences: Vec<Ended>,
    coverage: Coverage,
}

/// What the rules of sequences look for sequences by, each where it is chosen.
#[derive(Drop)]
struct Covered {
    /// That of `overlap`.
    places: Option<Crowded>,
    /// That of `no-code`, where there are more than a few ranges of code.
    addresses: Option<AddressCoverage>,
}

/// For so few ranges of code each sequence is looked at by itself, which takes less time than a coverage.
const FEW_RANGES: usize = 16;

impl Report<'_> {
    /// Tells what is found of a section as a whole, of which these sequences were kept, and lets go out what was printed.
    pub fn tell_section<M: Memory, W: Destination>(
        &mut self,
        memory: &M,
        output: &mut W,
        sequences: &SequencesSeen,
    ) -> Result<(), RunFault>
        ensures told { (ended : List kept.Ended)
            → (keeps_sequences self.old.question.now ≡ true → sequences.now.ended.items ≡ ended)
            → TellsSection (M.refuses memory.now) (W.contents output.old) (W.contents output.new) self.old self.new ended result }
        ensures blames_writer { BlamesWriter W.fails result }
    {
        if !keeps_sequences(self.question) {
            return Ok(());
        }
        let ended = sequences.ended();
        match self.covered(memory, ended) {
            Ok(covered) => Ok(self.tell_covered(output, ended, &covered)?),
            Err(NoMemory) => Err(RunFault::NoMemory),
        }
    }

    /// What the rules that are chosen look for sequences by.
    fn covered<M: Memory>(&self, memory: &M, sequences: &[Ended]) -> Result<Covered, NoMemory>
        ensures covered { IfOk result (λ covered. AreCovered self.now.question.now covered sequences.now) }
        ensures refused { OnErr result (IsRefused (M.refuses memory.now) (2 * length sequences.now + 1)) }
    {
        let rules = &self.question.rules;
        let places = if rules.contains(Rule::Overlap) {
            Some(crowded_of(memory, sequences)?)
        } else {
            None
        };
        let addresses = if rules.contains(Rule::NoCode) && self.question.ranges.len() > FEW_RANGES {
            Some(AddressCoverage::of(memory, sequences)?)
        } else {
            None
        };
        Ok(Covered { places, addresses })
    }

    /// Tells what is found of these sequences, and lets go out what was printed.
    fn tell_covered<W: Destination>(
        &mut self,
        output: &mut W,
        sequences: &[Ended],
        covered: &Covered,
    ) -> Result<(), WriteFault>
        ensures told { AreCovered self.old.question.now covered.now sequences.now
            → TellsAll (W.contents output.old) (W.contents output.new) self.old self.new
            (section_found 0 self.old.question.now.ranges.now sequences.now) result }
        ensures blames { BlamesPrinted W.fails result }
    {
        self.tell_places(output, covered)?;
        self.tell_addresses(output, sequences, covered)?;
        self.printer.flush(output)
    }

    /// `overlap`, where it is chosen.
    fn tell_places<W: Destination>(
        &mut self,
        output: &mut W,
        covered: &Covered,
    ) -> Result<(), WriteFault>
        ensures told { (sequences : List kept.Ended) → AreCovered self.old.question.now covered.now sequences
            → Tells (W.contents output.old) (W.contents output.new) self.old self.new
            (overlaps_after [] sequences) result }
        ensures blames { BlamesPrinted W.fails result }
    {
        match &covered.places {
            Some(crowded) => {
                self.tell_overlaps(output, crowded.sequences.as_slice(), &crowded.coverage)
            }
            None => Ok(()),
        }
    }

    /// `no-code`, where it is chosen.
    fn tell_addresses<W: Destination>(
        &mut self,
        output: &mut W,
        sequences: &[Ended],
        covered: &Covered,
    ) -> Result<(), WriteFault>
        ensures told { AreCovered self.old.question.now covered.now sequences.now
            → Tells (W.contents output.old) (W.contents output.new) self.old self.new
            (flat_map (no_code_found 0 sequences.now) self.old.question.now.ranges.now) result }
        ensures blames { BlamesPrinted W.fails result }
    {
        if !self.question.rules.contains(Rule::NoCode) {
            return Ok(());
        }
        self.tell_ranges(output, sequences, &covered.addresses)
    }

    /// Tells which of these sequences cover places that others before them cover.
    fn tell_overlaps<W: Destination>(
        &mut self,
        output: &mut W,
        sequences: &[Ended],
        coverage: &Coverage,
    ) -> Result<(), WriteFault>
        ensures told { IsCoverage coverage.now sequences.now
            → Tells (W.contents output.old) (W.contents output.new) self.old self.new
            (overlaps_after [] sequences.now) result }
        ensures blames { BlamesPrinted W.fails result }
    {
        let count = sequences.len();
        let mut place = 0;
        while place < count {
            self.tell_any(output, coverage.overlap(sequences, place))?;
            place += 1;
        }
        Ok(())
    }

    /// Tells which ranges of code none of these sequences covers.
    fn tell_ranges<W: Destination>(
        &mut self,
        output: &mut W,
        sequences: &[Ended],
        coverage: &Option<AddressCoverage>,
    ) -> Result<(), WriteFault>
        ensures told { IfSome coverage.now (λ c. IsAddressCoverage c sequences.now)
            → Tells (W.contents output.old) (W.contents output.new) self.old self.new
            (flat_map (no_code_found 0 sequences.now) self.old.question.now.ranges.now) result }
        ensures blames { BlamesPrinted W.fails result }
    {
        let ranges = self.question.ranges;
        for range in ranges {
            self.tell_any(output, no_code(coverage, sequences, *range, 0))?;
        }
        Ok(())
    }
}

/// Those of these sequences that share places with others.
fn crowded_of<M: Memory>(memory: &M, sequences: &[Ended]) -> Result<Crowded, NoMemory>
    ensures crowded { IfOk result (λ crowded. IsCrowded crowded sequences.now) }
    ensures refused { OnErr result (IsRefused (M.refuses memory.now) (2 * length sequences.now + 1)) }
{
    let sequences = crowded(memory, sequences)?;
    let coverage = Coverage::of(memory, sequences.as_slice())?;
    Ok(Crowded {
        sequences,
        coverage,
    })
}

//! What is told of a section as a whole, behind its units.

ghost use Rattle.std.specs.Prelude.{◌≡◌, ◌≢◌, ◌≤◌, ◌⊎◌, ℕ, List, [], Option, Result, IfOk, None};
ghost use Rattle.std.specs.Io.KnownBytes.{Appends, Consumes};
ghost use Rattle.dl_input.specs.Failing.{Blames};
ghost use Rattle.dl_sections.specs.Blaming.{BlamesWriter, NeverBlames};
ghost use Rattle.dl_lint.specs.Finishing.{FinishesAround, WantedNoMore};

use crate::question::LintedAround;
use dl_findings::FindingCounts;
use dl_input::Source;
use dl_output::Destination;
use dl_sections::{AroundDamage, Options, RunFault, SECTION_LIMIT, read_units_around};
use std::alloc::Global;

/// A visitor that tells findings of a section as a whole too.
pub trait Finishing<W: Destination>: AroundDamage<W> {
    ghost use Rattle.dl_findings.specs.declared.counts.FindingCounts.{FindingCounts as Counts};
    ghost use Rattle.dl_sections.specs.declared.fault.RunFault.{RunFault as Fault};

    /// What is said of the end of a section: of the visitor and of what the writer holds, before it and behind it, and of the answer.
    ghost ends: { Self → Self → Option (List ℕ) → Option (List ℕ) → Result Counts Fault → Type 0 };

    /// Tells what is found of the section as a whole, which is read to its end, and answers how many findings were told.
    fn finish(&mut self, output: &mut W) -> Result<FindingCounts, RunFault>
        ensures told { ends self.old self.new (W.contents output.old) (W.contents output.new) result }
        ensures unread { result ≢ Err RunFault.Read }
        ensures blames_writer { BlamesWriter W.fails result };
}

/// Reads the units of the input around those that are damaged, and then tells what is found of the section as a whole.
pub fn read_around<R: Source, W: Destination, V: Finishing<W>>(
    alloc: Global,
    input: &mut R,
    output: &mut W,
    options: &Options<'_>,
    visitor: &mut V,
) -> Result<LintedAround, RunFault>
    requires { options.now.limit ≤ SECTION_LIMIT }
    ensures ran { (bs : List ℕ) × Consumes (R.remaining input.old) (R.remaining input.new) bs
        × (V.story.tells visitor.old visitor.old (W.contents output.old) (W.contents output.old) []
        → Appends (W.contents output.old) (W.contents output.old) (V.story.text visitor.old [])
        → FinishesAround V.story V.ends options.now.dialect options.now.limit bs (R.remaining input.new) visitor.old visitor.new
        (W.contents output.old) (W.contents output.new) result) }
    ensures blames { Blames R.follows R.fails input.old input.new
        (NeverBlames V.story visitor.old (W.contents output.old) × (result ≡ Err RunFault.Read)) }
    ensures blames_writer { V.story.tells visitor.old visitor.old (W.contents output.old) (W.contents output.old) []
        → Appends (W.contents output.old) (W.contents output.old) (V.story.text visitor.old [])
        → BlamesWriter W.fails result }
    ensures over { V.story.tells visitor.old visitor.old (W.contents output.old) (W.contents output.old) []
        → Appends (W.contents output.old) (W.contents output.old) (V.story.text visitor.old [])
        → IfOk result (λ linted. linted.survey.damaged ≡ None
        → R.over input.new ⊎ WantedNoMore V.story visitor.old (W.contents output.old)) }
{
    let survey = read_units_around(alloc, input, output, options, visitor)?;
    let counts = visitor.finish(output)?;
    Ok(LintedAround { survey, counts })
}

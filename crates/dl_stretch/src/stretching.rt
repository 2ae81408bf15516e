//! The stretches of what spans answer. Section 6.2.2.

ghost use Rattle.std.specs.Prelude.{◌≡◌, ℕ, ◌+◌, ◌<◌, ◌≤◌, IfOk, List, Option, length, slice_index_or};
ghost use Rattle.dl_look.specs.Cuts.{no_span};
ghost use Rattle.dl_stretch.specs.CutPlaces.{CutsStand};
ghost use Rattle.dl_stretch.specs.declared.stretch.Stretch as each;
ghost use Rattle.dl_stretch.specs.declared.told.Told as said;
ghost use Rattle.dl_stretch.specs.Made.{AreMade, TellsOn, last_told, start_at};
ghost use Rattle.dl_stretch.specs.RowRuns.{RunsRise};
ghost use Rattle.dl_stretch.specs.Runs.{run_told_at};
ghost use Rattle.dl_stretch.specs.Spans.{AreSound, runs_in};

use crate::reach::{Reach, reach_of};
use crate::run::Run;
use crate::sink::{StretchSink, Stretches};
use crate::stretch::tell_from;
use crate::told::Told;
use dl_look::{Cut, Span, cuts_of};
use dl_memory::{Memory, NoMemory};

/// The stretches of what the rows of units tell. They aren't held: each time that they are told they are made of runs.
///
/// Beside the runs there are at most two cuts of 32 bytes for each sequence.
#[derive(Drop)]
pub struct RunStretches<'a> {
    runs: &'a [Run],
    spans: &'a [Span],
    cuts: Vec<Cut>,
    ghost sound: { AreSound runs.now spans.now },
    ghost stand: { CutsStand spans.now cuts.items },
}

impl<'a> RunStretches<'a> {
    ghost use Rattle.std.specs.Prelude.{◌≡◌, ◌≤◌, ◌+◌, ◌*◌, IfOk, OnErr, List, length};
    ghost use Rattle.dl_memory.specs.Refusals.{IsRefused};
    ghost use Rattle.dl_stretch.specs.declared.stretch.Stretch as each;
    ghost use Rattle.dl_stretch.specs.Spans.{AreSound};
    ghost use Rattle.dl_stretch.specs.StandFor.{StandFor};

    /// The stretches of what the spans answer, each of which has its runs among these.
    pub(crate) fn new<M: Memory>(
        memory: &M,
        runs: &'a [Run],
        spans: &'a [Span],
    ) -> Result<RunStretches<'a>, NoMemory>
        requires { AreSound runs.now spans.now }
        ensures refused { OnErr result (IsRefused (M.refuses memory.now) (2 * length spans.now + 1)) }
        ensures runs { IfOk result (λ s. s.runs.now ≡ runs.now) }
        ensures spans { IfOk result (λ s. s.spans.now ≡ spans.now) }
        ensures few { IfOk result (λ s. (list : List each.Stretch) → StandFor s list
            → length list ≤ length runs.now + 2 * length spans.now) }
    {
        let cuts = cuts_of(memory, spans)?;
        Ok(RunStretches { runs, spans, cuts })
    }
}

impl Stretches for RunStretches<'_> {
    ghost use Rattle.dl_stretch.specs.StandFor.{StandFor};

    ghost stands = { StandFor };

    fn tell<S: StretchSink>(&self, sink: &mut S) {
        let mut last = None;
        for i in 0..self.cuts.len() {
            let Some(reach) = reach_of(self.cuts.as_slice(), i) else {
                continue;
            };
            last = match self.cuts[i].sequence {
                Some(sequence) => {
                    tell_runs(sink, last, runs_of(self.runs, self.spans, sequence), reach)
                }
                None => {
                    tell_from(sink, last, reach.first, None);
                    None
                }
            };
        }
    }
}

/// The runs of the span of this number.
fn runs_of<'a>(runs: &'a [Run], spans: &[Span], i: usize) -> &'a [Run]
    requires sound { AreSound runs.now spans.now }
    requires within { i < length spans.now }
    ensures { result.now ≡ runs_in runs.now (slice_index_or spans.now i no_span) }
{
    let span = spans[i];
    &runs[span.start..span.start + span.len]
}

/// Tells what the runs tell of these addresses, as stretches, where `last` was told before them; answers what is told
/// last.
fn tell_runs<S: StretchSink>(
    sink: &mut S,
    last: Option<Told>,
    runs: &[Run],
    reach: Reach,
) -> Option<Told>
    requires rise { RunsRise runs.now }
    requires some { reach.first ≤ reach.last }
    ensures { (f : ℕ → Option said.Told) (list : List each.Stretch) → last ≡ last_told list → AreMade f list reach.first
        → ((a : ℕ) → reach.first ≤ a → a ≤ reach.last → f a ≡ run_told_at runs.now a)
        → TellsOn S.hears sink.old sink.new f list (reach.last + 1) result }
{
    let mut next = begun(runs, reach.first);
    let mut told = if next > 0 {
        Some(runs[next - 1].told())
    } else {
        None
    };
    tell_from(sink, last, reach.first, told);
    while next < runs.len() && runs[next].start <= reach.last {
        let run = runs[next];
        let more = Some(run.told());
        tell_from(sink, told, run.start, more);
        told = more;
        next += 1;
    }
    told
}

/// How many runs begin at the address or before it.
fn begun(runs: &[Run], address: u64) -> usize
    requires { RunsRise runs.now }
    ensures within { result ≤ length runs.now }
    ensures upto { (k : ℕ) → k < result → start_at runs.now k ≤ address }
    ensures above { (k : ℕ) → result ≤ k → k < length runs.now → address < start_at runs.now k }
{
    runs.partition_point(|run| run.start <= address)
}

//! Rows in memory, for the look-up of many places.

ghost use Rattle.std.specs.Prelude.{◌≡◌, ◌+◌, ◌*◌, IfOk, OnErr, length};
ghost use Rattle.dl_memory.specs.Refusals.{IsRefused, SystemRefuses};
ghost use Rattle.dl_look.specs.Answer.{answer};
ghost use Rattle.dl_look.specs.Spans as Spans;

use crate::cuts::{Cut, cuts_of, cuts_upto};
use crate::place::Place;
use crate::probed::{Probed, Span};
use crate::searching::search_between;
use crate::sequence_so_far::SequenceSoFar;
use dl_memory::{Memory, NoMemory, System};
use dl_rows::Row;
use std::alloc::Global;
use std::marker::Model;

/// Rows, with what is kept of each of their sequences that has an end row.
#[derive(Drop)]
pub struct Index {
    rows: Vec<Row>,
    spans: Vec<Span>,
    cuts: Vec<Cut>,
}

// An index is seen as its rows.
impl Model for Index {
    ghost use Rattle.std.specs.Prelude.{◌≡◌, List};
    ghost use Rattle.dl_rows.specs.declared.row.Row.{Row};
    ghost use Rattle.dl_look.specs.Spans as Spans;
    ghost use Rattle.dl_look.specs.Cuts.{AreCuts};

    ghost Value = { List Row };

    ghost view = { λ kept. kept.rows.items };

    ghost invariant = { λ kept. (kept.spans.items ≡ Spans.spans kept.rows.items)
        × AreCuts kept.spans.items kept.cuts.items };
}

impl Index {
    /// An index of a copy of the rows. Where a growth is refused, nothing is kept.
    pub fn build(alloc: Global, rows: &[Row]) -> Result<Index, NoMemory>
        ensures built { IfOk result (λ built. built ≡ rows.now) }
        ensures refused { OnErr result (IsRefused SystemRefuses (2 * length rows.now + 1)) }
    {
        Index::build_in(&System::new(alloc), rows)
    }

    /// The same, by this memory.
    pub fn build_in<M: Memory>(memory: &M, rows: &[Row]) -> Result<Index, NoMemory>
        ensures built { IfOk result (λ built. built ≡ rows.now) }
        ensures refused { OnErr result (IsRefused (M.refuses memory.now) (2 * length rows.now + 1)) }
    {
        let spans = spans_of(memory, rows)?;
        let cuts = cuts_of(memory, spans.as_slice())?;
        let mut kept = memory.with_capacity(rows.len())?;
        memory.extend_from_slice(&mut kept, rows)?;
        Ok(Index {
            rows: kept,
            spans,
            cuts,
        })
    }

    /// The answer of the rows for a place, as `Finder::answer` gives it.
    pub fn find(&self, place: Place) -> Option<Row>
        ensures { result ≡ answer self.now place }
    {
        let after = cuts_upto(self.cuts.as_slice(), place);
        if after == 0 {
            return None;
        }
        let sequence = self.cuts[after - 1].sequence?;
        let span = self.spans[sequence];
        Some(search_between(&mut self.probe(), span.start, span.len, place))
    }

    /// The rows, to be seen by counted calls; no probe was made yet.
    pub fn probe(&self) -> Probe<'_>
        ensures rows { ⟦<Probe<'static> as Probed>⟧.list result ≡ self.now }
        ensures count { ⟦<Probe<'static> as Probed>⟧.probes result ≡ 0 }
    {
        Probe {
            rows: self.rows.as_slice(),
            spans: self.spans.as_slice(),
            count: 0,
        }
    }
}

/// What is kept of the sequences of the rows, by one pass over them.
fn spans_of<M: Memory>(memory: &M, rows: &[Row]) -> Result<Vec<Span>, NoMemory>
    ensures spans { IfOk result (λ spans. spans.items ≡ Spans.spans rows.now) }
    ensures refused { OnErr result (IsRefused (M.refuses memory.now) (length rows.now)) }
{
    let mut spans = Vec::new(memory.alloc());
    let mut start = 0;
    let mut run = None;
    for (i, row) in rows.iter().enumerate() {
        let extended = SequenceSoFar::extended(run, Place::of(row));
        if row.end_sequence {
            let span = Span {
                start,
                len: i - start + 1,
                first: extended.first,
                last: extended.last,
                rising: extended.rising,
            };
            memory.push(&mut spans, span)?;
            start = i + 1;
            run = None;
        } else {
            run = Some(extended);
        }
    }
    Ok(spans)
}

/// The rows of an index, seen by counted calls.
#[derive(Drop)]
pub struct Probe<'a> {
    rows: &'a [Row],
    spans: &'a [Span],
    count: u128,
    ghost tied: { spans.now ≡ Spans.spans rows.now },
}

impl Probed for Probe<'_> {
    ghost list = { λ p. p.rows.now };

    ghost probes = { λ p. p.count };

    fn rows(&self) -> usize {
        self.rows.len()
    }

    fn sequences(&self) -> usize {
        self.spans.len()
    }

    fn count(&self) -> u128 {
        self.count
    }

    fn sequence(&mut self, i: usize) -> Span {
        self.count += 1;
        self.spans[i]
    }

    fn row(&mut self, i: usize) -> Row {
        self.count += 1;
        self.rows[i]
    }
}

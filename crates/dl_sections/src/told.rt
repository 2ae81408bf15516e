//! What a visitor is told of the program of a unit. Sections 6.2.2 to 6.2.5.

use crate::fault::RunFault;
use crate::section::Visitor;
use dl_head::Header;
use dl_output::Destination;
use dl_rows::{Flow, Operation, OperationSink, PlainRun, ProgramSink, Row};

/// Tells a visitor the program of a unit, and counts its rows. Once the visitor stopped it is told nothing more.
#[derive(Drop)]
pub(crate) struct Told<'a, W, V> {
    pub output: &'a mut W,
    pub visitor: &'a mut V,
    /// End rows and rows.
    pub sequences: u64,
    pub rows: u64,
    /// Why the visitor stopped.
    pub failed: Option<RunFault>,
}

impl<W: Destination, V: Visitor<W>> OperationSink for Told<'_, W, V> {
    ghost use Rattle.dl_sections.specs.Told.{told_story};

    ghost story = { told_story V.story W.fails W.contents };

    #[inline(always)]
    fn bytes(&mut self, bytes: &[u8]) {
        if self.failed.is_some() {
            return;
        }
        if let Err(fault) = self.visitor.bytes(self.output, bytes) {
            self.failed = Some(RunFault::from(fault));
        }
    }

    #[inline(always)]
    fn operation(&mut self, header: &Header, operation: Operation) {
        if self.failed.is_some() {
            return;
        }
        if let Err(fault) = self.visitor.operation(self.output, header, operation) {
            self.failed = Some(RunFault::from(fault));
        }
    }
}

impl<W: Destination, V: Visitor<W>> ProgramSink for Told<'_, W, V> {
    #[inline(always)]
    fn row(&mut self, header: &Header, row: &Row) -> Flow {
        if self.failed.is_some() {
            return Flow::Stop;
        }
        match self.visitor.row(self.output, header, row) {
            Ok(()) => {
                self.count(row);
                Flow::On
            }
            Err(fault) => {
                self.failed = Some(fault);
                Flow::Stop
            }
        }
    }

    #[inline(always)]
    fn hears_runs(&self) -> bool {
        self.visitor.hears_runs()
    }

    #[inline(always)]
    fn plain_run(&mut self, header: &Header, run: &PlainRun<'_, '_>) -> bool {
        if self.failed.is_some() {
            return false;
        }
        if !self.visitor.plain_run(header, run) {
            return false;
        }
        self.rows = self.rows.saturating_add(run.rows.count);
        true
    }
}

impl<W, V> Told<'_, W, V> {
    ghost use Rattle.std.specs.Prelude.{◌≡◌, ◌+◌, cond};
    ghost use Rattle.dl_print.specs.Counts.{add};

    /// One row more.
    #[inline(always)]
    fn count(&mut self, row: &Row)
        ensures { self.new ≡ record self.old {
          rows = add self.old.rows 1;
          sequences = add self.old.sequences (cond row.now.end_sequence 1 0);
        } }
    {
        self.rows = self.rows.saturating_add(1);
        self.sequences = self.sequences.saturating_add(u64::from(row.end_sequence));
    }
}

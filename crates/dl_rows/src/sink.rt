//! What hears the program of a unit while its bytes are taken.

ghost use Rattle.std.specs.Prelude.{◌≡◌, [], ◌∷◌, ◌++◌, ◌≤◌, length, List, ℕ, map};
ghost use Rattle.dl_rows.specs.Items.{Item, a_byte, an_operation};

use crate::operation::Operation;
use crate::plain_run::PlainRun;
use crate::row::Row;
use dl_head::Header;

/// Whether what is told rows, or units, goes on.
#[derive(Debug, Clone, Copy, PartialEq, Eq)]
pub enum Flow {
    /// It wants the next one too.
    On,
    /// It stops here.
    Stop,
}

/// What hears the operations of a program: its bytes in their order, and each operation after its last byte.
pub trait OperationSink {
    ghost use Rattle.std.specs.Prelude.{List, ◌∷◌, ◌++◌, [], map};
    ghost use Rattle.dl_rows.specs.Items.{Item, a_byte, an_operation};
    ghost use Rattle.dl_rows.specs.Sinks.{Story};

    /// What is said of the sink, `first` being what it was at the beginning.
    ghost story: { Self → Story Self };

    /// The next bytes of the program, none of them after the end of the current operation.
    fn bytes(&mut self, bytes: &[u8])
        ensures { (first : Self) (items : List Item) → (story first).hears self.old items
            → (story first).hears self.new (items ++ map a_byte bytes.now) };

    /// The bytes that were told since the last operation are this one, under the header of its unit.
    fn operation(&mut self, header: &Header, operation: Operation)
        ensures { (first : Self) (items : List Item) → (story first).hears self.old items
            → (story first).hears self.new (items ++ an_operation header.now operation ∷ []) };
}

/// What hears the program of a unit, and the row that an operation appends after the operation.
pub trait ProgramSink: OperationSink {
    ghost use Rattle.std.specs.Prelude.{List, ◌∷◌, ◌++◌, [], if◌then◌else◌};
    ghost use Rattle.dl_rows.specs.Items.{Item, a_row};
    ghost use Rattle.dl_rows.specs.Plain.{IsPlainRun, PlainOne, items_of_plain};
    ghost use Rattle.dl_rows.specs.Sinks.{Heard};

    /// The row that this operation appends, under the header of its unit.
    fn row(&mut self, header: &Header, row: &Row) -> Flow
        ensures { (first : Self) (items : List Item) → (Self.story first).hears self.old items
            → Heard (Self.story first) self.new (items ++ a_row header.now row.now ∷ []) result };

    /// Whether it may hear plain runs as one, by `plain_run`.
    #[inline(always)]
    fn hears_runs(&self) -> bool {
        false
    }

    /// Plain operations one after the other under the header of their unit, each with its bytes and its row. It may answer false
    /// and have heard nothing; then it is told each by itself.
    #[inline(always)]
    fn plain_run(&mut self, _header: &Header, _run: &PlainRun<'_, '_>) -> bool
        ensures { (first : Self) (items : List Item) (ones : List PlainOne) → (Self.story first).hears self.old items
            → IsPlainRun _header.now.params _run.now ones
            → (Self.story first).hears self.new (if result then items ++ items_of_plain _header.now ones else items) }
    {
        false
    }
}

/// Tells a sink the operation that ends where the tail begins, with those of its bytes that stand before it.
#[inline(always)]
pub(crate) fn tell_operation<S: OperationSink>(
    sink: &mut S,
    header: &Header,
    bytes: &[u8],
    tail: &[u8],
    operation: Operation,
)
    requires { length tail.now ≤ length bytes.now }
    ensures { (first : S) (items : List Item) (front : List ℕ) → (S.story first).hears sink.old items
        → bytes.now ≡ front ++ tail.now
        → (S.story first).hears sink.new (items ++ (map a_byte front ++ an_operation header.now operation ∷ [])) }
{
    sink.bytes(&bytes[..bytes.len() - tail.len()]);
    sink.operation(header, operation);
}

/// Stops at each row.
#[derive(Drop)]
pub(crate) struct EachRow;

impl OperationSink for EachRow {
    ghost use Rattle.dl_rows.specs.Each.{each_row};

    ghost story = { λ first. each_row };

    #[inline(always)]
    fn bytes(&mut self, _bytes: &[u8]) {}

    #[inline(always)]
    fn operation(&mut self, _header: &Header, _operation: Operation) {}
}

impl ProgramSink for EachRow {
    #[inline(always)]
    fn row(&mut self, _header: &Header, _row: &Row) -> Flow {
        Flow::Stop
    }
}

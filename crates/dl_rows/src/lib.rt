//! The rows of a line table unit of DWARF 5: its operations, its registers, and its reader. Section 6.2.
#![tactic(auto)]

mod front;
pub mod laws;
pub mod operation;
mod operation_state;
pub mod plain_run;
mod program;
pub mod reader;
mod registers;
pub mod row;
pub mod sink;
mod unit_body;

pub use front::operation_at_front;
pub use operation::Operation;
pub use plain_run::{PlainRows, PlainRun};
pub use reader::{Event, Fed, Finish, Listener, Reader, Run};
pub use row::Row;
pub use sink::{Flow, OperationSink, ProgramSink};

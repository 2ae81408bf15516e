//! Tables of directories and files of a DWARF 5 header: forms, values, building, writing. Sections 6.2.4.1 and 7.5.
#![tactic(auto)]

pub mod counted;
pub mod fault;
pub mod form;
pub mod table;
pub mod text;

pub use counted::HeadWrite;
pub use fault::{BuildFault, FaultKind};
pub use form::{Form, Format};
pub use table::{Entry, Extent, Pair, StoredValue, Table, ValueRef, Values, Word};
pub use text::text_at;

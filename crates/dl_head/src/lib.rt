//! The header of a line table unit of DWARF 5: its parts, its reader and its writer. Section 6.2.4.
#![tactic(auto)]

pub mod dialect;
pub mod fault;
pub mod header;
pub mod laws;
pub mod reader;
mod sizes;
pub mod write;

pub use dialect::{AddressSize, Dialect, Older};
pub use dl_field::{Params, params};
pub use dl_table::{
    BuildFault, Entry, FaultKind, Form, Format, HeadWrite, Pair, Table, ValueRef, Values, counted,
    form, table, text, text_at,
};
pub use fault::{Fault, ParamFault};
pub use header::{Header, HeaderLengths, Refused};
pub use reader::{HeadReader, HeadStep};
pub use write::{TooLong, header_len, write_header};

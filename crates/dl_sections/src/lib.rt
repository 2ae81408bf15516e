//! The commands over a section of line tables: what they read, print and answer; and the reading of
//! its units for further ones.
#![tactic(auto)]

mod around;
mod around_in_memory;
mod checking;
mod copying;
mod dumping;
mod fault;
mod finding;
mod in_memory;
pub mod laws;
mod options;
mod passing_over;
mod reporting;
mod section;
mod strings;
mod told;

pub use around::{AroundDamage, Damage, DamagedUnits, Survey, read_units_around};
pub use around_in_memory::{UnitSinkAround, read_section_around};
pub use checking::{check, check_around};
pub use copying::{copy, copy_to_5};
pub use dl_input::{INTERRUPTIONS, Input, ReadFailed};
pub use dl_print::Summary;
pub use dl_rows::Flow;
pub use dumping::{dump, dump_around, dump_with};
pub use fault::RunFault;
pub use finding::find;
pub use in_memory::{SectionRead, SectionStop, UnitSink, WholeUnit, read_section};
pub use options::{Detail, Options, PLAIN, SECTION_LIMIT};
pub use passing_over::{PassedOver, passed_over};
pub use reporting::DamageSink;
pub use section::{Visitor, read_units};
pub use strings::read_strings;

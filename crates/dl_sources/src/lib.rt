//! The source files that the units of a section name, with the rows that name them. Section 6.2.4.
#![tactic(auto)]

mod counting;
mod entries;
mod finding;
pub mod laws;
mod line;
mod lister;
mod listing;
mod map_memory;
mod path_text;
mod printing;
mod question;
mod table;
mod unit_listing;

pub use counting::Counts;
pub use dl_dirs::CompilationDirectories;
pub use finding::{FoundSources, find_sources, find_sources_around};
pub use listing::{sources, sources_around};
pub use map_memory::MapMemory;
pub use question::{FilesQuestion, SourcesAround, SourcesQuestion, Sums};
pub use table::{PathTotals, SourceTable};
pub use unit_listing::sources_of_unit;

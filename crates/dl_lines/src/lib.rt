//! The addresses of source lines, of all units of a section in one pass.
#![tactic(auto)]

mod answering;
mod around;
mod best;
mod full_path;
mod ordering;
mod places;
mod printing;
mod question;
mod run;
mod search;
mod searches;
mod seeker;
mod word;

pub use answering::lines;
pub use around::lines_around;
pub use dl_addr::{FoundAround, WhichFound};
pub use dl_dirs::CompilationDirectories;
pub use places::{FoundPlaces, LinePlace, find_places, find_places_around};
pub use question::{LinesQuestion, PlacesQuestion, Wanted};
pub use word::wanted_in;

//! Members of archives as files: the member that a path names, and what the program does for a member.
//!
//! [`split_member`] cuts the path of a member in two, [`open_member`] opens its file, and in [`WithMember`] that stands under a path
//! of its own among other files. [`at_member`] does what `dump` and `check` do, with one member of an archive, and
//! [`walk_members`] with all of them. For other work there are the parts of that: the path and the file of a member
//! ([`path_of_member`], [`file_of_member`]), the job over it ([`job_over`]), whether it has a line table ([`has_no_table`]), the line
//! before what is printed of it ([`write_path`]), and what came of it ([`Step`], [`Counts`]).
#![tactic(auto)]

mod counts;
mod fault;
mod file;
mod finding;
mod job;
mod line_table;
mod path;
mod sink;
mod source;
mod step;
mod walk;
mod whole;

pub use counts::Counts;
pub use fault::{MemberFault, WalkFault};
pub use file::{MemberFile, file_of_member, open_member};
pub use finding::find_member;
pub use job::job_over;
pub use line_table::has_no_table;
pub use path::{PathText, TooLong, path_of_member, split_member};
pub use sink::MemberSink;
pub use source::{MemberOrFile, WithMember};
pub use step::{Step, at_member, tell_unopened, write_path};
pub use walk::{Walked, walk_members};

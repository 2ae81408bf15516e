//! Archives of object files: their members in order, each with its name and its bytes.
//!
//! [`archive_kind`] tells whether a file is an archive, [`Members`] goes from member to member, and [`MemberBytes`] are the
//! bytes of one, which can be read at any offset as those of a file. Nothing is allocated. ar.h of System V, with the long
//! names of GNU and BSD, and GNU's thin archives.
#![tactic(auto)]

mod entry;
mod fault;
mod field;
mod header;
mod kind;
mod member;
mod members;
mod name_field;

pub use fault::ArchiveFault;
pub use kind::{Kind, archive_kind};
pub use member::{Member, MemberBytes, NAME_LIMIT};
pub use members::Members;

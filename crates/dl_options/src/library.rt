//! Want of memory that the standard library, or clap, answers.

ghost use Rattle.dl_options.specs.Memory.{LibraryRefused};

use std::alloc::AllocError;

/// What one of their calls answered where it got no memory.
pub fn refused(error: AllocError) -> AllocError
    ensures { LibraryRefused }
{
    error
}

//! A file's number and is_stmt in 64 bits. Section 6.2.2.

ghost use Rattle.std.specs.Prelude.{◌≡◌, ◌<◌, ◌^◌};
ghost use Rattle.dl_stretch.specs.Held.{held, file_in, statement_in, packed};

/// The greatest number of a file that is held; greater ones are held as this one.
const GREATEST_FILE: u64 = 0x7fff_ffff_ffff_ffff;

/// The number of a file, and whether an instruction is a recommended place for a breakpoint.
#[derive(Debug, Clone, Copy, PartialEq, Eq)]
pub(crate) struct FileAndStatement {
    /// The number of the file, times 2, and 1 where is_stmt is true.
    bits: u64,
}

impl FileAndStatement {
    /// Of a file's number above 2^63 - 1 the number 2^63 - 1 is held.
    #[inline(always)]
    pub(crate) fn of(file: u64, is_stmt: bool) -> FileAndStatement
        ensures { result ≡ packed file is_stmt }
    {
        let statement = if is_stmt { 1 } else { 0 };
        FileAndStatement {
            bits: 2 * file.min(GREATEST_FILE) + statement,
        }
    }

    /// The number of the file, at most 2^63 - 1.
    #[inline(always)]
    pub(crate) fn file(self) -> u64
        ensures { result ≡ file_in self }
    {
        self.bits / 2
    }

    /// Whether the instruction is a recommended place for a breakpoint.
    #[inline(always)]
    pub(crate) fn is_stmt(self) -> bool
        ensures { result ≡ statement_in self }
    {
        self.bits % 2 == 1
    }
}

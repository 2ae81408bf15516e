//! Operations one after the other that lead the registers on plainly, with the rows that they append. Sections 6.2.2 and 6.2.5.1 to
//! 6.2.5.3.

ghost use Rattle.std.specs.Prelude.{◌≡◌, ◌+◌, ◌<◌, ◌^◌, ◌==◌, ◌||◌, if◌then◌else◌};

/// How many files the rows of a run name, at most.
pub(crate) const RUN_FILES: usize = 64;

/// Operations one after the other, where each instruction has one operation. None of them ends a sequence, is passed over, is
/// DW_LNS_fixed_advance_pc, leads the address past what its size holds, or sets it after a row of the run. The lines of their
/// rows are below 2^32.
#[derive(Clone, Copy)]
pub struct PlainRun<'a, 'f> {
    /// Their bytes.
    pub bytes: &'a [u8],
    /// How many bytes the last of them has.
    pub last_bytes: usize,
    /// The register address before them.
    pub from: u64,
    /// The register address after them.
    pub to: u64,
    /// The rows that they append.
    pub rows: PlainRows,
    /// The files that these rows name.
    pub files: &'f [u64],
}

/// What the rows of a run come to.
#[derive(Clone, Copy)]
pub struct PlainRows {
    /// How many there are.
    pub count: u64,
    /// The address of the first, where there is one.
    pub first: u64,
    /// The address of the last, where there is one.
    pub last: u64,
    /// Whether one of them is a statement.
    pub has_statement: bool,
}

/// Before the first.
pub(crate) const NO_ROWS: PlainRows = PlainRows {
    count: 0,
    first: 0,
    last: 0,
    has_statement: false,
};

impl PlainRows {
    /// A row more.
    #[inline(always)]
    pub(crate) fn add(&mut self, address: u64, is_stmt: bool)
        requires { self.old.count + 1 < 2 ^ 64 }
        ensures { self.new ≡ record self.old {
          count = self.old.count + 1;
          first = if self.old.count == 0 then address else self.old.first;
          last = address;
          has_statement = self.old.has_statement || is_stmt;
        } }
    {
        if self.count == 0 {
            self.first = address;
        }
        self.count += 1;
        self.last = address;
        self.has_statement |= is_stmt;
    }
}

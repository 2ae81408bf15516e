//! What a byte makes of the field that it falls in.

use dl_table::FaultKind;

/// What a byte makes of the field that it falls in.
#[derive(Clone, Copy)]
pub enum FieldStep {
    /// The field goes on.
    Within,
    /// The field is complete and good.
    Ends,
    /// The field is complete and bad.
    Refuses(FaultKind),
    /// Memory was refused; the byte isn't taken, and nothing has changed.
    NoMemory,
}

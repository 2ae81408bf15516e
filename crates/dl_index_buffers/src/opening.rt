//! The calls that open an index.

ghost use Rattle.dl_index_buffers.specs.OpenCalls.{Opens, OpensUnchecked};

use crate::record::{IndexFaultRecord, IndexRecord};
use dl_buffers::Status;

/// Checks the bytes of an index, in one pass, and tells of it.
///
/// Done: they are one, which is told. Fault: they are none, and the fault is that of the first check that fails. What
/// isn't told stays as it was.
pub fn open(bytes: &[u8], index: &mut IndexRecord, fault: &mut IndexFaultRecord) -> Status
    ensures { Opens bytes.now index.old index.new fault.old fault.new result }
{
    match dl_index::open(bytes) {
        Ok(opened) => {
            *index = IndexRecord::of(&opened);
            Status::Done
        }
        Err(why) => {
            *fault = IndexFaultRecord::of(why);
            Status::Fault
        }
    }
}

/// The same without the pass over what stands after the header: of bytes that are damaged there the answers are wrong,
/// or none, and nothing outside is looked at.
pub fn open_unchecked(bytes: &[u8], index: &mut IndexRecord, fault: &mut IndexFaultRecord) -> Status
    ensures { OpensUnchecked bytes.now index.old index.new fault.old fault.new result }
{
    match dl_index::open_unchecked(bytes) {
        Ok(opened) => {
            *index = IndexRecord::of(&opened);
            Status::Done
        }
        Err(why) => {
            *fault = IndexFaultRecord::of(why);
            Status::Fault
        }
    }
}

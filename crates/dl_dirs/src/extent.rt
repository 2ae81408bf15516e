//! Texts one after the other in a list of bytes.
ghost use Rattle.std.specs.Prelude.{◌≡◌, ◌+◌, ◌≤◌, IfOk, OnErr, length};
ghost use Rattle.dl_dirs.specs.Holding.{Grows, IsExtent, bytes_of};

use dl_memory::{Memory, NoMemory};

/// Where a text stands in other bytes.
#[derive(Clone, Copy)]
pub(crate) struct Extent {
    /// Where it begins.
    pub start: usize,
    /// How many bytes it has.
    pub len: usize,
}

/// The bytes of an extent.
pub(crate) fn bytes_of(bytes: &[u8], extent: Extent) -> &[u8]
    ensures { result.now ≡ bytes_of bytes.now extent }
{
    let rest = &bytes[extent.start.min(bytes.len())..];
    &rest[..extent.len.min(rest.len())]
}

/// Puts a text behind others, where they don't end with it: where it stands.
pub(crate) fn put<M: Memory>(
    memory: &M,
    bytes: &mut Vec<u8>,
    text: &[u8],
) -> Result<Extent, NoMemory>
    ensures grows { Grows bytes.old.items bytes.new.items }
    ensures extent { IfOk result (λ e. IsExtent bytes.new.items e text.now) }
    ensures few { length bytes.new.items ≤ length bytes.old.items + length text.now }
    ensures refused { OnErr result (M.refuses memory.now (length bytes.old.items + length text.now)) }
{
    if bytes.ends_with(text) {
        let start = bytes.len() - text.len();
        return Ok(Extent {
            start,
            len: text.len(),
        });
    }
    let start = bytes.len();
    memory.extend_from_slice(bytes, text)?;
    Ok(Extent {
        start,
        len: text.len(),
    })
}

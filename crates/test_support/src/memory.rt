//! Want of memory.
use std::alloc::{AllocError, Global};

/// Takes all the memory that the process can get.
pub fn hoard(alloc: Global) -> Result<Vec<Vec<u8>>, AllocError> {
    hoard_but(alloc, 0)
}

/// Takes all the memory that the process can get, but for 1 GiB. A test that hoards many times takes this first: to
/// take the rest is quick.
pub fn hoard_most(alloc: Global) -> Result<Vec<Vec<u8>>, AllocError> {
    hoard_but(alloc, 1 << 30)
}

/// Takes all the memory that the process can get, but for one block of `spare` bytes.
pub fn hoard_but(alloc: Global, spare: usize) -> Result<Vec<Vec<u8>>, AllocError> {
    let mut blocks = Vec::with_capacity(alloc, 1 << 17)?;
    let free: Vec<u8> = Vec::with_capacity(alloc, spare)?;
    let mut size = 1usize << 46;
    for _ in 0..1u32 << 17 {
        if size == 0 || blocks.len() >= blocks.capacity() {
            break;
        }
        match Vec::with_capacity(alloc, size) {
            Ok(block) => blocks.push(block)?,
            Err(_) => size /= 2,
        }
    }
    drop(free);
    Ok(blocks)
}

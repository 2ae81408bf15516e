//! Growths of an index that are refused.
use crate::rows::place;
use dl_look::Index;
use dl_memory::NoMemory;
use std::test::Fail;
use test_support::{end, hoard_but, hoard_most, row};

/// Each growth of `build` is refused in turn, and in the end none is.
#[test]
fn refused_growths(rt: HostRuntime) -> Result<(), Fail> {
    let mut rows = Vec::new(rt.alloc());
    for i in 0..20u64 {
        rows.push(row(16 * i, 0, i))?;
        rows.push(end(16 * i + 8, 0, i))?;
    }
    let mut refusals = 0u32;
    let _most = hoard_most(rt.alloc())?;
    for step in 0..100usize {
        let blocks = hoard_but(rt.alloc(), 16 + step * 128)?;
        let built = Index::build(rt.alloc(), rows.as_slice());
        drop(blocks);
        match built {
            Ok(index) => {
                assert_eq!(rt; index.find(place(0x130, 0)).map(|row| row.line), Some(19));
                assert_eq!(rt; index.find(place(0x138, 0)), None);
                assert!(rt; 4 < refusals);
                return Ok(());
            }
            Err(error) => assert_eq!(rt; error, NoMemory),
        }
        refusals = refusals.saturating_add(1);
    }
    assert!(rt; false);
    Ok(())
}

//! Reading a range of addresses.
ghost use Rattle.std.specs.Prelude.{◌≡◌};
ghost use Rattle.dl_cmd.specs.Range.{range_in};

use crate::address::read_address;

/// The addresses that a text says, as LOW-HIGH: the first one and the one behind the last, both as `read_address` reads them with
/// `hex`.
///
/// None where the text is anything else.
pub fn read_range(text: &str) -> Option<(u64, u64)>
    ensures { result ≡ range_in text.now }
{
    let (low, high) = text.split_once('-')?;
    Some((read_address(true, low)?, read_address(true, high)?))
}

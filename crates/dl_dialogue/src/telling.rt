//! What tells of an address where it is in the source.

ghost use Rattle.std.specs.Prelude.{◌≡◌};
ghost use Rattle.std.specs.Option.{option_copied};
ghost use Rattle.dl_dialogue.specs.Paths.{path_if};

use crate::fault::TellFault;
use dl_addr::Location;
use dl_memory::Memory;

/// What tells of an address where it is in the source.
pub trait Tell {
    ghost use Rattle.std.specs.Prelude.{ℕ, Option, IfOk, IfErr, option_map};
    ghost use Rattle.std.specs.declared.io.Error.{Error};
    ghost use Rattle.dl_addr.specs.Location.{Location};
    ghost use Rattle.dl_addr.specs.Locations.{location_seen};
    ghost use Rattle.dl_dialogue.specs.Faults.{TellFails};
    ghost use Rattle.dl_dialogue.specs.Staying.{Stays};

    /// What it may tell of an address.
    ghost tells: { Self → ℕ → Option Location → Type 0 };

    /// The errors that its reads may give.
    ghost fails_with: { Self → Error → Type 0 };

    /// For how many bytes memory may be asked to tell of an address.
    ghost asks: { Self → ℕ → Type 0 };

    /// What is told of an address; None where nothing is. The path is put into `path`, in place of what stood there. What it
    /// tells of other addresses stays the same.
    fn tell<'a, M: Memory>(
        &mut self,
        memory: &M,
        address: u64,
        path: &'a mut Vec<u8>,
    ) -> Result<Option<Location<'a>>, TellFault>
        ensures tells { IfOk result (λ told. tells self.old address (option_map location_seen told)) }
        ensures fails { IfErr result (TellFails (fails_with self.old) (asks self.old) (M.refuses memory.now)) }
        ensures stays { Stays tells fails_with asks self.old self.new };
}

/// The path, where it is known.
pub(crate) fn path_if(is_known: bool, path: &[u8]) -> Option<&[u8]>
    ensures { option_copied result ≡ path_if is_known path.now }
{
    if is_known { Some(path) } else { None }
}

/// What tells nothing.
#[derive(Clone, Copy)]
pub struct Nothing;

impl Tell for Nothing {
    ghost use Rattle.std.specs.Prelude.{◌≡◌, None};

    ghost tells = { λ _ address told. told ≡ None };

    ghost fails_with = { λ _ error. ⊥ };

    ghost asks = { λ _ n. ⊥ };

    fn tell<'a, M: Memory>(
        &mut self,
        _memory: &M,
        _address: u64,
        _path: &'a mut Vec<u8>,
    ) -> Result<Option<Location<'a>>, TellFault> {
        Ok(None)
    }
}

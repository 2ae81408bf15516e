//! A path under its compilation directory, as one text. Sections 3.1.1 and 6.2.4.

ghost use Rattle.std.specs.Prelude.{◌≡◌, ◌+◌, IfOk, OnErr, length};
ghost use Rattle.std.specs.Option.{option_copied};
ghost use Rattle.dl_memory.specs.Refusals.{IsRefused};
ghost use Rattle.dl_path.specs.Parts.{path_seen};
ghost use Rattle.dl_path.specs.Paths.{compiled_in};

use dl_making::{put_folder, root_of};
use dl_memory::{Memory, NoMemory};
use dl_path::Path;

/// The text of a path under the compilation directory that counts. `NoMemory` where a growth is refused.
pub(crate) fn path_text<M: Memory>(
    memory: &M,
    directory: Option<&[u8]>,
    path: Path<'_>,
) -> Result<Vec<u8>, NoMemory>
    ensures text { IfOk result (λ text. text.items ≡ compiled_in (option_copied directory.entry) (path_seen path.entry)) }
    ensures refused { OnErr result (IsRefused (M.refuses memory.now)
        (length (compiled_in (option_copied directory.entry) (path_seen path.entry)) + 1)) }
{
    let mut text = Vec::new(memory.alloc());
    put_folder(memory, &mut text, root_of(directory, path))?;
    put_folder(memory, &mut text, path.base)?;
    put_folder(memory, &mut text, path.directory)?;
    memory.extend_from_slice(&mut text, path.name)?;
    Ok(text)
}

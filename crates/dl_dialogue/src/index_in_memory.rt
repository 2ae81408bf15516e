//! What an index in memory tells.

ghost use Rattle.std.specs.Prelude.{◌≡◌, ◌+◌, ◌≤◌, ◌++◌, length, IfOk, IfErr, is_some};
ghost use Rattle.dl_index.specs.Shown.{text_told, texts_told};
ghost use Rattle.dl_dialogue.specs.Faults.{TellFails};
ghost use Rattle.std.specs.List.{concat};
ghost use Rattle.dl_making.specs.Telling.{path_told};

use crate::fault::TellFault;
use crate::telling::{Tell, path_if};
use dl_addr::Location;
use dl_index::{IndexRef, PathTexts};
use dl_memory::Memory;

impl Tell for IndexRef<'_> {
    ghost use Rattle.std.specs.Prelude.{◌≡◌, ◌*◌, ◌≤◌, length, option_map};
    ghost use Rattle.dl_index.specs.IsIndex.{IsIndex};
    ghost use Rattle.dl_index.specs.Shown.{bytes_of};
    ghost use Rattle.dl_index.specs.Telling.{find_in};
    ghost use Rattle.dl_making.specs.Telling.{location_told};

    ghost tells = { λ index address told.
        IsIndex (bytes_of index) → told ≡ option_map location_told (find_in (bytes_of index) address) };

    ghost fails_with = { λ _ error. ⊥ };

    ghost asks = { λ index n. n ≤ 3 * length (bytes_of index) };

    fn tell<'a, M: Memory>(
        &mut self,
        memory: &M,
        address: u64,
        path: &'a mut Vec<u8>,
    ) -> Result<Option<Location<'a>>, TellFault> {
        let Some(found) = self.find(address) else {
            return Ok(None);
        };
        put_texts(memory, found.texts, path)?;
        Ok(Some(Location {
            unit: found.unit,
            path: path_if(is_known(found.texts), path.as_slice()),
            line: found.line,
            column: found.column,
            discriminator: found.discriminator,
            is_stmt: found.is_stmt,
        }))
    }
}

/// Whether there is a text.
fn is_known(texts: PathTexts<'_>) -> bool
    ensures { result ≡ is_some (path_told (texts_told texts.entry)) }
{
    texts.first.is_some() || texts.second.is_some() || texts.third.is_some()
}

/// Puts the texts that there are, one after the other, into `path`, in place of what stood there.
fn put_texts<M: Memory>(
    memory: &M,
    texts: PathTexts<'_>,
    path: &mut Vec<u8>,
) -> Result<(), TellFault>
    ensures texts { IfOk result (λ _. path.new.items ≡ concat (texts_told texts.entry)) }
    ensures fails { IfErr result (TellFails (λ _. ⊥) (λ n. n ≤ length (concat (texts_told texts.entry)))
        (M.refuses memory.now)) }
{
    path.clear();
    put_text(memory, texts.first, path)?;
    put_text(memory, texts.second, path)?;
    put_text(memory, texts.third, path)
}

/// Puts a text behind the others, where there is one.
fn put_text<M: Memory>(memory: &M, text: Option<&[u8]>, path: &mut Vec<u8>) -> Result<(), TellFault>
    ensures text { IfOk result (λ _. path.new.items ≡ path.old.items ++ concat (text_told text.entry)) }
    ensures fails { IfErr result (TellFails (λ _. ⊥)
        (λ n. n ≤ length path.old.items + length (concat (text_told text.entry))) (M.refuses memory.now)) }
{
    let Some(text) = text else {
        return Ok(());
    };
    memory.extend_from_slice(path, text)?;
    Ok(())
}

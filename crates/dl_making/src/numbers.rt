//! The numbers of the files that a unit's runs name.

ghost use Rattle.std.specs.Prelude.{◌≡◌, ℕ, ◌+◌, ◌*◌, ◌<◌, ◌≤◌, ◌^◌, Some, IfOk, OnOk, OnErr, length, map, replicate, slice_get};
ghost use Rattle.std.specs.List.{All, Contains};
ghost use Rattle.std.specs.Option.{option_copied, option_map_or};
ghost use Rattle.dl_field.specs.HeaderData.{header_cells};
ghost use Rattle.dl_addr.specs.Texts.{files_end};
ghost use Rattle.dl_pack.specs.Named.{Grows, Once};
ghost use Rattle.dl_pack.specs.Shown.{named_files};
ghost use Rattle.dl_stretch.specs.Held.{AreHeld, held};
ghost use Rattle.dl_stretch.specs.Runs.{number_in};
ghost use Rattle.dl_stretch.specs.ToldUnits.{file_of};
ghost use Rattle.dl_making.specs.Few.{AddsFew, names_room, unit_text};
ghost use Rattle.dl_making.specs.Numbers.{AreSeen, IsNumbered};
ghost use Rattle.dl_making.specs.UnitFile.{file_in};
ghost use Rattle.dl_memory.specs.Refusals.{IsRefused};

use crate::files::{UnitFiles, file_number};
use dl_head::Header;
use dl_memory::{Memory, NoMemory};
use dl_pack::{Names, SetMemory};
use dl_stretch::Run;

/// What stands for the number of a file that wasn't looked up.
const UNSEEN: u64 = 0x7fff_ffff_ffff_ffff;

/// The numbers of the files that the runs of a unit name, each at the place of the number that the unit gives it, and
/// the number of the files past those of the unit's table. What stands at other places says nothing.
pub(crate) fn numbers_of<M: SetMemory>(
    memory: &M,
    names: &mut Names,
    unit: &UnitFiles<'_, '_>,
    runs: &[Run],
) -> Result<(Vec<u64>, u64), NoMemory>
    ensures refused { OnErr result (IsRefused (M.refuses memory.now) (names_room (unit_text unit.now) names.old (length runs.now))) }
    ensures few { OnOk result (AddsFew (3 * length runs.now) (length runs.now) (unit_text unit.now) names.old names.new) }
    ensures numbers { IfOk result (λ r. (file : ℕ) → Contains (map file_of runs.now) (held file)
        → slice_get (named_files names.new) (number_in r.0.items r.1 file) ≡ Some (file_in unit.now file)) }
    ensures held { IfOk result (λ r. AreHeld r.0.items r.1) }
    ensures grows { Grows (named_files names.old) (named_files names.new) }
    ensures once { Once (named_files names.old) → Once (named_files names.new) }
{
    let end = files_end(unit.header);
    let mut numbers = unseen(memory, end.saturating_add(1))?;
    for run in runs {
        number_file(memory, names, unit, &mut numbers, run.told().file)?;
    }
    let other = numbers[end];
    Ok((numbers, other))
}

/// So many places of which no file was looked up.
fn unseen<M: Memory>(memory: &M, count: usize) -> Result<Vec<u64>, NoMemory>
    ensures refused { OnErr result (IsRefused (M.refuses memory.now) count) }
    ensures unseen { IfOk result (λ numbers. numbers.items ≡ replicate count 0x7fffffffffffffff) }
{
    let mut numbers = memory.with_capacity(count)?;
    match numbers.resize(count, UNSEEN) {
        Ok(()) => Ok(numbers),
        Err(_) => unreachable!(),
    }
}

/// A number from which on a unit's table has no files.
pub fn files_end(header: Option<&Header>) -> usize
    ensures end { result ≡ option_map_or files_end (option_copied header.entry) 0 }
    ensures few { result ≤ option_map_or header_cells (option_copied header.entry) 0 + 1 }
{
    match header {
        Some(header) => {
            // By what it says of a header, each file has a value.
            let _params = header.params();
            header
                .first_number()
                .saturating_add(header.files().len() as u64) as usize
        }
        None => 0,
    }
}

/// Looks the number of a file up, where that wasn't done before.
fn number_file<M: SetMemory>(
    memory: &M,
    names: &mut Names,
    unit: &UnitFiles<'_, '_>,
    numbers: &mut Vec<u64>,
    file: u64,
) -> Result<(), NoMemory>
    requires { 0 < length numbers.old.items }
    ensures refused { OnErr result (IsRefused (M.refuses memory.now) (names_room (unit_text unit.now) names.old 1)) }
    ensures few { OnOk result (AddsFew 3 1 (unit_text unit.now) names.old names.new) }
    ensures len { length numbers.new.items ≡ length numbers.old.items }
    ensures small { All (λ n. n < 2 ^ 63) numbers.old.items → All (λ n. n < 2 ^ 63) numbers.new.items }
    ensures seen { OnOk result (AreSeen unit.now (named_files names.old) numbers.old.items
        → AreSeen unit.now (named_files names.new) numbers.new.items) }
    ensures numbered { OnOk result (AreSeen unit.now (named_files names.old) numbers.old.items
        → IsNumbered unit.now (named_files names.new) numbers.new.items file) }
    ensures others { OnOk result ((other : ℕ) → IsNumbered unit.now (named_files names.old) numbers.old.items other
        → IsNumbered unit.now (named_files names.new) numbers.new.items other) }
    ensures grows { Grows (named_files names.old) (named_files names.new) }
    ensures once { Once (named_files names.old) → Once (named_files names.new) }
{
    let entry = (file as usize).min(numbers.len() - 1);
    if numbers[entry] == UNSEEN {
        numbers[entry] = file_number(memory, names, unit, entry as u64)?;
    }
    Ok(())
}

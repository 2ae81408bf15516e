//! What the words say of units of versions 2 to 4, whose headers don't have the size of an address.
ghost use Rattle.std.specs.Prelude.{◌≡◌};
ghost use Rattle.std.specs.Option.{option_copied};
ghost use Rattle.dl_cmd.specs.Job.{request_made, unit_words_made};
ghost use Rattle.dl_program.specs.Units.{are_sizes, file_units, is_size, older_by, size_in, units_of};

use dl_cmd::{Job, UnitWords};
use dl_head::{AddressSize, Older};
use dl_open::FileUnits;

/// The size that a word says, in bytes.
fn size(word: &str) -> Option<AddressSize>
    ensures { result ≡ size_in word.now }
{
    match word {
        "1" => Some(AddressSize::One),
        "2" => Some(AddressSize::Two),
        "4" => Some(AddressSize::Four),
        "8" => Some(AddressSize::Eight),
        _ => None,
    }
}

/// Whether a word says a size, where there is one.
pub fn is_size(word: Option<&str>) -> bool
    ensures { result ≡ is_size (option_copied word.entry) }
{
    match word {
        Some(word) => size(word).is_some(),
        None => true,
    }
}

/// Whether the words that are to say sizes do.
pub fn are_sizes(words: UnitWords<'_>) -> bool
    ensures { result ≡ are_sizes (unit_words_made words.entry) }
{
    is_size(words.older) && is_size(words.address_size)
}

/// Which units of versions 2 to 4 are read of a section on the input, where this word says the size of an address.
pub fn older_by(word: Option<&str>) -> Older
    ensures { result ≡ older_by (option_copied word.entry) }
{
    let Some(word) = word else {
        return Older::Foreign;
    };
    match size(word) {
        Some(size) => Older::Read(size),
        None => Older::Foreign,
    }
}

/// Which units of an ELF file are read.
pub fn units_of_file(words: UnitWords<'_>) -> FileUnits
    ensures { result ≡ file_units (unit_words_made words.entry) }
{
    if words.version_5 {
        return FileUnits::Version5;
    }
    let Some(word) = words.address_size else {
        return FileUnits::ByClass;
    };
    match size(word) {
        Some(size) => FileUnits::Sized(size),
        None => FileUnits::ByClass,
    }
}

/// What a job says of units of versions 2 to 4.
pub fn units_of<'a>(job: &Job<'a>) -> UnitWords<'a>
    ensures { unit_words_made result ≡ units_of (request_made job.now) }
{
    match job {
        Job::Dump(words) => words.units,
        Job::Check { units, .. } | Job::Find { units, .. } | Job::Copy { units, .. } => *units,
        Job::Addr(words) => words.units,
        Job::Index(words) => words.units,
        Job::Lines(words) => words.units,
        Job::Sources(words) => words.units,
        Job::Lint(words) => words.units,
    }
}

/// Which units of an ELF file a job reads.
pub fn file_units(job: &Job<'_>) -> FileUnits
    ensures { result ≡ file_units (units_of (request_made job.now)) }
{
    units_of_file(units_of(job))
}

//! What words ask of a line table, as commands.
ghost use Rattle.std.specs.Prelude.{◌≡◌, option_map};
ghost use Rattle.std.specs.Option.{option_copied};
ghost use Rattle.dl_cmd.specs.Job.{dump_words_made};
ghost use Rattle.dl_program.specs.Asked.{address_range, command_seen, dump_asked, place_of, range_asked, text_asked};
ghost use Rattle.dl_program.specs.Shown.{shown_seen};

use crate::command::{Command, directory_said};
use dl_cmd::{DumpWords, read_address, read_range};
use dl_dump::Details;
use dl_look::{AddressRange, Place};

/// The place that the words name; None where ADDRESS is no address.
pub fn place(address: Option<&str>, op: u8) -> Option<Place>
    ensures { result ≡ place_of (option_copied address.entry) op }
{
    Some(Place {
        address: read_address(false, address?)?,
        op_index: op,
    })
}

/// The addresses from LOW on and below HIGH, where a word says both: none where HIGH isn't above LOW.
fn range(word: &str) -> Option<AddressRange>
    ensures { result ≡ address_range word.now }
{
    let (low, high) = read_range(word)?;
    Some(AddressRange {
        start: low,
        size: high.saturating_sub(low),
    })
}

/// The command that prints the sequences of a range, after damaged units too or up to the first one.
fn range_of(keep_going: bool, details: Details<'_>, range: AddressRange) -> Command<'_>
    ensures { command_seen result ≡ range_asked keep_going (shown_seen details.entry) range }
{
    if keep_going {
        Command::DumpRangeAround(details, range)
    } else {
        Command::DumpRange(details, range)
    }
}

/// The command that prints lines with these details, as the words say; None where what they say to be the offset of a unit, or
/// a range of addresses, is none.
fn text_of<'a>(words: &DumpWords<'a>, details: Details<'a>) -> Option<Command<'a>>
    ensures { option_map command_seen result ≡ text_asked (dump_words_made words.now) (shown_seen details.entry) }
{
    if let Some(unit) = words.unit {
        return Some(Command::DumpUnit(details, read_address(false, unit)?));
    }
    if let Some(word) = words.range {
        return Some(range_of(words.keep_going, details, range(word)?));
    }
    Some(if words.keep_going {
        Command::DumpAround(details)
    } else {
        Command::Dump(details)
    })
}

/// What the words of `dump` ask; None where the offset of a unit, or a range of addresses, is none.
pub fn dump_of<'a>(words: &DumpWords<'a>) -> Option<Command<'a>>
    ensures { option_map command_seen result ≡ dump_asked (dump_words_made words.now) }
{
    if words.json {
        return Some(if words.keep_going {
            Command::DumpJsonAround
        } else {
            Command::DumpJson
        });
    }
    let details = Details {
        header: words.header,
        operations: words.operations,
        paths: words.paths,
        directories: directory_said(words.comp_dir),
    };
    text_of(words, details)
}

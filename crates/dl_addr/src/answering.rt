//! The command that answers addresses with locations.

ghost use Rattle.std.specs.Prelude.{◌≡◌, ◌≤◌, ◌+◌, ℕ, List, [], Option, Some, IfOk, OnErr, if◌then◌else◌, map, option_map};
ghost use Rattle.std.specs.Prelude.{None, OnOk, length, slice_get};
ghost use Rattle.dl_memory.specs.Refusals.{IsRefused};
ghost use Rattle.std.specs.Io.KnownBytes.{Consumes};
ghost use Rattle.dl_input.specs.Failing.{Blames};
ghost use Rattle.dl_look.specs.declared.place.Place as place;
ghost use Rattle.dl_print.specs.ValueText.{strings_of};
ghost use Rattle.dl_print.specs.Output.{BlamesWriter as PrintBlames};
ghost use Rattle.dl_sections.specs.Blaming.{BlamesWriter};
ghost use Rattle.dl_sections.specs.Commands.{strings_in};
ghost use Rattle.dl_sections.specs.Section.{Visit};
ghost use Rattle.dl_addr.specs.declared.locating.Locator as locators;
ghost use Rattle.dl_addr.specs.declared.question.WhichFound.TheVariants as all_found;
ghost use Rattle.dl_addr.specs.Answers.{answer_seen};
ghost use Rattle.dl_addr.specs.AroundCommands.{LocatesAround};
ghost use Rattle.dl_look.specs.Asked.{looked_up};
ghost use Rattle.dl_addr.specs.Commands.{Locates, is_answered};
ghost use Rattle.dl_addr.specs.Knowing.{Knows};
ghost use Rattle.dl_addr.specs.Locating.{IsMadeFor, Locating};
ghost use Rattle.dl_addr.specs.Printing.{PrintsAll, answer_for, told, told_around};

use crate::locating::{Answer, Locator};
use crate::printing::print_line;
use crate::question::{FoundAround, Question, WhichFound};
use dl_input::Source;
use dl_look::{Asked, Place};
use dl_memory::{Memory, NoMemory};
use dl_output::Destination;
use dl_print::{Printer, StringSections, Summary, WriteFault};
use dl_sections::{Options, RunFault, SECTION_LIMIT, Survey, read_units, read_units_around};

/// Answers each address with a line, in the order in which they are asked: its location, by the first
/// unit whose sequences cover it, or that there is none.
///
/// The lines are printed once all units are read, or up to a fault: then the units before it answer, and
/// the fault is answered. Where memory is refused before anything is read, nothing is printed. The places
/// are held in memory, the tables of one header, and of the paths that answer what their headers have of their texts,
/// a directory and a name once for each unit.
pub fn addr<M: Memory, R: Source, W: Destination>(
    memory: &M,
    input: &mut R,
    output: &mut W,
    question: &Question<'_>,
    options: &Options<'_>,
) -> Result<WhichFound, RunFault>
    requires { options.now.limit ≤ SECTION_LIMIT }
    ensures ran { (bs : List ℕ) × Consumes (R.remaining input.old) (R.remaining input.new) bs
        × Locates (M.refuses memory.now) options.now.dialect (strings_in options.now) question.now options.now.limit bs
        (R.remaining input.new) (W.contents output.old) (W.contents output.new) result }
    ensures blames { Blames R.follows R.fails input.old input.new (result ≡ Err RunFault.Read) }
    ensures blames_writer { BlamesWriter W.fails result }
    ensures over { OnOk result (R.over input.new) }
{
    let strings = StringSections::new(options.debug_line_str, options.debug_str);
    let Ok(mut locator) = locator_of(memory, &strings, question) else {
        return Err(RunFault::NoMemory);
    };
    let ended = read_units(memory.alloc(), input, output, options, &mut locator);
    let printed = print_all(&locator, output, question);
    told(ended, printed)
}

/// What is answered where the reading ended so, and then the lines were printed.
fn told(
    ended: Result<Summary, RunFault>,
    printed: Result<WhichFound, WriteFault>,
) -> Result<WhichFound, RunFault>
    ensures { result ≡ told ended printed }
{
    let found = printed?;
    ended?;
    Ok(found)
}

/// Answers each address as `addr` does, and goes on after units that are damaged, whose rows answer for no address.
///
/// The section is read as `read_units_around` reads it. Then the lines are printed that the whole units before its end,
/// or before the fault, answer. The faults are those of `addr` but for `Damage`: of damaged units the answer says what
/// is wrong with the first, and how many others there are.
pub fn addr_around<M: Memory, R: Source, W: Destination>(
    memory: &M,
    input: &mut R,
    output: &mut W,
    question: &Question<'_>,
    options: &Options<'_>,
) -> Result<FoundAround, RunFault>
    requires { options.now.limit ≤ SECTION_LIMIT }
    ensures ran { (bs : List ℕ) × Consumes (R.remaining input.old) (R.remaining input.new) bs
        × LocatesAround (M.refuses memory.now) options.now.dialect (strings_in options.now) question.now
        options.now.limit bs (R.remaining input.new) (W.contents output.old) (W.contents output.new) result }
    ensures blames { Blames R.follows R.fails input.old input.new (result ≡ Err RunFault.Read) }
    ensures blames_writer { BlamesWriter W.fails result }
    ensures over { IfOk result (λ around. around.damaged ≡ None → R.over input.new) }
{
    let strings = StringSections::new(options.debug_line_str, options.debug_str);
    let Ok(mut locator) = locator_of(memory, &strings, question) else {
        return Err(RunFault::NoMemory);
    };
    let ended = read_units_around(memory.alloc(), input, output, options, &mut locator);
    let printed = print_all(&locator, output, question);
    told_around(ended, printed)
}

/// What is answered where the reading around damaged units ended so, and then the lines were printed.
fn told_around(
    ended: Result<Survey, RunFault>,
    printed: Result<WhichFound, WriteFault>,
) -> Result<FoundAround, RunFault>
    ensures { result ≡ told_around ended printed }
{
    let found = printed?;
    let survey = ended?;
    Ok(FoundAround {
        found,
        damaged: survey.damaged,
    })
}

/// A locator for the places of what is asked.
fn locator_of<'s, 'o, 'q, M: Memory>(
    memory: &'q M,
    strings: &'s StringSections<'o>,
    question: &Question<'q>,
) -> Result<Locator<'s, 'o, 'q, M>, NoMemory>
    ensures made { IfOk result (λ l. IsMadeFor l (map (looked_up question.now.base) question.now.asked.now)) }
    ensures begins { IfOk result (λ l. (start : Option (List ℕ)) → Locating l l start start []) }
    ensures knows { IfOk result (λ l. Knows l question.now (strings_of strings.now)) }
    ensures memory { IfOk result (λ l. l.memory.now ≡ memory.now) }
    ensures refused { OnErr result (IsRefused (M.refuses memory.now) (length question.now.asked.now + 1)) }
{
    let places = places_of(memory, question.asked, question.base)?;
    Locator::build(
        memory,
        strings,
        question.code,
        question.directories,
        question.style,
        places.as_slice(),
    )
}

/// The places that are looked up.
fn places_of<M: Memory>(memory: &M, asked: &[Asked], base: u64) -> Result<Vec<Place>, NoMemory>
    ensures places { IfOk result (λ places. places.items ≡ map (looked_up base) asked.now) }
    ensures refused { OnErr result (IsRefused (M.refuses memory.now) (length asked.now)) }
{
    let mut places = memory.with_capacity(asked.len())?;
    for each in asked {
        places.push_reserved(each.looked_up(base));
    }
    Ok(places)
}

/// Prints the line of each address that is asked for.
fn print_all<M: Memory, W: Destination>(
    locator: &Locator<'_, '_, '_, M>,
    output: &mut W,
    question: &Question<'_>,
) -> Result<WhichFound, WriteFault>
    ensures printed { (first : locators.Locator M) (start held : Option (List ℕ)) (visits : List Visit)
        → Locating first locator.now start held visits
        → IsMadeFor first (map (looked_up question.now.base) question.now.asked.now)
        → PrintsAll (W.contents output.old) (W.contents output.new) question.now
        (answer_for first visits question.now.base) result }
    ensures blames_writer { PrintBlames W.fails result }
{
    let mut printer = Printer::new();
    let mut found = WhichFound::All;
    let mut number = 0;
    while number < question.asked.len() {
        let asked = question.asked[number];
        let answer = answer_to(locator, asked, question.base, number);
        found = also(found, is_answered(asked, answer.is_some()));
        print_line(&mut printer, output, question.style, asked, answer)?;
        number += 1;
    }
    printer.flush(output)?;
    Ok(found)
}

/// The answer to the address of this number among those that are asked for.
fn answer_to<'a, 's, M: Memory>(
    locator: &'a Locator<'s, '_, '_, M>,
    asked: Asked,
    base: u64,
    number: usize,
) -> Option<Answer<'a, 's>>
    ensures { (first : locators.Locator M) (start held : Option (List ℕ)) (visits : List Visit)
        (places : List place.Place)
        → Locating first locator.now start held visits → IsMadeFor first places
        → slice_get places number ≡ Some (looked_up base asked)
        → option_map answer_seen result ≡ answer_for first visits base asked }
{
    match asked.place(base) {
        Some(_) => locator.answer(number),
        None => None,
    }
}

/// Whether what is asked has an answer, where it is an address.
fn is_answered(asked: Asked, is_found: bool) -> bool
    ensures { result ≡ is_answered asked is_found }
{
    asked.address.is_none() || is_found
}

/// Whether all are found, with one more.
fn also(found: WhichFound, is_found: bool) -> WhichFound
    ensures { result ≡ (if is_found then found else all_found.NotAll) }
{
    if is_found { found } else { WhichFound::NotAll }
}

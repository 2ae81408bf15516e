//! The lines of addresses.

ghost use Rattle.std.specs.Prelude.{◌≡◌, ℕ, Option, IfOk, IfErr, if◌then◌else◌, option_map};
ghost use Rattle.dl_addr.specs.Location as locations;
ghost use Rattle.dl_addr.specs.Locations.{location_seen};
ghost use Rattle.dl_addr.specs.Commands.{is_answered};
ghost use Rattle.dl_addr.specs.declared.question.WhichFound.TheVariants as all_found;
ghost use Rattle.dl_dialogue.specs.Answers.{AnswersAll, Manner, Determines, answer_by};
ghost use Rattle.dl_dialogue.specs.Faults.{BlamesWriter, ReadsNothing, TellFails};
ghost use Rattle.dl_dialogue.specs.Standing.{stopped, written};
ghost use Rattle.dl_dialogue.specs.Staying.{Stays};

use crate::fault::{AnswerFault, TellFault};
use crate::telling::Tell;
use dl_addr::{Location, Style, WhichFound, print_location};
use dl_look::Asked;
use dl_memory::Memory;
use dl_output::Destination;
use dl_print::{Printer, WriteFault};
use std::alloc::Global;

/// What was answered, and how.
#[derive(Drop)]
pub struct Answers<'q> {
    style: Style<'q>,
    /// What is subtracted from each address before it is looked up.
    base: u64,
    /// Room for the path of an answer.
    path: Vec<u8>,
    /// Whether each address has an answer.
    found: WhichFound,
}

/// Whether what is asked has an answer, where it is an address.
fn is_answered(asked: Asked, is_found: bool) -> bool
    ensures { result ≡ is_answered asked is_found }
{
    asked.address.is_none() || is_found
}

/// Whether all are found, with one more.
fn also(found: WhichFound, is_found: bool) -> WhichFound
    ensures { result ≡ (if is_found then found else all_found.NotAll) }
{
    if is_found { found } else { WhichFound::NotAll }
}

/// What a write came to.
fn written(printed: Result<(), WriteFault>) -> Result<(), AnswerFault>
    ensures { result ≡ written printed }
{
    match printed {
        Ok(()) => Ok(()),
        Err(lost) => Err(AnswerFault::Write(lost)),
    }
}

/// Why it ends where nothing can be told, once the lines before it were written so.
fn stopped(printed: Result<(), WriteFault>, fault: TellFault) -> Result<(), AnswerFault>
    ensures { result ≡ stopped printed fault }
{
    match printed {
        Ok(()) => Err(AnswerFault::Tell(fault)),
        Err(lost) => Err(AnswerFault::Write(lost)),
    }
}

/// What is told of what is asked, less the base: nothing below 0, and of what is no address.
fn told<'a, M: Memory, T: Tell>(
    memory: &M,
    teller: &mut T,
    base: u64,
    asked: Asked,
    path: &'a mut Vec<u8>,
) -> Result<Option<Location<'a>>, TellFault>
    ensures told { (m : Manner) → base ≡ m.base → Determines (T.tells teller.old) m.told
        → IfOk result (λ told. option_map location_seen told ≡ answer_by m asked) }
    ensures fails { IfErr result (TellFails (T.fails_with teller.old) (T.asks teller.old) (M.refuses memory.now)) }
    ensures stays { Stays T.tells T.fails_with T.asks teller.old teller.new }
{
    match asked.place(base) {
        Some(place) => teller.tell(memory, place.address, path),
        None => Ok(None),
    }
}

impl<'q> Answers<'q> {
    ghost use Rattle.std.specs.Prelude.{◌≡◌, ◌++◌, ◌∷◌, [], ℕ, List, Option, MatchResult};
    ghost use Rattle.dl_addr.specs.Location as locations;
    ghost use Rattle.dl_look.specs.declared.asked.Asked as question;
    ghost use Rattle.std.specs.Io.KnownBytes.{Appends};
    ghost use Rattle.dl_dialogue.specs.Answers.{Determines, Manner, StopsBy, lines_by};
    ghost use Rattle.dl_asked.specs.AskedLines.{and_asked};
    ghost use Rattle.dl_dialogue.specs.Faults.{BlamesWriter, ReadsNothing, TellFails};
    ghost use Rattle.dl_dialogue.specs.Standing.{Stands};
    ghost use Rattle.dl_dialogue.specs.Staying.{Stays};
    ghost use Rattle.dl_print.specs.Printed.{Printed};

    /// Nothing was asked yet.
    pub fn new(alloc: Global, style: Style<'q>, base: u64) -> Answers<'q>
        ensures { (f : ℕ → Option locations.Location) (start : Option (List ℕ))
            (printer : Printed) → printer.pending ≡ [] → printer.out ≡ 0
            → Stands (record { style = style.entry; base = base; told = f }) start start [] printer result }
    {
        Answers {
            style,
            base,
            path: Vec::new(alloc),
            found: WhichFound::All,
        }
    }

    /// Whether each address that was asked has an answer.
    pub fn found(&self) -> WhichFound
        ensures { result ≡ self.now.found }
    {
        self.found
    }

    /// Answers what is asked by a line, which may be held back.
    pub fn answer<M: Memory, T: Tell, W: Destination>(
        &mut self,
        memory: &M,
        teller: &mut T,
        printer: &mut Printer,
        output: &mut W,
        asked: Asked,
    ) -> Result<(), AnswerFault>
        ensures stays { Stays T.tells T.fails_with T.asks teller.old teller.new }
        ensures answers { (first : T) (m : Manner) (start : Option (List ℕ)) (before : List question.Asked)
            → Stays T.tells T.fails_with T.asks first teller.old → Determines (T.tells first) m.told
            → Stands m start (W.contents output.old) before printer.old self.old
            → MatchResult result
            (λ _. Stands m start (W.contents output.new) (before ++ asked ∷ []) printer.new self.new)
            (StopsBy m (TellFails (T.fails_with first) (T.asks first) (M.refuses memory.now)) start (W.contents output.new) (before ++ asked ∷ [])) }
        ensures blames_writer { BlamesWriter W.fails result }
        ensures reads { ReadsNothing result }
    {
        match told(memory, teller, self.base, asked, &mut self.path) {
            Ok(location) => {
                self.found = also(self.found, is_answered(asked, location.is_some()));
                written(print_location(printer, output, self.style, asked, location))
            }
            Err(fault) => stopped(printer.flush(output), fault),
        }
    }

    /// The same, where something is asked.
    pub fn answer_if_asked<M: Memory, T: Tell, W: Destination>(
        &mut self,
        memory: &M,
        teller: &mut T,
        printer: &mut Printer,
        output: &mut W,
        asked: Option<Asked>,
    ) -> Result<(), AnswerFault>
        ensures stays { Stays T.tells T.fails_with T.asks teller.old teller.new }
        ensures answers { (first : T) (m : Manner) (start : Option (List ℕ)) (before : List question.Asked)
            → Stays T.tells T.fails_with T.asks first teller.old → Determines (T.tells first) m.told
            → Stands m start (W.contents output.old) before printer.old self.old
            → MatchResult result
            (λ _. Stands m start (W.contents output.new) (before ++ and_asked asked []) printer.new self.new)
            (StopsBy m (TellFails (T.fails_with first) (T.asks first) (M.refuses memory.now)) start (W.contents output.new) (before ++ and_asked asked [])) }
        ensures blames_writer { BlamesWriter W.fails result }
        ensures reads { ReadsNothing result }
    {
        match asked {
            Some(asked) => self.answer(memory, teller, printer, output, asked),
            None => Ok(()),
        }
    }

    /// The same, and writes all lines that were held back.
    pub fn answer_last<M: Memory, T: Tell, W: Destination>(
        &mut self,
        memory: &M,
        teller: &mut T,
        printer: &mut Printer,
        output: &mut W,
        asked: Option<Asked>,
    ) -> Result<(), AnswerFault>
        ensures stays { Stays T.tells T.fails_with T.asks teller.old teller.new }
        ensures answers { (first : T) (m : Manner) (start : Option (List ℕ)) (before : List question.Asked)
            → Stays T.tells T.fails_with T.asks first teller.old → Determines (T.tells first) m.told
            → Stands m start (W.contents output.old) before printer.old self.old
            → MatchResult result
            (λ _. Stands m start (W.contents output.new) (before ++ and_asked asked []) printer.new self.new
            × Appends start (W.contents output.new) (lines_by m (before ++ and_asked asked [])))
            (StopsBy m (TellFails (T.fails_with first) (T.asks first) (M.refuses memory.now)) start (W.contents output.new) (before ++ and_asked asked [])) }
        ensures blames_writer { BlamesWriter W.fails result }
        ensures reads { ReadsNothing result }
    {
        self.answer_if_asked(memory, teller, printer, output, asked)?;
        self.flush(printer, output)
    }

    /// Writes the lines that were held back.
    pub fn flush<W: Destination>(
        &self,
        printer: &mut Printer,
        output: &mut W,
    ) -> Result<(), AnswerFault>
        ensures flushed { (m : Manner) (start : Option (List ℕ)) (asked : List question.Asked)
            → Stands m start (W.contents output.old) asked printer.old self.now → MatchResult result
            (λ _. Stands m start (W.contents output.new) asked printer.new self.now
            × Appends start (W.contents output.new) (lines_by m asked))
            (StopsBy m (λ _. ⊥) start (W.contents output.new) asked) }
        ensures blames_writer { BlamesWriter W.fails result }
        ensures reads { ReadsNothing result }
    {
        written(printer.flush(output))
    }
}

/// Answers each address with a line, in the order in which they are asked: its location, by what `teller` tells of it, or
/// that there is none. All lines are written out.
///
/// Where nothing can be told of an address, the lines of those before it are written out, and its fault is answered.
pub fn answer_all<M: Memory, T: Tell, W: Destination>(
    memory: &M,
    teller: &mut T,
    style: Style<'_>,
    base: u64,
    asked: &[Asked],
    output: &mut W,
) -> Result<WhichFound, AnswerFault>
    ensures answers { (f : ℕ → Option locations.Location) → Determines (T.tells teller.old) f
        → AnswersAll (record { style = style.entry; base = base; told = f }) (TellFails (T.fails_with teller.old) (T.asks teller.old) (M.refuses memory.now)) asked.now
        (W.contents output.old) (W.contents output.new) result }
    ensures blames_writer { BlamesWriter W.fails result }
    ensures reads { ReadsNothing result }
{
    let mut printer = Printer::new();
    let mut answers = Answers::new(memory.alloc(), style, base);
    for each in asked {
        answers.answer(memory, teller, &mut printer, output, *each)?;
    }
    answers.flush(&mut printer, output)?;
    Ok(answers.found())
}

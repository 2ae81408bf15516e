//! A dialogue: lines that ask, and lines that answer them.

ghost use Rattle.std.specs.Prelude.{◌≡◌, [], ℕ, Bool, List, Option};
ghost use Rattle.std.specs.Io.KnownBytes.{Consumes};
ghost use Rattle.dl_input.specs.Failing.{Blames};
ghost use Rattle.dl_addr.specs.Location.{Location};
ghost use Rattle.dl_dialogue.specs.Answers.{Determines};
ghost use Rattle.dl_dialogue.specs.Dialogues.{AnswersLines, IsLong};
ghost use Rattle.dl_dialogue.specs.Faults.{BlamesWriter, ReadsNothing, TellFails};

use crate::answers::Answers;
use crate::fault::AnswerFault;
use crate::telling::Tell;
use dl_addr::{Style, WhichFound};
use dl_asked::{CurrentLine, LastLine, OtherLine};
use dl_input::Source;
use dl_memory::Memory;
use dl_output::Destination;
use dl_print::Printer;
use dl_sections::Input;
use std::alloc::Global;

/// What came of all lines.
#[derive(Debug, Drop)]
pub struct Answered {
    /// Whether each address has an answer.
    pub found: WhichFound,
    /// The first line that is no address.
    pub no_address: Option<OtherLine>,
}

/// A dialogue over an input, which is taken piece by piece.
#[derive(Drop)]
pub struct Dialogue<'q> {
    answers: Answers<'q>,
    line: CurrentLine,
}

impl<'q> Dialogue<'q> {
    ghost use Rattle.std.specs.Prelude.{◌≡◌, ◌++◌, ◌∷◌, [], ℕ, Bool, List, Option, MatchResult};
    ghost use Rattle.dl_addr.specs.Location.{Location};
    ghost use Rattle.dl_asked.specs.AskedLines.{asked_in};
    ghost use Rattle.dl_dialogue.specs.Answers.{Determines, Manner, StopsBy};
    ghost use Rattle.dl_dialogue.specs.Dialogues.{Talks, StopsIn, Ends};
    ghost use Rattle.dl_dialogue.specs.Faults.{BlamesWriter, ReadsNothing, TellFails};
    ghost use Rattle.dl_dialogue.specs.Standing.{Speaks};
    ghost use Rattle.dl_dialogue.specs.Staying.{Stays};
    ghost use Rattle.dl_print.specs.Printed.{Printed};

    /// A dialogue of which nothing was said yet. `base` is subtracted from each address before it is looked up; with `hex`
    /// digits without `0x` are hexadecimal too.
    pub fn new(alloc: Global, style: Style<'q>, base: u64, hex: bool) -> Dialogue<'q>
        ensures { (f : ℕ → Option Location) (start : Option (List ℕ))
            (printer : Printed) → printer.pending ≡ [] → printer.out ≡ 0
            → Talks (record { style = style.entry; base = base; told = f }) hex start start [] printer result }
    {
        Dialogue {
            answers: Answers::new(alloc, style, base),
            line: CurrentLine::new(hex),
        }
    }

    /// Takes the next piece of the input, and answers each line of it that has ended. Nothing is held back: when this is
    /// done, all answers are written out.
    pub fn take<M: Memory, T: Tell, W: Destination>(
        &mut self,
        memory: &M,
        teller: &mut T,
        printer: &mut Printer,
        output: &mut W,
        piece: &[u8],
    ) -> Result<(), AnswerFault>
        ensures stays { Stays T.tells T.fails_with T.asks teller.old teller.new }
        ensures answers { (first : T) (m : Manner) (hex : Bool) (start : Option (List ℕ)) (done : List ℕ)
            → Stays T.tells T.fails_with T.asks first teller.old → Determines (T.tells first) m.told
            → Talks m hex start (W.contents output.old) done printer.old self.old
            → MatchResult result
            (λ _. Talks m hex start (W.contents output.new) (done ++ piece.now) printer.new self.new)
            (StopsIn m hex (TellFails (T.fails_with first) (T.asks first) (M.refuses memory.now)) start (W.contents output.new) (done ++ piece.now)) }
        ensures blames_writer { BlamesWriter W.fails result }
        ensures reads { ReadsNothing result }
    {
        for byte in piece {
            self.take_byte(memory, teller, printer, output, *byte)?;
        }
        self.answers.flush(printer, output)
    }

    /// Takes a byte. The line that it ends is answered, which may be held back.
    fn take_byte<M: Memory, T: Tell, W: Destination>(
        &mut self,
        memory: &M,
        teller: &mut T,
        printer: &mut Printer,
        output: &mut W,
        byte: u8,
    ) -> Result<(), AnswerFault>
        ensures stays { Stays T.tells T.fails_with T.asks teller.old teller.new }
        ensures answers { (first : T) (m : Manner) (hex : Bool) (start : Option (List ℕ)) (done : List ℕ)
            → Stays T.tells T.fails_with T.asks first teller.old → Determines (T.tells first) m.told
            → Speaks m hex start (W.contents output.old) done printer.old self.old
            → MatchResult result
            (λ _. Speaks m hex start (W.contents output.new) (done ++ byte ∷ []) printer.new self.new)
            (StopsIn m hex (TellFails (T.fails_with first) (T.asks first) (M.refuses memory.now)) start (W.contents output.new) (done ++ byte ∷ [])) }
        ensures blames_writer { BlamesWriter W.fails result }
        ensures reads { ReadsNothing result }
    {
        let asked = self.line.take(byte);
        self.answers
            .answer_if_asked(memory, teller, printer, output, asked)
    }

    /// Takes the end of the input, and answers the last line, where that lacks its 0x0a.
    pub fn end<M: Memory, T: Tell, W: Destination>(
        self,
        memory: &M,
        teller: &mut T,
        printer: &mut Printer,
        output: &mut W,
    ) -> Result<Answered, AnswerFault>
        ensures stays { Stays T.tells T.fails_with T.asks teller.old teller.new }
        ensures answers { (first : T) (m : Manner) (hex : Bool) (start : Option (List ℕ)) (done : List ℕ)
            → Stays T.tells T.fails_with T.asks first teller.old → Determines (T.tells first) m.told
            → Talks m hex start (W.contents output.old) done printer.old self.entry
            → MatchResult result (Ends m hex start (W.contents output.new) done)
            (StopsBy m (TellFails (T.fails_with first) (T.asks first) (M.refuses memory.now)) start (W.contents output.new) (asked_in hex done)) }
        ensures blames_writer { BlamesWriter W.fails result }
        ensures reads { ReadsNothing result }
    {
        let Dialogue { mut answers, line } = self;
        let LastLine { asked, no_address } = line.end();
        answers.answer_last(memory, teller, printer, output, asked)?;
        Ok(Answered {
            found: answers.found(),
            no_address,
        })
    }
}

/// Answers the addresses that are asked for on the input, one a line, each by a line on the output, to the input's end:
/// before more is read, all answers to the lines that were read are written out.
///
/// A line ends with 0x0a, before which one 0x0d is dropped; the last line may lack its 0x0a. Spaces and tabs around an
/// address are dropped, and so are empty lines. A line that is no address has no answer. `base` is subtracted from each
/// address before it is looked up; with `hex` digits without `0x` are hexadecimal too.
///
/// `Input` where the reader fails: then each line that has ended was answered. Where nothing can be told of an address, the
/// lines before it were answered. Memory is taken for one path.
pub fn answer_lines<M: Memory, T: Tell, R: Source, W: Destination>(
    memory: &M,
    teller: &mut T,
    style: Style<'_>,
    base: u64,
    hex: bool,
    input: &mut R,
    output: &mut W,
) -> Result<Answered, AnswerFault>
    ensures answers { (bs : List ℕ) × Consumes (R.remaining input.old) (R.remaining input.new) bs
        × ((f : ℕ → Option Location) → Determines (T.tells teller.old) f
        → AnswersLines (record { style = style.entry; base = base; told = f }) hex (TellFails (T.fails_with teller.old) (T.asks teller.old) (M.refuses memory.now)) bs
        (R.remaining input.new) (W.contents output.old) (W.contents output.new) result) }
    ensures blames { Blames R.follows R.fails input.old input.new ((result ≡ Err AnswerFault.Input)
        × ¬ IsLong (R.remaining input.old) (R.remaining input.new)) }
    ensures blames_writer { BlamesWriter W.fails result }
{
    let mut buffer = Input::new();
    let mut printer = Printer::new();
    let mut dialogue = Dialogue::new(memory.alloc(), style, base, hex);
    for _ in 0..u64::MAX {
        let Ok(piece) = buffer.next_piece(input) else {
            return Err(AnswerFault::Input);
        };
        if piece.is_empty() {
            return dialogue.end(memory, teller, &mut printer, output);
        }
        dialogue.take(memory, teller, &mut printer, output, piece)?;
    }
    Err(AnswerFault::Input)
}

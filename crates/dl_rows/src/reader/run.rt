//! A unit in pieces, where memory may be refused and asked for again.

ghost use Rattle.std.specs.Prelude.{◌≡◌, ◌≤◌, ◌++◌, ◌∷◌, [], ℕ, List, length, take, drop};
ghost use Rattle.dl_rows.specs.Reading.{told};
ghost use Rattle.dl_rows.specs.Heard.{Hears};

use crate::reader::{Event, Reader};
use dl_head::Fault;

/// What hears the events of a unit.
pub trait Listener {
    ghost use Rattle.dl_rows.specs.declared.reader.Event.{Event};

    /// What a listener stands for that heard these events.
    ghost heard: { Self → List Event → Type 0 };

    fn hear(&mut self, event: Event)
        ensures { (events : List Event) → heard self.old events → heard self.new (events ++ event ∷ []) };
}

/// What a run of turns came to.
#[derive(Clone, Copy, Debug, PartialEq, Eq)]
pub struct Run {
    /// How many bytes were taken.
    pub taken: usize,
    /// How many turns ended where memory was refused.
    pub refused: usize,
    /// Whether the unit's bytes are all taken, and the reader told so.
    pub ended: bool,
}

impl Reader {
    ghost use Rattle.dl_rows.specs.ReaderStands.{StandsFor};
    ghost use Rattle.dl_rows.specs.LineUnit.{IsUnit};
    ghost use Rattle.dl_rows.specs.Runs.{Traced, RunIs, UnitRunIs};

    /// Takes the bytes in turns, up to the unit's end or a fault. A turn offers at most its number of
    /// the bytes that aren't taken, and ends after an event, or early where memory is refused; the
    /// next turn offers the same byte again. The listener hears all but More, End and NoMemory.
    pub fn run<L: Listener>(
        &mut self,
        bytes: &[u8],
        turns: &[usize],
        listener: &mut L,
    ) -> Result<Run, Fault>
        ensures traced { (b : List ℕ) → StandsFor self.old b
            → Traced self.old.dialect b bytes.now turns.now (Hears L.heard listener.old listener.new) result self.new }
        ensures runs { (b : List ℕ) → StandsFor self.old b
            → (heard : List Event) × Hears L.heard listener.old listener.new heard
            × RunIs self.old.dialect b bytes.now turns.now heard result }
        ensures unit { (b u rest : List ℕ) → StandsFor self.old b → b ++ bytes.now ≡ u ++ rest
            → IsUnit self.old.dialect u → (heard : List Event) × Hears L.heard listener.old listener.new heard
            × UnitRunIs self.old.dialect b bytes.now turns.now u heard result }
        ensures dialect { self.new.dialect ≡ self.old.dialect }
    {
        let mut run = Run {
            taken: 0,
            refused: 0,
            ended: false,
        };
        for turn in turns {
            let fed = self.feed(piece(bytes, run.taken, *turn))?;
            run.taken += fed.used;
            hand_on(listener, fed.event);
            match fed.event {
                Event::NoMemory => run.refused += 1,
                Event::End => {
                    run.ended = true;
                    return Ok(run);
                }
                _ => {}
            }
        }
        Ok(run)
    }
}

/// Lets a listener hear an event, unless it only says how the piece was used.
fn hand_on<L: Listener>(listener: &mut L, event: Event)
    ensures { Hears L.heard listener.old listener.new (told event) }
{
    match event {
        Event::More | Event::End | Event::NoMemory => {}
        other => listener.hear(other),
    }
}

/// So many of the bytes from a place on, or all of these.
fn piece(bytes: &[u8], start: usize, len: usize) -> &[u8]
    requires { start ≤ length bytes.now }
    ensures { result.now ≡ take len (drop start bytes.now) }
{
    let rest = &bytes[start..];
    rest.get(..len).unwrap_or(rest)
}

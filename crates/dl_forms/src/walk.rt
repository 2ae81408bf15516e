//! A walk over the units of a section, whose bytes come in pieces. Section 6.2.4.

ghost use Rattle.std.specs.Prelude.{◌≡◌, ◌↔◌, ◌++◌, ℕ, List, [], length, IfOk, IfErr, IsTrue};
ghost use Rattle.dl_forms.specs.Names.{RefusesCellFrom, Names};
ghost use Rattle.dl_forms.specs.Standing.{StandsFor};

use crate::state::{WalkStage, advance};
use dl_head::{Dialect, HeadReader};
use dl_memory::NoMemory;
use std::alloc::Global;

/// A walk over the units of a section, which tells whether a table of one of them names `.debug_str`: a pair of the
/// format of its directories or files has DW_FORM_strp.
///
/// Of each unit it reads the header, and passes over what follows by the unit's length, as over units of other
/// versions and over what follows a fault in a header. Where that length isn't good, it ends. Memory is taken for a
/// header at a time.
#[derive(Drop)]
pub struct StringWalk {
    alloc: Global,
    dialect: Dialect,
    state: WalkStage,
}

impl StringWalk {
    /// No byte yet of a section of this dialect. It takes no memory.
    pub fn new(alloc: Global, dialect: Dialect) -> StringWalk
        ensures stands { StandsFor result [] }
        ensures dialect { result.dialect ≡ dialect }
    {
        StringWalk {
            alloc,
            dialect,
            state: WalkStage::Head(HeadReader::new(alloc, dialect)),
        }
    }

    /// Takes the next bytes of the section. Where memory is refused for a header, the walk is used up.
    pub fn feed(self, piece: &[u8]) -> Result<StringWalk, NoMemory>
        ensures stands { (b : List ℕ) → StandsFor self b → IfOk result (λ walk. StandsFor walk (b ++ piece.now)) }
        ensures dialect { IfOk result (λ walk. walk.dialect ≡ self.dialect) }
        ensures memory { (b : List ℕ) → StandsFor self b
            → IfErr result (λ error. RefusesCellFrom self.dialect (length b) (b ++ piece.now)) }
    {
        let StringWalk {
            alloc,
            dialect,
            mut state,
        } = self;
        let mut at = 0;
        for _ in 0..piece.len() {
            if at == piece.len() {
                break;
            }
            let Ok((next, used)) = advance(alloc, dialect, state, &piece[at..]) else {
                return Err(NoMemory);
            };
            state = next;
            at += used;
        }
        Ok(StringWalk {
            alloc,
            dialect,
            state,
        })
    }

    /// Whether a table of a unit in the bytes taken names the section.
    pub fn names_str(&self) -> bool
        ensures { (b : List ℕ) → StandsFor self.now b → IsTrue result ↔ Names self.now.dialect b }
    {
        matches!(self.state, WalkStage::Named)
    }

    /// Whether that is settled, whatever bytes follow.
    pub fn is_over(&self) -> bool
        ensures settled { (b rest : List ℕ) → StandsFor self.now b → IsTrue result
            → Names self.now.dialect (b ++ rest) ↔ Names self.now.dialect b }
        ensures named { (b : List ℕ) → StandsFor self.now b → Names self.now.dialect b → IsTrue result }
    {
        matches!(self.state, WalkStage::Named | WalkStage::Ended)
    }
}

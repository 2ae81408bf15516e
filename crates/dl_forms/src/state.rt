//! Where a walk over the units of a section is. Section 6.2.4.

ghost use Rattle.std.specs.Prelude.{◌≡◌, ◌≤◌, ◌++◌, ℕ, List, length, take, IfOk, IfErr};
ghost use Rattle.std.specs.Option.{option_copied};
ghost use Rattle.dl_forms.specs.declared.state.WalkStage.TheVariants as state;
ghost use Rattle.dl_forms.specs.Names.{RefusesCellFrom, has_strp, is_strp, named_in};
ghost use Rattle.dl_forms.specs.Standing.{Begins, IsHead, Onward, StandsAt};

use dl_head::{Dialect, Form, HeadReader, HeadStep, Header, Pair};
use dl_memory::NoMemory;
use std::alloc::Global;

/// Where a walk is.
#[derive(Drop)]
pub enum WalkStage {
    /// In the head of a unit.
    Head(HeadReader),
    /// After the head of a unit, so many bytes before its end.
    Body(u64),
    /// After a header that names the section.
    Named,
    /// Where no unit begins whose length is known. Nothing after it is read.
    Ended,
}

fn is_strp(form: Form) -> bool
    ensures { result ≡ is_strp form }
{
    matches!(form, Form::Strp)
}

/// Whether one of the pairs has DW_FORM_strp.
fn has_strp(pairs: &[Pair]) -> bool
    ensures { result ≡ has_strp pairs.now }
{
    pairs.iter().any(|pair| is_strp(pair.form))
}

/// Whether a table of the header names the section, where there is a header.
fn is_named(header: Option<&Header>) -> bool
    ensures { result ≡ named_in (option_copied header.entry) }
{
    match header {
        Some(header) => {
            has_strp(header.directories().pairs()) || has_strp(header.files().pairs())
        }
        None => false,
    }
}

/// Where a walk is after the head of a unit, or after the byte that decides that it is damaged.
fn after_head(reader: &HeadReader) -> WalkStage
    ensures { (b w : List ℕ) → IsHead reader.now w → Onward reader.now.dialect b w
        → StandsAt reader.now.dialect result b }
{
    if is_named(reader.header()) {
        return WalkStage::Named;
    }
    match reader.unit_len() {
        Some(len) => WalkStage::Body(len.saturating_sub(reader.taken())),
        None => WalkStage::Ended,
    }
}

/// Takes bytes of the head of a unit: where the walk is after them, and how many they are.
fn read_head(reader: HeadReader, piece: &[u8]) -> Result<(WalkStage, usize), NoMemory>
    requires { 1 ≤ length piece.now }
    ensures within { IfOk result (λ r. r.1 ≤ length piece.now) }
    ensures stands { (b u : List ℕ) → Begins reader u → Onward reader.dialect b u
        → IfOk result (λ r. (1 ≤ r.1) × StandsAt reader.dialect r.0 (b ++ take r.1 piece.now)) }
    ensures memory { (b u : List ℕ) → Begins reader u → Onward reader.dialect b u
        → IfErr result (λ error. RefusesCellFrom reader.dialect (length b) (b ++ piece.now)) }
{
    let mut reader = reader;
    let (used, step) = reader.offer(piece);
    match step {
        HeadStep::More => Ok((WalkStage::Head(reader), used)),
        HeadStep::Done | HeadStep::Foreign(_) | HeadStep::Fault(_) => {
            Ok((after_head(&reader), used))
        }
        HeadStep::NoMemory => Err(NoMemory),
    }
}

/// Takes bytes of a section: where the walk is after them, and how many they are.
pub fn advance(
    alloc: Global,
    dialect: Dialect,
    state: WalkStage,
    piece: &[u8],
) -> Result<(WalkStage, usize), NoMemory>
    requires { 1 ≤ length piece.now }
    ensures within { IfOk result (λ r. r.1 ≤ length piece.now) }
    ensures stands { (b : List ℕ) → StandsAt dialect state b
        → IfOk result (λ r. (1 ≤ r.1) × StandsAt dialect r.0 (b ++ take r.1 piece.now)) }
    ensures memory { (b : List ℕ) → StandsAt dialect state b
        → IfErr result (λ error. RefusesCellFrom dialect (length b) (b ++ piece.now)) }
{
    match state {
        WalkStage::Head(reader) => read_head(reader, piece),
        WalkStage::Body(left) => after_body(alloc, dialect, left, piece),
        WalkStage::Named => Ok((WalkStage::Named, piece.len())),
        WalkStage::Ended => Ok((WalkStage::Ended, piece.len())),
    }
}

/// The same after the head of a unit, so many bytes before its end.
fn after_body(
    alloc: Global,
    dialect: Dialect,
    left: u64,
    piece: &[u8],
) -> Result<(WalkStage, usize), NoMemory>
    requires { 1 ≤ length piece.now }
    ensures within { IfOk result (λ r. r.1 ≤ length piece.now) }
    ensures stands { (b : List ℕ) → StandsAt dialect (state.Body left) b
        → IfOk result (λ r. (1 ≤ r.1) × StandsAt dialect r.0 (b ++ take r.1 piece.now)) }
    ensures memory { (b : List ℕ) → StandsAt dialect (state.Body left) b
        → IfErr result (λ error. RefusesCellFrom dialect (length b) (b ++ piece.now)) }
{
    if left >= piece.len() as u64 {
        return Ok((WalkStage::Body(left - piece.len() as u64), piece.len()));
    }
    let left = left as usize;
    let Ok((state, used)) = read_head(HeadReader::new(alloc, dialect), &piece[left..]) else {
        return Err(NoMemory);
    };
    Ok((state, left + used))
}

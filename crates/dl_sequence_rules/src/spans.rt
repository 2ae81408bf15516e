//! Sequences as the spans of which cuts are made. Section 6.2.2.

ghost use Rattle.std.specs.Prelude.{◌≡◌, length, IfOk, OnErr};
ghost use Rattle.dl_memory.specs.Refusals.{IsRefused};
ghost use Rattle.dl_sequence_rules.specs.Cutting.{address_span_of, address_spans_of, has_address, span_of, spans_of};

use crate::ended::Ended;
use crate::touching::has_address;
use dl_look::{Place, Span};
use dl_memory::{Memory, NoMemory};

/// The least place.
pub(crate) const LEAST: Place = Place {
    address: 0,
    op_index: 0,
};

/// A span that covers the same places.
fn span_of(sequence: &Ended) -> Span
    ensures { result ≡ span_of sequence.now }
{
    Span {
        start: 0,
        len: 0,
        first: sequence.first,
        last: sequence.row.place,
        rising: true,
    }
}

/// The same where the sequence covers an address, and else one that covers nothing.
fn address_span_of(sequence: &Ended) -> Span
    ensures { result ≡ address_span_of sequence.now }
{
    if has_address(sequence) {
        return span_of(sequence);
    }
    Span {
        start: 0,
        len: 0,
        first: LEAST,
        last: LEAST,
        rising: false,
    }
}

/// A span for each sequence.
pub(crate) fn spans_of<M: Memory>(memory: &M, sequences: &[Ended]) -> Result<Vec<Span>, NoMemory>
    ensures spans { IfOk result (λ spans. spans.items ≡ spans_of sequences.now) }
    ensures refused { OnErr result (IsRefused (M.refuses memory.now) (length sequences.now)) }
{
    let mut spans = memory.with_capacity(sequences.len())?;
    for sequence in sequences {
        spans.push_reserved(span_of(sequence));
    }
    Ok(spans)
}

/// A span for each sequence, of which only those cover places that cover an address.
pub(crate) fn address_spans_of<M: Memory>(
    memory: &M,
    sequences: &[Ended],
) -> Result<Vec<Span>, NoMemory>
    ensures spans { IfOk result (λ spans. spans.items ≡ address_spans_of sequences.now) }
    ensures refused { OnErr result (IsRefused (M.refuses memory.now) (length sequences.now)) }
{
    let mut spans = memory.with_capacity(sequences.len())?;
    for sequence in sequences {
        spans.push_reserved(address_span_of(sequence));
    }
    Ok(spans)
}

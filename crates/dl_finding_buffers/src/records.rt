//! Records of findings, written into a room that C hands in.

ghost use Rattle.std.specs.Prelude.{◌≡◌, ◌≤◌, ◌+◌, ◌*◌, List, length, map, take, drop};
ghost use Rattle.dl_buffers.specs.UnitCalls.{written_over};
ghost use Rattle.dl_findings.specs.FindingRecord.{finding_record};
ghost use Rattle.dl_findings.specs.FindingTold.{findings_text};
ghost use Rattle.dl_findings.specs.declared.finding.Finding.{Finding};
ghost use Rattle.dl_findings.specs.declared.finding_told.FindingForm.TheVariants as forms;

use dl_source_buffers::put;

/// How many bytes a record has.
const RECORD_LEN: usize = 72;

/// Writes the records that a text is made of into a room, as far as they fit, and tells how many there are.
pub fn put_records(text: &[u8], room: &mut [[u8; RECORD_LEN]], count: &mut usize)
    ensures written { (found : List Finding) → text.now ≡ findings_text forms.Record found
        → room.new ≡ written_over room.old (map finding_record found) }
    ensures count { (found : List Finding) → text.now ≡ findings_text forms.Record found → count.new ≡ length found }
{
    let records = text.len() / RECORD_LEN;
    for number in 0..records {
        put(room, number, record_at(text, number));
    }
    *count = records;
}

/// The record of this number, from 0 on.
fn record_at(text: &[u8], number: usize) -> [u8; RECORD_LEN]
    requires { number * 72 + 72 ≤ length text.now }
    ensures { result ≡ take 72 (drop (number * 72) text.now) }
{
    let begin = number * RECORD_LEN;
    let mut record = [0; RECORD_LEN];
    record.copy_from_slice(&text[begin..begin + RECORD_LEN]);
    record
}

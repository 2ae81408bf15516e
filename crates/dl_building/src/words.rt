//! The call that tells the text of what is wrong with a file.

ghost use Rattle.std.specs.Prelude.{◌≡◌, length};
ghost use Rattle.dl_buffers.specs.UnitCalls.{written_over};
ghost use Rattle.dl_building.specs.FileFaultTexts.{file_fault_words};

use dl_buffers::room::fill;

/// The words for a kind of fault of a file; none where no call tells it of a file.
fn words(kind: u32) -> &'static [u8]
    ensures { result.now ≡ file_fault_words kind }
{
    match kind {
        32 => b"not an ELF file",
        33 => b"damaged ELF file",
        34 => b"no section .debug_line",
        35 => b"a section is compressed otherwise than with zlib",
        36 => b"damaged zlib stream of a section",
        37 => b"unknown relocation",
        38 => b"relocation outside its section",
        39 => b"section too long",
        _ => b"",
    }
}

/// Writes what is wrong with a file, by the kind of its fault, as far as there is room, and answers how many bytes the text
/// has. What it leaves of the room stays as it was.
pub fn file_fault_text(kind: u32, text: &mut [u8]) -> usize
    ensures written { text.new ≡ written_over text.old (file_fault_words kind) }
    ensures len { result ≡ length (file_fault_words kind) }
{
    let words = words(kind);
    fill(text, words);
    words.len()
}

//! What is kept of the paths of the files that answer.

ghost use Rattle.std.specs.Prelude.{◌≡◌};
ghost use Rattle.std.specs.List.{list_all};
ghost use Rattle.dl_path.specs.Shown.{is_plain};
ghost use Rattle.dl_addr.specs.Kept.{bytes_seen};

use dl_path::{Path, is_all_plain};
use std::marker::Model;

/// The bytes of a text that is kept. The string sections are held as long as the texts, those of headers aren't.
#[derive(Drop)]
pub enum KeptBytes<'s> {
    Lent(&'s [u8]),
    Copied(Vec<u8>),
}

/// A text that is kept, seen as its bytes.
#[derive(Drop)]
pub struct KeptText<'s> {
    bytes: KeptBytes<'s>,
    /// Whether all bytes stand for themselves, in a location and in a JSON string.
    all_plain: bool,
}

impl<'s> Model for KeptText<'s> {
    ghost use Rattle.std.specs.Prelude.{◌≡◌, ℕ, List};
    ghost use Rattle.std.specs.List.{list_all};
    ghost use Rattle.dl_path.specs.Shown.{is_plain};
    ghost use Rattle.dl_addr.specs.Kept.{bytes_seen};

    ghost Value = { List ℕ };

    ghost view = { λ t. bytes_seen t.bytes };

    ghost invariant = { λ t. t.all_plain ≡ list_all is_plain (bytes_seen t.bytes) };
}

/// The unit of a file.
#[derive(Clone, Copy)]
pub struct PathUnit {
    /// Its offset in the section.
    pub offset: u64,
    /// Whether directory 0 of its table is that of the compilation.
    pub has_directory_0: bool,
}

/// The path of a file, in the numbers of its texts.
#[derive(Clone, Copy)]
pub struct FilePath {
    pub unit: PathUnit,
    pub base: Option<usize>,
    pub directory: Option<usize>,
    /// None where the path isn't known.
    pub name: Option<usize>,
}

/// The paths of the files that answer. Each text of a unit is among them once.
#[derive(Drop)]
pub struct Paths<'s> {
    pub files: Vec<FilePath>,
    pub texts: Vec<KeptText<'s>>,
}

/// A path, with the texts that its numbers say.
#[derive(Clone, Copy)]
pub struct KeptPath<'a, 's> {
    pub texts: &'a [KeptText<'s>],
    pub file: &'a FilePath,
    /// The compilation directory, where the path is printed under it.
    pub root: Option<&'a [u8]>,
}

/// The bytes of a text.
fn slice_of<'a>(bytes: &'a KeptBytes<'_>) -> &'a [u8]
    ensures { result.now ≡ bytes_seen bytes.now }
{
    match bytes {
        KeptBytes::Lent(bytes) => bytes,
        KeptBytes::Copied(bytes) => bytes.as_slice(),
    }
}

impl<'s> KeptText<'s> {
    ghost use Rattle.std.specs.Prelude.{◌≡◌};
    ghost use Rattle.std.specs.List.{list_all};
    ghost use Rattle.dl_path.specs.Shown.{is_plain};
    ghost use Rattle.dl_addr.specs.Kept.{bytes_seen};

    /// A text of these bytes.
    pub fn new(bytes: KeptBytes<'s>) -> KeptText<'s>
        ensures { result ≡ bytes_seen bytes.entry }
    {
        let all_plain = is_all_plain(slice_of(&bytes));
        KeptText { bytes, all_plain }
    }

    /// The bytes of the text.
    pub fn bytes(&self) -> &[u8]
        ensures { result.now ≡ self.now }
    {
        slice_of(&self.bytes)
    }

    /// Whether all bytes stand for themselves, in a location and in a JSON string.
    pub fn is_plain(&self) -> bool
        ensures { result ≡ list_all is_plain self.now }
    {
        self.all_plain
    }
}

impl<'a, 's> KeptPath<'a, 's> {
    ghost use Rattle.std.specs.Prelude.{◌≡◌, option_map, slice_get};
    ghost use Rattle.std.specs.Option.{option_and_then, option_copied};
    ghost use Rattle.dl_path.specs.Parts.{path_seen};
    ghost use Rattle.dl_addr.specs.Texts.{path_at, text_or_none};

    /// The path as the unit's table has it, in slices.
    pub fn parts(self) -> Option<Path<'a>>
        ensures { option_map path_seen result ≡ path_at self.entry.texts.now self.entry.file.now }
    {
        let name = self.text(self.file.name)?;
        Some(Path {
            base: self.bytes_or_none(self.file.base),
            directory: self.bytes_or_none(self.file.directory),
            name: name.bytes(),
        })
    }

    /// The bytes of the text of this number, or none where there is no such text.
    fn bytes_or_none(self, number: Option<usize>) -> &'a [u8]
        ensures { result.now ≡ text_or_none self.entry.texts.now number }
    {
        match self.text(number) {
            Some(text) => text.bytes(),
            None => b"",
        }
    }

    /// The text of this number.
    pub fn text(self, number: Option<usize>) -> Option<&'a KeptText<'s>>
        ensures { option_copied result ≡ option_and_then (slice_get self.entry.texts.now) number }
    {
        self.texts.get(number?)
    }
}

//! Texts as they are printed in a location.

ghost use Rattle.std.specs.Prelude.{◌≡◌, ◌≢◌, ◌<◌, ◌≤◌, ◌++◌, true, drop, length, take};
ghost use Rattle.std.specs.List.{list_all};
ghost use Rattle.std.specs.Str.{is_utf8};
ghost use Rattle.dl_print.specs.Digits.{last_digit};
ghost use Rattle.dl_print.specs.Output.{BlamesWriter, Prints};
ghost use Rattle.dl_path.specs.Fronts.{front_text, shown_byte};
ghost use Rattle.dl_path.specs.Shown.{character_len, is_control, is_plain, numbered, shown};

use dl_output::Destination;
use dl_print::{Printer, WriteFault};
use std::str;

/// Prints a text as it stands in a location: a backslash as two, control bytes and what isn't UTF-8 by their numbers.
pub fn print_shown<W: Destination>(
    printer: &mut Printer,
    output: &mut W,
    text: &[u8],
) -> Result<(), WriteFault>
    ensures printed { Prints (W.contents output.old) (W.contents output.new) printer.old printer.new
        (shown text.now) result }
    ensures blames { BlamesWriter W.fails result }
{
    if is_all_plain(text) {
        return printer.put(output, text);
    }
    let mut at = 0;
    while at < text.len() {
        let rest = &text[at..];
        let len = front_len(rest);
        print_front(printer, output, &rest[..len])?;
        at += len;
    }
    Ok(())
}

/// How many bytes at the front of a text are printed in one go: all that stand for themselves, or else a character,
/// or a byte that is part of none.
fn front_len(text: &[u8]) -> usize
    requires { 0 < length text.now }
    ensures some { 0 < result }
    ensures within { result ≤ length text.now }
    ensures cut { shown text.now ≡ front_text shown_byte (take result text.now) ++ shown (drop result text.now) }
{
    let plain = plain_len(text);
    if plain > 0 {
        return plain;
    }
    character_len(text).max(1)
}

/// How many bytes at the front of a text stand for themselves.
fn plain_len(text: &[u8]) -> usize
    ensures within { result ≤ length text.now }
    ensures plain { list_all is_plain (take result text.now) ≡ true }
{
    let mut len = 0;
    while len < text.len() && is_plain(text[len]) {
        len += 1;
    }
    len
}

/// Whether all bytes of a text stand for themselves. Each is looked at, which takes less time than to stop at the first
/// that does not.
pub fn is_all_plain(text: &[u8]) -> bool
    ensures { result ≡ list_all is_plain text.now }
{
    let mut all = true;
    for byte in text {
        all = all & is_plain(*byte);
    }
    all
}

/// Whether a byte is a character of ASCII that stands for itself, in a location and in a JSON string.
fn is_plain(byte: u8) -> bool
    ensures { result ≡ is_plain byte }
{
    0x20 <= byte && byte < 0x7f && byte != b'"' && byte != b'\\'
}

/// Prints bytes that are printed in one go.
fn print_front<W: Destination>(
    printer: &mut Printer,
    output: &mut W,
    front: &[u8],
) -> Result<(), WriteFault>
    ensures printed { Prints (W.contents output.old) (W.contents output.new) printer.old printer.new
        (front_text shown_byte front.now) result }
    ensures blames { BlamesWriter W.fails result }
{
    if front.len() == 1 {
        print_byte(printer, output, front[0])
    } else {
        printer.put(output, front)
    }
}

/// Prints a byte that is a character, or part of none.
fn print_byte<W: Destination>(
    printer: &mut Printer,
    output: &mut W,
    byte: u8,
) -> Result<(), WriteFault>
    ensures printed { Prints (W.contents output.old) (W.contents output.new) printer.old printer.new
        (shown_byte byte) result }
    ensures blames { BlamesWriter W.fails result }
{
    if byte == b'\\' {
        printer.put(output, b"\\\\")
    } else if is_control(byte) || byte >= 0x80 {
        print_number(printer, output, byte)
    } else {
        printer.put(output, &[byte])
    }
}

/// Prints a byte by its number.
fn print_number<W: Destination>(
    printer: &mut Printer,
    output: &mut W,
    byte: u8,
) -> Result<(), WriteFault>
    ensures printed { Prints (W.contents output.old) (W.contents output.new) printer.old printer.new
        (numbered byte) result }
    ensures blames { BlamesWriter W.fails result }
{
    printer.put(
        output,
        &[b'\\', b'x', last_digit(byte / 16), last_digit(byte)],
    )
}

/// How many bytes the character has that a text begins with; 0 where it begins with none.
fn character_len(text: &[u8]) -> usize
    ensures { result ≡ character_len text.now }
{
    if begins_in_utf8(text, 1) {
        1
    } else if begins_in_utf8(text, 2) {
        2
    } else if begins_in_utf8(text, 3) {
        3
    } else if begins_in_utf8(text, 4) {
        4
    } else {
        0
    }
}

/// Whether the first `len` bytes of a text, or all where it has fewer, are UTF-8.
fn begins_in_utf8(text: &[u8], len: usize) -> bool
    ensures { result ≡ is_utf8 (take len text.now) }
{
    is_utf8(&text[..len.min(text.len())])
}

fn is_utf8(text: &[u8]) -> bool
    ensures { result ≡ is_utf8 text.now }
{
    match str::from_utf8(text) {
        Ok(_) => true,
        Err(_) => false,
    }
}

/// Whether a byte is below 0x20, or is 0x7f.
fn is_control(byte: u8) -> bool
    ensures { result ≡ is_control byte }
{
    byte < 0x20 || byte == 0x7f
}

/// The last hexadecimal digit of a byte.
fn last_digit(byte: u8) -> u8
    ensures { result ≡ last_digit byte }
{
    let digit = byte % 16;
    if digit < 10 {
        b'0' + digit
    } else {
        b'a' + (digit - 10)
    }
}

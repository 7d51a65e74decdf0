//! Numbers, words, texts and bytes as compact JSON text. It is written behind what stands in a
//! vector, and no JSON value is made of it.
ghost use Rattle.std.specs.Prelude.{◌≡◌, ◌≤◌, ◌/◌, ◌%◌, ◌<◌, [], ◌∷◌, ◌++◌, true, OnOk};
ghost use Rattle.std.specs.Char.{digit_char};
ghost use Rattle.std.specs.List.{list_all};
ghost use Rattle.json.specs.Print.{escape, escape_byte, quoted};
ghost use Rattle.json.specs.Run.{is_plain};
ghost use Rattle.json_forms.specs.JsonData.{data_of};
ghost use Rattle.json_forms.specs.Prints.{row, num, null_or, texts, is_shown, blob_data};
ghost use Rattle.json_print.specs.Written.{IsTagged, IsWritten};
ghost use Rattle.serde_json.specs.Data.{null, string, depth};
ghost use Rattle.serde_json.specs.Read.{max_depth};
ghost use Rattle.serde_json.specs.Written.{comma_if};

use itoa::Buffer;
use json_forms::Json;
use json_forms::forms::{all_shown, print_bytes};
use smithy_types::{Blob, List, OutOfMemory, Text};
use std::alloc::Global;

/// A value of JSON that was made, as what is printed rarely is.
pub(crate) fn write_json(alloc: Global, json: &Json, out: &mut Vec<u8>) -> Result<(), OutOfMemory>
    ensures { OnOk result (depth (data_of json.now) ≤ max_depth →
        IsWritten (data_of json.now) out.old.items out.new.items) }
{
    json.write(alloc, out)?;
    Ok(())
}

/// Null.
pub(crate) fn write_null(out: &mut Vec<u8>) -> Result<(), OutOfMemory>
    ensures { OnOk result (IsWritten null out.old.items out.new.items) }
{
    out.extend_from_slice(b"null")?;
    Ok(())
}

/// A number, in decimal.
pub(crate) fn write_number(number: u64, out: &mut Vec<u8>) -> Result<(), OutOfMemory>
    ensures { OnOk result (IsWritten (num number) out.old.items out.new.items) }
{
    let mut buffer = Buffer::new();
    out.extend_from_slice(buffer.format(number).as_bytes())?;
    Ok(())
}

/// Null where there is no number.
pub(crate) fn write_optional_number(
    number: Option<u64>,
    out: &mut Vec<u8>,
) -> Result<(), OutOfMemory>
    ensures { OnOk result (IsWritten (null_or num number) out.old.items out.new.items) }
{
    match number {
        Some(number) => write_number(number, out),
        None => write_null(out),
    }
}

/// A word of the program's own, in which nothing is escaped.
pub(crate) fn write_word(word: &str, out: &mut Vec<u8>) -> Result<(), OutOfMemory>
    requires { escape word.now ≡ word.now }
    ensures { OnOk result (IsWritten (string word.now) out.old.items out.new.items) }
{
    out.push(b'"')?;
    out.extend_from_slice(word.as_bytes())?;
    out.push(b'"')?;
    Ok(())
}

/// The beginning of an array: its first item, which is this word, and the comma behind it.
pub(crate) fn begin_tagged(word: &str, out: &mut Vec<u8>) -> Result<(), OutOfMemory>
    requires { escape word.now ≡ word.now }
    ensures { OnOk result (IsTagged word.now out.old.items out.new.items) }
{
    out.extend_from_slice(b"[\"")?;
    out.extend_from_slice(word.as_bytes())?;
    out.extend_from_slice(b"\",")?;
    Ok(())
}

/// An array of a word and a number.
pub(crate) fn write_tagged_number(
    word: &str,
    number: u64,
    out: &mut Vec<u8>,
) -> Result<(), OutOfMemory>
    requires { escape word.now ≡ word.now }
    ensures { OnOk result
        (IsWritten (row (string word.now ∷ num number ∷ [])) out.old.items out.new.items) }
{
    begin_tagged(word, out)?;
    write_number(number, out)?;
    out.push(b']')?;
    Ok(())
}

/// An array of a word and a text.
pub(crate) fn write_tagged_text(
    word: &str,
    text: &Text,
    out: &mut Vec<u8>,
) -> Result<(), OutOfMemory>
    requires { escape word.now ≡ word.now }
    ensures { OnOk result
        (IsWritten (row (string word.now ∷ string text.now ∷ [])) out.old.items out.new.items) }
{
    begin_tagged(word, out)?;
    write_text(text.as_str(), out)?;
    out.push(b']')?;
    Ok(())
}

/// An array of a word and a blob.
pub(crate) fn write_tagged_blob(
    alloc: Global,
    word: &str,
    blob: &Blob,
    out: &mut Vec<u8>,
) -> Result<(), OutOfMemory>
    requires { escape word.now ≡ word.now }
    ensures { OnOk result
        (IsWritten (row (string word.now ∷ blob_data blob.now ∷ [])) out.old.items out.new.items) }
{
    begin_tagged(word, out)?;
    write_blob(alloc, blob, out)?;
    out.push(b']')?;
    Ok(())
}

/// A comma, where an item stands before.
pub(crate) fn write_comma_if(is_later: bool, out: &mut Vec<u8>) -> Result<(), OutOfMemory>
    ensures { OnOk result (out.new.items ≡ out.old.items ++ comma_if is_later) }
{
    if is_later {
        out.push(b',')?;
    }
    Ok(())
}

/// A text.
pub(crate) fn write_text(text: &str, out: &mut Vec<u8>) -> Result<(), OutOfMemory>
    ensures { OnOk result (IsWritten (string text.now) out.old.items out.new.items) }
{
    write_quoted(text.as_bytes(), out)?;
    Ok(())
}

// Writes the bytes of a text between quotes. Most texts need no escape, and are copied at once.
fn write_quoted(bytes: &[u8], out: &mut Vec<u8>) -> Result<(), OutOfMemory>
    ensures { OnOk result (out.new.items ≡ out.old.items ++ quoted bytes.now) }
{
    out.push(b'"')?;
    if all_plain(bytes) {
        out.extend_from_slice(bytes)?;
    } else {
        write_escaped(bytes, out)?;
    }
    out.push(b'"')?;
    Ok(())
}

// Whether no byte needs an escape.
fn all_plain(bytes: &[u8]) -> bool
    ensures { result ≡ list_all is_plain bytes.now }
{
    bytes.iter().all(|byte| is_plain(*byte))
}

// Whether the byte stands for itself in a text.
fn is_plain(byte: u8) -> bool
    ensures { result ≡ is_plain byte }
{
    byte != b'"' && byte != b'\\' && byte >= 32
}

// Writes each byte of a text, or its escape.
fn write_escaped(bytes: &[u8], out: &mut Vec<u8>) -> Result<(), OutOfMemory>
    ensures { OnOk result (out.new.items ≡ out.old.items ++ escape bytes.now) }
{
    for byte in bytes {
        write_byte(*byte, out)?;
    }
    Ok(())
}

// Writes what stands in a text for this byte: the byte itself, or its shortest escape.
#[tactic(auto, unfolding(json::specs::Print::escape_byte))]
fn write_byte(byte: u8, out: &mut Vec<u8>) -> Result<(), OutOfMemory>
    ensures { OnOk result (out.new.items ≡ out.old.items ++ escape_byte byte) }
{
    match byte {
        b'"' => out.extend_from_slice(b"\\\"")?,
        b'\\' => out.extend_from_slice(b"\\\\")?,
        b'\n' => out.extend_from_slice(b"\\n")?,
        b'\r' => out.extend_from_slice(b"\\r")?,
        b'\t' => out.extend_from_slice(b"\\t")?,
        8 => out.extend_from_slice(b"\\b")?,
        12 => out.extend_from_slice(b"\\f")?,
        0..=31 => write_control(byte, out)?,
        _ => out.push(byte)?,
    }
    Ok(())
}

// Writes a byte by its two hex digits.
fn write_control(byte: u8, out: &mut Vec<u8>) -> Result<(), OutOfMemory>
    ensures { OnOk result (out.new.items ≡ out.old.items ++ 92 ∷ 117 ∷ 48 ∷ 48 ∷
        digit_char (byte / 16) ∷ digit_char (byte % 16) ∷ []) }
{
    out.extend_from_slice(b"\\u00")?;
    out.push(hex_digit(byte / 16))?;
    out.push(hex_digit(byte % 16))?;
    Ok(())
}

// The hex digit of a number.
fn hex_digit(number: u8) -> u8
    requires { number < 16 }
    ensures { result ≡ digit_char number }
{
    if number < 10 {
        b'0' + number
    } else {
        b'a' + (number - 10)
    }
}

/// Bytes: a text where each can be shown, and otherwise an object with them in hex.
#[tactic(auto, unfolding(json_forms::specs::Prints::blob_data))]
pub(crate) fn write_bytes(alloc: Global, bytes: &[u8], out: &mut Vec<u8>) -> Result<(), OutOfMemory>
    ensures { OnOk result (IsWritten (blob_data bytes.now) out.old.items out.new.items) }
{
    if all_shown(bytes) {
        return write_shown(bytes, out);
    }
    let json = print_bytes(alloc, bytes)?;
    write_json(alloc, &json, out)?;
    Ok(())
}

// The text of bytes that can be shown.
fn write_shown(bytes: &[u8], out: &mut Vec<u8>) -> Result<(), OutOfMemory>
    requires { list_all is_shown bytes.now ≡ true }
    ensures { OnOk result (IsWritten (string bytes.now) out.old.items out.new.items) }
{
    write_quoted(bytes, out)?;
    Ok(())
}

/// A blob's bytes.
pub(crate) fn write_blob(alloc: Global, blob: &Blob, out: &mut Vec<u8>) -> Result<(), OutOfMemory>
    ensures { OnOk result (IsWritten (blob_data blob.now) out.old.items out.new.items) }
{
    write_bytes(alloc, blob.as_slice(), out)
}

/// A list of texts.
pub(crate) fn write_texts(list: &List<Text>, out: &mut Vec<u8>) -> Result<(), OutOfMemory>
    ensures { OnOk result (IsWritten (texts list.now) out.old.items out.new.items) }
{
    let items = list.as_slice();
    out.push(b'[')?;
    let mut is_later = false;
    for text in items {
        write_comma_if(is_later, out)?;
        write_text(text.as_str(), out)?;
        is_later = true;
    }
    out.push(b']')?;
    Ok(())
}

/// Null where there is no list.
pub(crate) fn write_optional_texts(
    list: &Option<List<Text>>,
    out: &mut Vec<u8>,
) -> Result<(), OutOfMemory>
    ensures { OnOk result (IsWritten (null_or texts list.now) out.old.items out.new.items) }
{
    match list {
        Some(list) => write_texts(list, out),
        None => write_null(out),
    }
}

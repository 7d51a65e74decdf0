//! Bytes as a query spells them.
ghost use Rattle.std.specs.Prelude.{◌≡◌, ◌++◌, ◌∷◌, [], IfOk, OnOk, flat_map, string_bytes};
ghost use Rattle.http_schemes.specs.Encoding.{is_unreserved, encoded_byte, encoded};

use percent_encoding::percent_encode_byte;
use smithy_types::{OutOfMemory, Text};
use std::alloc::Global;

// Whether the byte stands for itself.
fn is_unreserved(byte: u8) -> bool
    ensures { result ≡ is_unreserved byte }
{
    byte.is_ascii_alphanumeric() || byte == b'-' || byte == b'.' || byte == b'_' || byte == b'~'
}

fn push_byte(text: &mut String, byte: u8) -> Result<(), OutOfMemory>
    ensures { OnOk result (string_bytes text.new ≡ string_bytes text.old ++ encoded_byte byte) }
{
    if is_unreserved(byte) {
        text.push(char::from(byte))?;
    } else {
        text.push_str(percent_encode_byte(byte))?;
    }
    Ok(())
}

/// The bytes as a query spells them: letters and digits of ASCII, `-`, `.`, `_` and `~` stand for
/// themselves, and every other byte is `%` and its two upper-case hexadecimal digits (RFC 3986,
/// sections 2.1 and 2.3).
pub fn encode(alloc: Global, bytes: &[u8]) -> Result<Text, OutOfMemory>
    ensures { IfOk result (λ text. text ≡ encoded bytes.now) }
{
    let mut text = String::new(alloc);
    for byte in bytes {
        push_byte(&mut text, *byte)?;
    }
    Text::from_string(text)
}

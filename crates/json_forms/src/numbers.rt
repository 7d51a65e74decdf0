//! Numbers, as they stand in a text. A number has a value where it is a whole one of 64 bits or not
//! too large for a float.
ghost use Rattle.std.specs.Prelude.{◌≡◌, ◌==◌, ◌||◌, ◌<◌, length, slice_index, true, false, Some};
ghost use Rattle.std.specs.Prelude.{is_some, option_and_then, IfSome, IsTrue};
ghost use Rattle.serde_json.specs.Data.{unsigned};
ghost use Rattle.serde_json.specs.Find.{as_u64};
ghost use Rattle.serde_json.specs.Read.{float_of, number_from, number_of};
ghost use Rattle.json_forms.specs.View.{number_view};

use fast_float::Numeral;

// The number that at most nineteen digits are, none for any other text. It is found without a look
// for a point or an exponent, and most numbers are such.
#[tactic(auto, using(crate::proofs::Plain::plain_numbers))]
fn plain_number(bytes: &[u8]) -> Option<u64>
    ensures { IfSome result (λ n. number_of bytes.now ≡ Some (unsigned n)) }
{
    if bytes.is_empty() || bytes.len() > 19 {
        return None;
    }
    let mut number = 0u64;
    for byte in bytes {
        if *byte < b'0' || *byte > b'9' {
            return None;
        }
        number = number * 10 + (*byte - b'0') as u64;
    }
    Some(number)
}

/// Whether the number has a value.
#[tactic(auto, using(crate::proofs::Plain::plain_numbers))]
pub(crate) fn has_value(text: &str) -> bool
    ensures { result ≡ is_some (number_of text.now) }
{
    plain_number(text.as_bytes()).is_some() || scanned_has_value(text)
}

// The same by a scan of the whole text.
fn scanned_has_value(text: &str) -> bool
    ensures { result ≡ is_some (number_of text.now) }
{
    let bytes = text.as_bytes();
    if has_minus(bytes) {
        negative_has_value(&Numeral::scan(&bytes[1..]))
    } else {
        unsigned_has_value(&Numeral::scan(bytes))
    }
}

fn negative_has_value(numeral: &Numeral<'_>) -> bool
    ensures { result ≡ is_some (number_from true numeral.now) }
{
    if let Some(number) = numeral.to_i64(true) {
        if number < 0 {
            return true;
        }
    }
    is_finite(true, numeral)
}

fn unsigned_has_value(numeral: &Numeral<'_>) -> bool
    ensures { result ≡ is_some (number_from false numeral.now) }
{
    match numeral.to_u64() {
        Some(_) => true,
        None => is_finite(false, numeral),
    }
}

fn is_finite(negative: bool, numeral: &Numeral<'_>) -> bool
    ensures { result ≡ is_some (float_of negative numeral.now) }
{
    numeral.to_float::<f64>(negative).is_finite()
}

/// The whole number without a sign that the text is.
#[tactic(auto, using(crate::proofs::Plain::plain_numbers))]
pub(crate) fn unsigned(text: &str) -> Option<u64>
    ensures { result ≡ as_u64 (number_view text.now) }
{
    match plain_number(text.as_bytes()) {
        Some(number) => Some(number),
        None => scanned_unsigned(text),
    }
}

// The same by a scan of the whole text.
fn scanned_unsigned(text: &str) -> Option<u64>
    ensures { result ≡ as_u64 (number_view text.now) }
{
    let bytes = text.as_bytes();
    if has_minus(bytes) {
        None
    } else {
        unsigned_value(&Numeral::scan(bytes))
    }
}

fn unsigned_value(numeral: &Numeral<'_>) -> Option<u64>
    ensures { result ≡ option_and_then as_u64 (number_from false numeral.now) }
{
    numeral.to_u64()
}

fn has_minus(bytes: &[u8]) -> bool
    ensures value { result ≡ (slice_index bytes.now 0 == 45) }
    ensures some { IsTrue result → 0 < length bytes.now }
{
    !bytes.is_empty() && bytes[0] == b'-'
}

//! Limits of texts.
ghost use Rattle.std.specs.Prelude.{◌≡◌};
ghost use Rattle.json_scripts.specs.Texts.{fits_or_none, text_fits, texts_fit};

use smithy_types::{List, Text};

/// The most bytes of UTF-8 that a text may have.
const TEXT_LIMIT: usize = 4096;

/// Whether a text has at most 4 KiB.
#[tactic(auto, unfolding(crate::specs::Texts::text_fits))]
pub fn text_fits(text: &Text) -> bool
    ensures { result ≡ text_fits text.now }
{
    text.len() <= TEXT_LIMIT
}

/// Whether each text has at most 4 KiB.
pub fn texts_fit(texts: &List<Text>) -> bool
    ensures { result ≡ texts_fit texts.now }
{
    let items = texts.as_slice();
    items.iter().all(|text| text_fits(text))
}

/// Whether a text has at most 4 KiB, where there is one.
pub fn optional_text_fits(text: &Option<Text>) -> bool
    ensures { result ≡ fits_or_none text_fits text.now }
{
    match text {
        Some(text) => text_fits(text),
        None => true,
    }
}

/// Whether each text has at most 4 KiB, where there are some.
pub fn optional_texts_fit(texts: &Option<List<Text>>) -> bool
    ensures { result ≡ fits_or_none texts_fit texts.now }
{
    match texts {
        Some(texts) => texts_fit(texts),
        None => true,
    }
}

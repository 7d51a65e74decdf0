//! Texts that never change.
ghost use Rattle.std.specs.Prelude.{◌≡◌, [], length, ◌==◌, IfOk, Some, nat_eq, string_bytes};
ghost use Rattle.std.specs.Cmp.{partial_equiv_from_equiv};
ghost use Rattle.std.specs.Cmp.Lexicographic.{pointwise, nat_list_eq_equiv};

use crate::OutOfMemory;
use arrayvec::ArrayString;
use bytes::ByteStr;
use std::alloc::{AllocError, Global};
use std::fmt;
use std::marker::Model;

/// The most bytes that stand in a text itself.
const FEW: usize = 24;

/// A text that never changes. A copy costs the same however long it is: a short one stands in the
/// text itself and takes no memory, and all others are shared.
pub struct Text {
    text: Content,
}

// Written out, so that a drop is one call wherever a text is dropped.
impl Drop for Text {
    fn drop(self) {
        let Text { text: _ } = self;
    }
}

// A short text, or a shared one.
#[derive(Drop)]
enum Content {
    Few(ArrayString<FEW>),
    Shared(ByteStr),
}

impl Model for Text {
    ghost use Rattle.std.specs.Prelude.{List, ℕ};

    ghost Value = { List ℕ };

    ghost use Rattle.smithy_types.specs.TextContent.{text_of};

    ghost view = { λ t. text_of t.text };
}

impl Text {
    /// The empty text. It takes no memory.
    pub fn new() -> Text
        ensures { result ≡ [] }
    {
        Text {
            text: Content::Shared(ByteStr::new()),
        }
    }

    /// A copy of this text.
    pub fn from_str(alloc: Global, text: &str) -> Result<Text, OutOfMemory>
        ensures { IfOk result (λ t. t ≡ text.now) }
    {
        let text = match ArrayString::from(text) {
            Ok(few) => Content::Few(few),
            Err(_) => Content::Shared(ByteStr::copy_from_str(alloc, text)?),
        };
        Ok(Text { text })
    }

    /// A text of the program itself, which takes no memory.
    pub fn from_static(text: &'static str) -> Text
        ensures { result ≡ text.now }
    {
        Text {
            text: Content::Shared(ByteStr::from_static(text)),
        }
    }

    /// This text, which is moved and not copied.
    pub fn from_string(text: String) -> Result<Text, OutOfMemory>
        ensures { IfOk result (λ t. t ≡ string_bytes text) }
    {
        Ok(Text {
            text: Content::Shared(ByteStr::from_string(text)?),
        })
    }

    /// The text.
    pub fn as_str(&self) -> &str
        ensures { result.now ≡ self.now }
    {
        match &self.text {
            Content::Few(few) => few.as_str(),
            Content::Shared(shared) => shared.as_str(),
        }
    }

    /// How many bytes of UTF-8 there are.
    pub fn len(&self) -> usize
        ensures { result ≡ length self.now }
    {
        self.as_str().len()
    }

    /// Whether the text is empty.
    pub fn is_empty(&self) -> bool
        ensures { result ≡ (length self.now == 0) }
    {
        self.as_str().is_empty()
    }
}

impl Clone for Text {
    ghost is_clone = { λ t copy. copy ≡ t };

    fn clone(&self) -> Result<Text, AllocError> {
        let text = match &self.text {
            Content::Few(few) => Content::Few(*few),
            Content::Shared(shared) => Content::Shared(shared.clone()?),
        };
        Ok(Text { text })
    }
}

impl PartialEq for Text {
    ghost eq = { pointwise nat_eq };

    ghost laws = { partial_equiv_from_equiv nat_list_eq_equiv };

    fn eq(&self, other: &Text) -> bool {
        self.as_str() == other.as_str()
    }
}

impl Eq for Text {
    ghost laws = { nat_list_eq_equiv };
}

impl fmt::Debug for Text {
    fn fmt<W: fmt::Write>(&self, f: &mut fmt::Formatter<W>) -> fmt::Result {
        fmt::Debug::fmt(self.as_str(), f)
    }
}

impl fmt::Display for Text {
    ghost output = { λ t. Some t };

    fn fmt<W: fmt::Write>(&self, f: &mut fmt::Formatter<W>) -> fmt::Result {
        fmt::Display::fmt(self.as_str(), f)
    }
}

//! The random words of a script.
ghost use Rattle.std.specs.Prelude.{◌≡◌};
ghost use Rattle.outside_scripted.specs.Words.{next_word, words_after};

use smithy_types::List;
use std::marker::Model;

/// The word of a script that has none: the middle of the range.
const MIDDLE: u64 = 9_223_372_036_854_775_807;

/// The words that are still to be drawn. The last one is drawn again and again.
#[derive(Debug, Drop)]
pub struct Words {
    words: List<u64>,
    drawn: usize,
}

impl Model for Words {
    ghost use Rattle.std.specs.Prelude.{List, ℕ, drop};

    ghost Value = { List ℕ };

    ghost view = { λ w. drop w.drawn w.words };
}

impl Words {
    /// These words, from the first on.
    pub fn new(words: List<u64>) -> Words
        ensures { result ≡ words }
    {
        Words { words, drawn: 0 }
    }

    /// The next word: the last again where there is no further one, and the middle of the range
    /// where there is none at all.
    pub fn draw(&mut self) -> u64
        ensures word { result ≡ next_word self.old }
        ensures words { self.new ≡ words_after self.old }
    {
        let words = self.words.as_slice();
        if self.drawn >= words.len() {
            return MIDDLE;
        }
        let word = words[self.drawn];
        if self.drawn + 1 < words.len() {
            self.drawn += 1;
        }
        word
    }
}

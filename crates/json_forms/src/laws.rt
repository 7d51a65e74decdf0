//! What is printed as JSON is read as the same data.
ghost use Rattle.std.specs.Prelude.{◌≡◌, ◌<◌, ◌≤◌, ◌^◌, ◌++◌, ◌∷◌, [], ◌==◌, ℕ, suc, nat_le, codes};
ghost use Rattle.std.specs.Prelude.{Bool, List, true, false, Some, map, IsUtf8};
ghost use Rattle.std.specs.List.{list_all, slice_split};
ghost use Rattle.std.specs.Str.Lines.{lines};
ghost use Rattle.serde_json.specs.Data.{Data, unsigned, null, boolean, number, string, array};
ghost use Rattle.serde_json.specs.Data.{object, member, no_members, depth};
ghost use Rattle.serde_json.specs.Read.{read, max_depth};
ghost use Rattle.serde_json.specs.View.{items_of};
ghost use Rattle.serde_json.specs.Written.{compact_text, has_float};
ghost use Rattle.json_forms.specs.Carried.{is_carried};
ghost use Rattle.json_forms.specs.Lines.{is_readable, are_readable, lines_text, read_lines};
ghost use Rattle.json_forms.specs.Lines.{is_visible, HasTexts, AllHaveTexts};

/// The compact text of data reads as that data, and nothing more stands in it.
pub fn compact_texts_are_read()
    ensures { (d : Data) → is_carried d ≡ true → depth d ≤ max_depth
        → read (compact_text d) ≡ Some d }
{}

/// A compact text has no control character, so no line feed.
pub fn compact_texts_are_one_line()
    ensures { (d : Data) → is_carried d ≡ true → list_all is_visible (compact_text d) ≡ true }
{}

/// A text of lines is cut into the compact texts again, and what follows the last line feed is
/// empty. A text that is cut so is the text of lines.
pub fn texts_of_lines_are_cut()
    ensures parts { (ds : List Data) → list_all is_carried ds ≡ true
        → slice_split (λ b. b == 10) (lines_text ds) ≡ map compact_text ds ++ [] ∷ [] }
    ensures back { (ds : List Data) (text : List ℕ)
        → slice_split (λ b. b == 10) text ≡ map compact_text ds ++ [] ∷ [] → text ≡ lines_text ds }
    ensures lines { (ds : List Data) → list_all is_carried ds ≡ true
        → lines (lines_text ds) ≡ map compact_text ds }
{}

/// A text of lines reads as the data that it was printed for, so it is printed for no other.
pub fn texts_of_lines_are_read()
    ensures same { (ds es : List Data) → are_readable ds ≡ true → are_readable es ≡ true
        → lines_text ds ≡ lines_text es → ds ≡ es }
    ensures read { (ds : List Data) → are_readable ds ≡ true
        → read_lines (lines_text ds) ≡ Some ds }
{}

/// The text is UTF-8, so that a reader of bytes takes it.
pub fn compact_texts_are_of_characters()
    ensures one { (d : Data) → is_carried d ≡ true → HasTexts d → IsUtf8 (compact_text d) }
    ensures all { (ds : List Data) → list_all is_carried ds ≡ true → AllHaveTexts ds
        → IsUtf8 (lines_text ds) }
{}

/// What was read has a compact text, unless it has a float, and that text is read as the same data.
pub fn read_data_can_be_printed()
    ensures carried { (text : List ℕ) (d : Data) → read text ≡ Some d → has_float d ≡ false
        → is_carried d ≡ true }
    ensures nests { (text : List ℕ) (d : Data) → read text ≡ Some d → depth d ≤ max_depth }
    ensures again { (text : List ℕ) (d : Data) → read text ≡ Some d → has_float d ≡ false
        → read (compact_text d) ≡ Some d }
{}

/// The text of two lists is the text of one after the other.
pub fn texts_of_lines_are_joined()
    ensures { (ds es : List Data) → lines_text (ds ++ es) ≡ lines_text ds ++ lines_text es }
{}

/// What an array of a list needs is what its items need. A row of one shape computes, but for its
/// numbers.
pub fn rows_can_be_printed()
    ensures carried { (ds : List Data) → is_carried (array (items_of ds)) ≡ list_all is_carried ds }
    ensures nests { (ds : List Data) (n : ℕ) → list_all (λ d. nat_le (depth d) n) ds ≡ true
        → depth (array (items_of ds)) ≤ suc n }
    ensures texts { (ds : List Data) → AllHaveTexts ds → HasTexts (array (items_of ds)) }
    ensures sample { (n m : ℕ) (b : Bool) (s : List ℕ) → n < 2 ^ 64 → m < 2 ^ 64
        → is_readable (array (items_of
        (number (unsigned n) ∷ boolean b ∷ null
        ∷ array (items_of (string s ∷ number (unsigned m) ∷ []))
        ∷ object (member (codes "hex") (string s) no_members) ∷ []))) ≡ true }
{}

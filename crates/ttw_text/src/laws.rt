//! Laws of spellings, words and lines.

ghost use Rattle.std.specs.Prelude.{◌≡◌, ◌≢◌, ◌↔◌, ◌^◌, ◌<◌, ℕ, List, [], ◌∷◌, ◌++◌, Some, ℤ, All, IsTrue};
ghost use Rattle.std.specs.List.{concat, join_with_byte};
ghost use Rattle.ttw_text.specs.Lines.{lines, without_feed};
ghost use Rattle.ttw_text.specs.Names as names;
ghost use Rattle.ttw_text.specs.Numbers.{number_of, spelled, signed_spelled};
ghost use Rattle.ttw_text.specs.Words.{parts, IsWord};

/// A number has one spelling, and a spelling one number.
pub fn spelling_law()
    ensures read_back { (n : ℕ) → n < 2 ^ 64 → number_of (spelled n) ≡ Some n }
    ensures only_spelling { (text : List ℕ) (n : ℕ) → number_of text ≡ Some n → text ≡ spelled n }
    ensures one_number { (m n : ℕ) → spelled m ≡ spelled n → m ≡ n }
    ensures one_signed { (y z : ℤ) → signed_spelled y ≡ signed_spelled z → y ≡ z }
{}

/// Words that are joined by spaces are the parts of that line, and names and numbers are words.
pub fn words_law()
    ensures joined { (line : List ℕ) → join_with_byte 32 (parts line) ≡ line }
    ensures first { (word rest : List ℕ) → IsWord word
        → parts (word ++ 32 ∷ rest) ≡ word ∷ parts rest }
    ensures last { (word : List ℕ) → IsWord word → parts word ≡ word ∷ [] }
    ensures names { (text : List ℕ) → IsTrue (names.is_name text) → IsWord text }
    ensures numbers { (n : ℕ) → IsWord (spelled n) }
{}

/// The lines of a text, joined, are the text, and a line ends at its first line feed, which `without_feed` takes off.
pub fn lines_law()
    ensures joined { (text : List ℕ) → concat (lines text) ≡ text }
    ensures first { (line rest : List ℕ) → All (λ b. b ≢ 10) line
        → lines (line ++ 10 ∷ rest) ≡ (line ++ 10 ∷ []) ∷ lines rest }
    ensures feed { (line text : List ℕ) → (without_feed line ≡ Some text) ↔ (line ≡ text ++ 10 ∷ []) }
{}

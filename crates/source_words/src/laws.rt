//! Laws of the words of a source.

ghost use Rattle.std.specs.Prelude.{◌≡◌, ◌≢◌, ℕ, ◌+◌, ◌++◌, ◌<◌, ◌≤◌, [], ◌∷◌, List, length, drop, slice_index, true, false, All, AllPairs, Some};
ghost use Rattle.source_words.specs.declared.modes.Mode.{Mode};
ghost use Rattle.source_words.specs.Words.{IsWordAt, is_comment, enclosing, word_of, words_at, words_behind, screen_words};
ghost use Rattle.std.specs.List.{list_all};
ghost use Rattle.source_words.specs.Spaced.{Spelling, read_again, AreReadable, AreSteps, IsStep, IsWhole, StandsAlone, TakesName, TakesText, bare, colon_words, is_plain_word, structure_keywords};
ghost use Rattle.source_words.specs.declared.modes.Mode.TheVariants.{Outside};
ghost use Rattle.source_words.specs.Words.{after_screens, words_of_screens};
ghost use Rattle.source_words.specs.Standing.{Stands, IsBefore};

/// Each word is where it is said to, whole, and the words are in order.
#[tactic(auto, using(crate::proofs::Standings::words_stand, crate::proofs::Standings::words_in_order))]
pub fn standing_law()
    ensures standing { (m : Mode) (screen : ℕ) (s : List ℕ) → All (Stands s screen) (screen_words m screen s) }
    ensures order { (m : Mode) (screen : ℕ) (s : List ℕ) → AllPairs IsBefore (screen_words m screen s) }
{}

/// What is read at a place: at the end nothing; a blank is passed over; so is a comment; any other word is the next,
/// and what is after it and its text is read as after that word.
#[tactic(auto, using(crate::proofs::Places::none_at, crate::proofs::Places::blank_at, crate::proofs::Places::comment_at, crate::proofs::Places::word_at))]
pub fn reading_law()
    ensures end { (m : Mode) (screen p : ℕ) (s : List ℕ) → length s ≤ p → words_at m screen p s ≡ [] }
    ensures blank { (m : Mode) (screen p : ℕ) (s : List ℕ) → p < length s → slice_index s p ≡ 32 →
        words_at m screen p s ≡ words_at m screen (p + 1) s }
    ensures comment { (m : Mode) (screen p : ℕ) (s : List ℕ) → IsWordAt s p → is_comment m (drop p s) ≡ true →
        words_at m screen p s ≡ words_at m screen (p + enclosing 41 (drop p s)) s }
    ensures word { (m : Mode) (screen p : ℕ) (s : List ℕ) → IsWordAt s p → is_comment m (drop p s) ≡ false →
        words_at m screen p s ≡ word_of m screen p (drop p s) ∷ words_behind m screen p s }
{}

/// Words that are written out with single blanks between them are read as they were.
#[tactic(auto, using(crate::proofs::Rereading::reread))]
pub fn rereading_law()
    ensures { (m : Mode) (screen : ℕ) (ws : List Spelling) → AreReadable m ws → read_again m screen ws ≡ ws }
{}

/// A colon definition that is written out is read as it was. Its body goes in steps: a word that asks for nothing more, one
/// that takes any name and that name, or a word with its text.
pub fn colon_law()
    ensures colon { (screen : ℕ) (name : List ℕ) (steps : List (List Spelling)) → IsWhole name → AreSteps steps →
        read_again Outside screen (colon_words name steps) ≡ colon_words name steps }
    ensures plain { (name : List ℕ) → IsWhole name → StandsAlone name → IsStep (bare name ∷ []) }
    ensures test { (name : List ℕ) → is_plain_word name ≡ true → IsStep (bare name ∷ []) }
    ensures keywords { list_all is_plain_word structure_keywords ≡ true }
    ensures led { (lead name : List ℕ) → IsWhole lead → TakesName lead → IsWhole name →
        IsStep (bare lead ∷ bare name ∷ []) }
    ensures text { (name text : List ℕ) → IsWhole name → TakesText name → All (λ b. b ≢ 34) text →
        IsStep (record { name = name; text = Some text } ∷ []) }
{}

/// The words of screens that follow one another are those of the first, then those of the others, read as the words before
/// them say.
pub fn joining_law()
    ensures screens { (m : Mode) (n : ℕ) (xs ys : List (List ℕ)) →
        words_of_screens m n (xs ++ ys) ≡ words_of_screens m n xs ++ words_of_screens (after_screens m n xs)
        (n + length xs) ys }
    ensures last { (m : Mode) (n : ℕ) (xs : List (List ℕ)) (s : List ℕ) →
        words_of_screens m n (xs ++ s ∷ []) ≡ words_of_screens m n xs ++ screen_words (after_screens m n xs)
        (n + length xs) s }
{}

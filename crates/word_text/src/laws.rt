ghost use Rattle.std.specs.Prelude.{◌≡◌, ℕ, ◌+◌, ◌*◌, ◌<◌, ◌↔◌, List, ◌++◌, All, Contains, IsPermutation, IsSome, length, map, flat_map, count_by};
ghost use Rattle.std.specs.FinMap as map_of;
ghost use Rattle.std.specs.Str.{bytes_eq};
ghost use Rattle.word_text.specs.Words.{words_of, AreWords, cut};
ghost use Rattle.word_text.specs.Counts.{Numbers, count_in, counts_of_all, add_all, merged, total};
ghost use Rattle.word_text.specs.Pieces.{ArePieces, LiesIn, pieces_of, piece_bytes, plan_of, plan_bytes};

/// Over several texts, the number of a byte list is how often it is a word of all of them. The
/// numbers together are the number of words, and exactly the byte lists that are words have one.
pub fn numbers_count_words()
    ensures number { (texts : List (List ℕ)) (word : List ℕ)
        → count_in (counts_of_all texts) word
        ≡ count_by (bytes_eq word) (flat_map words_of texts) }
    ensures sum { (texts : List (List ℕ))
        → total (counts_of_all texts) ≡ length (flat_map words_of texts) }
    ensures distinct { (texts : List (List ℕ)) (word : List ℕ)
        → IsSome (map_of.get (counts_of_all texts) word)
        ↔ Contains (flat_map words_of texts) word }
{}

/// What the iterator hands out are the ranges of the text that are words, in order.
pub fn words_are_ranges()
    ensures { (text : List ℕ) → (ranges : List (ℕ × ℕ)) × AreWords text ranges
        × (words_of text ≡ map (cut text) ranges) }
{}

/// Merging adds the numbers; counts of words merge to the counts of all of them, in whatever order.
pub fn merging_keeps_counts()
    ensures numbers { (counts other : Numbers) (word : List ℕ)
        → count_in (merged counts other) word ≡ count_in counts word + count_in other word }
    ensures words { (words others : List (List ℕ))
        → merged (add_all map_of.empty words) (add_all map_of.empty others)
        ≡ add_all map_of.empty (words ++ others) }
    ensures order { (words others : List (List ℕ)) → IsPermutation words others
        → add_all map_of.empty words ≡ add_all map_of.empty others }
{}

/// The pieces of a text are cut by the rule, follow one another from its first byte to its last,
/// and cut no word.
pub fn pieces_are_the_text()
    ensures cut { (text : List ℕ) (file k : ℕ) → 0 < k
        → ArePieces text file k 0 (pieces_of text file k) }
    ensures bytes { (text : List ℕ) (file k : ℕ) → 0 < k
        → flat_map (piece_bytes text) (pieces_of text file k) ≡ text }
    ensures words { (text : List ℕ) (file k : ℕ) → 0 < k
        → flat_map (λ p. words_of (piece_bytes text p)) (pieces_of text file k) ≡ words_of text }
    ensures few { (text : List ℕ) (file k : ℕ) → 0 < k
        → length (pieces_of text file k) * k < length text + k }
{}

/// The pieces of the plan of several texts lie in them, and their words in order are those of all
/// texts.
pub fn plans_keep_words()
    ensures inside { (texts : List (List ℕ)) (k : ℕ) → 0 < k
        → All (LiesIn texts) (plan_of texts k) }
    ensures words { (texts : List (List ℕ)) (k : ℕ) → 0 < k
        → flat_map (λ p. words_of (plan_bytes texts p)) (plan_of texts k)
        ≡ flat_map words_of texts }
{}

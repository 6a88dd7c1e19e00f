ghost use Rattle.std.specs.Prelude.{◌≡◌, ◌∷◌, [], ℕ, length, map};
ghost use Rattle.std.specs.List.{range_with_len};
ghost use Rattle.word_text.specs.Counts.{counts_of_all, total};
ghost use Rattle.word_text.specs.Words.{words_of};
ghost use Rattle.generated_words.specs.Generated.{generated_text, word_of};

/// The words of the generated text are those of the rule in order, so that the numbers of its
/// counts are together the number of words that was asked for.
pub fn generated_text_has_its_words()
    ensures words { (n : ℕ) → words_of (generated_text n) ≡ map (word_of n) (range_with_len 0 n) }
    ensures counts { (n : ℕ) → total (counts_of_all (generated_text n ∷ [])) ≡ n }
{}

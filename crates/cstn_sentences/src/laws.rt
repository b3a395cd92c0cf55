//! What is written is read back. The calls do nothing: their contracts are the laws.

ghost use Rattle.std.specs.Prelude.{◌≡◌, ◌++◌, ◌∷◌, [], ℕ, ℤ, pos, List, All, Some, Ok, true, length, map, slice_index_or};
ghost use Rattle.cstn_lift.specs.Labelled.{Labelled};
ghost use Rattle.cstn_net.specs.Networks.{Constraint, IsValue, IsWellFormed, count};
ghost use Rattle.cstn_text.specs.Names.{IsName, AreNames};
ghost use Rattle.cstn_sentences.specs.Grammar.{Words};
ghost use Rattle.cstn_sentences.specs.Judged.{is_sized, line_of_text};
ghost use Rattle.cstn_sentences.specs.Lines.{PlanLine, deadline, step, rule};
ghost use Rattle.cstn_sentences.specs.Printed.{spaced_words, span_word, deadline_words, step_words, rule_words};
ghost use Rattle.cstn_sentences.specs.Sentences.{ticks, step_of, is_pair, pair_rule, alone_rule, sentences};
ghost use Rattle.cstn_sentences.specs.Spans.{span_read};
ghost use Rattle.cstn_sentences.specs.Spelling.{name_spelled, spelling};
ghost use Rattle.cstn_sentences.specs.Words.{words_of, plan_lines};
ghost use Rattle.cstn_sentences.specs.WrittenWords.{IsOneWord, IsWrittenWord, IsReadAsLine, line_bytes, network_lines};

/// The spelling of a name is one word, which is read as that name.
#[tactic(auto, using(crate::proofs::SpelledNames::name_back))]
pub fn names_are_read_back()
    ensures back { (name : List ℕ) → IsName name → name_spelled (spelling name) ≡ Some name }
    ensures word { (name : List ℕ) → IsName name → IsWrittenWord (spelling name) }
{}

/// Words with one space between them are read as these words.
#[tactic(auto, using(crate::proofs::OneWord::words_back))]
pub fn words_are_read_back()
    ensures back { (word : List ℕ) (words : Words) → IsOneWord word → All IsOneWord words → words_of (word ++ spaced_words words) ≡ word ∷ words }
{}

/// A number of ticks of at most 1,000,000,000 either way is read back.
#[tactic(auto, using(crate::proofs::WrittenNumbers::span_back))]
pub fn ticks_are_read_back()
    ensures back { (v : ℤ) → is_sized v ≡ true → span_read (span_word (ticks v)) ≡ Some (ticks v) }
{}

/// The line of a deadline, of the step of a time-point, and of the rule of a constraint or of a pair is cut into its words, and is
/// read as that deadline, step or rule.
pub fn lines_are_read_back()
    ensures deadline { (n : ℕ) → is_sized (pos n) ≡ true → IsReadAsLine (deadline_words (ticks (pos n))) (deadline (ticks (pos n))) }
    ensures step { (m : Labelled) (names : List (List ℕ)) (x : ℕ) → IsWellFormed m.base → IsName (slice_index_or names x [])
        → IsReadAsLine (step_words (step_of m names x)) (step (step_of m names x)) }
    ensures alone { (names : List (List ℕ)) (c : Constraint) → IsName (slice_index_or names c.from []) → IsName (slice_index_or names c.to []) → IsValue c.most
        → IsReadAsLine (rule_words (alone_rule names c)) (rule (alone_rule names c)) }
    ensures pair { (names : List (List ℕ)) (c d : Constraint) → IsName (slice_index_or names c.from []) → IsName (slice_index_or names c.to []) → IsValue c.most
        → IsValue d.most → is_pair c d ≡ true → IsReadAsLine (rule_words (pair_rule names c d)) (rule (pair_rule names c d)) }
{}

/// A line that is read so is accepted as what it says, whatever its number is.
pub fn lines_are_accepted()
    ensures { (n : ℕ) (words : Words) (line : PlanLine) → IsReadAsLine words line → line_of_text n (line_bytes words) ≡ Ok line }
{}

/// The sentences of a network are cut into its lines; what stands behind the last LF is empty.
#[tactic(auto, using(crate::proofs::TextLines::sentences_cut))]
pub fn sentences_are_cut_into_lines()
    ensures { (m : Labelled) (names : List (List ℕ)) → IsWellFormed m.base → AreNames names → length names ≡ count m.base
        → plan_lines (sentences m names) ≡ map line_bytes (network_lines m names) ++ ([] ∷ []) }
{}

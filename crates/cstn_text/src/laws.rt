//! What is printed is read again, and nothing else is read. The calls do nothing: their contracts are the laws.

ghost use Rattle.std.specs.Prelude.{◌≡◌, ◌<◌, ◌≤◌, ◌*◌, ◌^◌, ◌∷◌, [], ◌⊎◌, ℕ, ℤ, List, Some, FitsSigned, length};
ghost use Rattle.std.specs.Int.{w32};
ghost use Rattle.cstn_label.specs.declared.marks.Mark.TheVariants.{Absent};
ghost use Rattle.cstn_label.specs.declared.marks.Mark.{Mark};
ghost use Rattle.cstn_label.specs.Labels.{Label, empty};
ghost use Rattle.cstn_text.specs.Names.{IsName};
ghost use Rattle.cstn_text.specs.Numbers.{number_read, printed_number, value_read, printed_value};
ghost use Rattle.cstn_text.specs.PrintedLabels.{label_read, printed_label, marks_text, label_with, AreNew};
ghost use Rattle.cstn_text.specs.PrintedNames.{name_read, printed_name};
ghost use Rattle.cstn_text.specs.Parts.{IsOnePart, parts_at, joined};
ghost use Rattle.cstn_text.specs.Listings.{ListingKind, IsTextOf, told, tells};

/// Each number below 2^64 has one text.
#[tactic(auto, using(crate::proofs::NumberLemmas::number_back, crate::proofs::NumberLemmas::number_printed))]
pub fn numbers_have_one_text()
    ensures back { (n : ℕ) → n < 2 ^ 64 → number_read (printed_number n) ≡ Some n }
    ensures only { (text : List ℕ) (n : ℕ) → number_read text ≡ Some n → printed_number n ≡ text }
    ensures small { (text : List ℕ) (n : ℕ) → number_read text ≡ Some n → n < 2 ^ 64 }
{}

/// Each value from -2,147,483,648 to 2,147,483,647 has one text.
#[tactic(auto, using(crate::proofs::NumberLemmas::value_back, crate::proofs::NumberLemmas::value_printed))]
pub fn values_have_one_text()
    ensures back { (v : ℤ) → FitsSigned w32 v → value_read (printed_value v) ≡ Some v }
    ensures only { (text : List ℕ) (v : ℤ) → value_read text ≡ Some v → printed_value v ≡ text }
    ensures fits { (text : List ℕ) (v : ℤ) → value_read text ≡ Some v → FitsSigned w32 v }
{}

/// Each name has one text, and only names have one that is read.
#[tactic(auto, using(crate::proofs::PrintedNameLemmas::name_back, crate::proofs::PrintedNameLemmas::name_printed, crate::proofs::PrintedNameLemmas::printed_once))]
pub fn names_have_one_text()
    ensures back { (name : List ℕ) → IsName name → name_read (printed_name name) ≡ Some name }
    ensures only { (text name : List ℕ) → name_read text ≡ Some name → printed_name name ≡ text }
    ensures named { (text name : List ℕ) → name_read text ≡ Some name → IsName name }
    ensures once { (one other : List ℕ) → printed_name one ≡ printed_name other → one ≡ other }
{}

/// A printed name is at least as long as the name, and at most three times as long.
#[tactic(auto, using(crate::proofs::PrintedNameLemmas::name_length))]
pub fn printed_names_are_short()
    ensures least { (name : List ℕ) → length name ≤ length (printed_name name) }
    ensures most { (name : List ℕ) → length (printed_name name) ≤ 3 * length name }
{}

/// The printed form of a label that marks no proposition above 51 is read as that label.
#[tactic(auto, using(crate::proofs::PrintedLabelLemmas::label_back))]
pub fn labels_are_read_back()
    ensures back { (a : Label) → ((p : ℕ) → 52 ≤ p → a p ≡ Absent) → label_read (printed_label a) ≡ Some a }
{}

/// The texts that are read as labels are `-`, and one or more marks in any order with each letter at most once.
#[tactic(auto, using(crate::proofs::AnyOrderLemmas::label_of_marks, crate::proofs::AnyOrderLemmas::label_said))]
pub fn label_texts_are_marks()
    ensures read { (ms : List (ℕ × Mark)) → AreNew empty ms → 1 ≤ length ms → label_read (marks_text ms) ≡ Some (label_with empty ms) }
    ensures only { (text : List ℕ) (a : Label) → label_read text ≡ Some a
        → ((text ≡ 45 ∷ []) × (a ≡ empty)) ⊎
        ((ms : List (ℕ × Mark)) × (1 ≤ length ms) × AreNew empty ms × (text ≡ marks_text ms) × (a ≡ label_with empty ms)) }
{}

/// Each printed text, and each text that is read as a label, has at least one byte, and none that is a space or below it. So
/// a line of such texts can be cut at its spaces.
#[tactic(auto, using(crate::proofs::PartLemmas::number_part, crate::proofs::PartLemmas::value_part, crate::proofs::PartLemmas::name_part, crate::proofs::PartLemmas::label_part, crate::proofs::AnyOrderLemmas::label_text_part))]
pub fn printed_texts_are_parts()
    ensures number { (n : ℕ) → n < 2 ^ 64 → IsOnePart (printed_number n) }
    ensures value { (v : ℤ) → FitsSigned w32 v → IsOnePart (printed_value v) }
    ensures name { (name : List ℕ) → 1 ≤ length name → IsOnePart (printed_name name) }
    ensures label { (a : Label) → IsOnePart (printed_label a) }
    ensures label_text { (text : List ℕ) (a : Label) → label_read text ≡ Some a → IsOnePart text }
{}

/// A text that is split at a byte is joined again.
#[tactic(auto, using(crate::proofs::SplitLemmas::parts_joined))]
pub fn texts_are_their_parts()
    ensures joined { (end : ℕ) (bytes : List ℕ) → joined end (parts_at end bytes).0 (parts_at end bytes).1 ≡ bytes }
{}

/// The texts that say a load and things are exactly those that have the word of their kind and a load in its range on the first
/// line, and then the line of each thing, where the text may end after these.
pub fn listings_are_their_texts<A>()
    ensures said { (kind : ListingKind A) (bytes : List ℕ) (load : ℕ) (listed : List A) → told kind bytes ≡ tells load listed →
        IsTextOf kind load listed bytes }
    ensures says { (kind : ListingKind A) (bytes : List ℕ) (load : ℕ) (listed : List A) → IsOnePart kind.word → kind.most < 2 ^ 64
        → IsTextOf kind load listed bytes → told kind bytes ≡ tells load listed }
{}

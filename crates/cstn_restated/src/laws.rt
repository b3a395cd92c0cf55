//! What one form says is read back from the other. The calls do nothing: their contracts are the laws.

ghost use Rattle.std.specs.Prelude.{◌≡◌, ◌≤◌, ℕ, List, Some, None, Ok, length};
ghost use Rattle.cstn_lift.specs.Labelled.{Labelled};
ghost use Rattle.cstn_lift.specs.WellFormed.{IsLabelled};
ghost use Rattle.cstn_graphml.specs.Document.{Parts, document};
ghost use Rattle.cstn_graphml.specs.Networks.{network_of, labelled_of, IsFit};
ghost use Rattle.cstn_save.specs.Canonical.{canonical};
ghost use Rattle.cstn_save.specs.Names.{AreNamesOf};
ghost use Rattle.cstn_save.specs.ReadBack.{parts};
ghost use Rattle.cstn_sentences.specs.Limits.{most_plan};
ghost use Rattle.cstn_sentences.specs.Plans.{plan};
ghost use Rattle.cstn_sentences.specs.Sentences.{sentences};

/// The sentences of a network are a plan of that very network: the same names, deadline, observations, reactions and labels, and
/// the same constraints with ids from 0. A deadline that is handed in is the plan's. So the sentences of the network of a
/// document, or of a plan, have the parts of that document or plan.
pub fn sentences_are_read_back()
    ensures back { (m : Labelled) (names : List (List ℕ)) → IsLabelled m → AreNamesOf m.base names → length (sentences m names) ≤ most_plan
        → plan (sentences m names) None ≡ Ok (parts m names) }
    ensures handed { (m : Labelled) (names : List (List ℕ)) (deadline : ℕ) → IsLabelled m → AreNamesOf m.base names → length (sentences m names) ≤ most_plan
        → plan (sentences m names) (Some deadline) ≡ Ok (record (parts m names) { deadline = deadline }) }
    ensures same { (p : Parts) → IsFit p → AreNamesOf (network_of p) p.names → length (sentences (labelled_of p) p.names) ≤ most_plan
        → plan (sentences (labelled_of p) p.names) None ≡ Ok p }
{}

/// The canonical document of the network of a plan, or of a document, has the parts of that plan or document.
pub fn documents_of_plans_are_read_back()
    ensures { (p : Parts) → IsFit p → AreNamesOf (network_of p) p.names → document (canonical (labelled_of p) p.names) None ≡ Ok p }
{}

// Laws of what is broken and forgiven, and of the lines that amend a plan.
ghost use Rattle.std.specs.Prelude.{ℕ, ◌≡◌, ◌+◌, ◌↔◌, [], not, List, Some, length, IsTrue};
ghost use Rattle.std.specs.List.{Contains};
ghost use Rattle.cstn_net.specs.Networks.{Constraint};
ghost use Rattle.cstn_check.specs.Givers.{is_of, with_some};
ghost use Rattle.cstn_lift.specs.Labelled.{Labelled};
ghost use Rattle.cstn_lift.specs.WellFormed.{IsLabelled};
ghost use Rattle.cstn_history.specs.Histories.{History, IsHistory};
ghost use Rattle.cstn_history.specs.Continuations.{Can};
ghost use Rattle.cstn_change.specs.Changes.{EditedNetwork};
ghost use Rattle.cstn_follow.specs.Amending.{Amendment, printed_amendment, IsAmendment};
ghost use Rattle.cstn_follow.specs.Asking.{of_amendment, spoken_read};
ghost use Rattle.cstn_follow.specs.Blame.{network_alone};
ghost use Rattle.cstn_follow.specs.Forgiving.{IsBrokenBy, is_broken_by, broken_ids, after_removals};

/// With any one of the constraints that are broken nothing continues a history. So forgiving gives nothing up that could be kept: where
/// the history can go on, nothing is broken. Removal after removal is the network without them, with an edit counted for each; in it
/// nothing is broken.
pub fn what_is_broken_is_forgiven()
    ensures told { (m : Labelled) (h : History) (c : Constraint) → IsLabelled m → IsHistory m h → Contains m.base.constraints c
        → (IsTrue (is_broken_by m h c) ↔ IsBrokenBy m h c) }
    ensures stuck { (m : Labelled) (h : History) (c : Constraint) → Contains m.base.constraints c → IsBrokenBy m h c → Can m h → ⊥ }
    ensures kept { (m : Labelled) (h : History) → IsLabelled m → IsHistory m h → Can m h → broken_ids m h ≡ [] }
    ensures removed { (e : EditedNetwork) (ids : List ℕ) → after_removals e ids
        ≡ record { net = with_some e.net (λ i. not (is_of ids i)); fresh = e.fresh; edits = e.edits + length ids } }
    ensures none { (m : Labelled) (h : History) → broken_ids (network_alone m (λ i. not (is_of (broken_ids m h) i))) h ≡ [] }
{}

/// A line amends the plan exactly where it is the text of an amendment.
pub fn amendments_have_one_text()
    ensures back { (amendment : Amendment) → IsAmendment amendment → spoken_read (printed_amendment amendment) ≡ Some (of_amendment amendment) }
    ensures only { (text : List ℕ) (amendment : Amendment) → spoken_read text ≡ Some (of_amendment amendment)
        → (printed_amendment amendment ≡ text) × IsAmendment amendment }
{}

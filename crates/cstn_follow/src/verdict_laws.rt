// The law of verdicts.
ghost use Rattle.std.specs.Prelude.{ℕ, ◌≡◌, ◌<◌, Some};
ghost use Rattle.std.specs.List.{All};
ghost use Rattle.cstn_lift.specs.Labelled.{Labelled};
ghost use Rattle.cstn_lift.specs.WellFormed.{IsLabelled};
ghost use Rattle.cstn_check.specs.declared.verdicts.Verdict.{Verdict};
ghost use Rattle.cstn_history.specs.Histories.{History, IsTimelyHistory};
ghost use Rattle.cstn_follow.specs.Following.{verdict_left, IsRightVerdict};

/// A verdict is yes only where what has happened can go on, and no only where it can't: some table continues it, or none does. It
/// is full only where the load is above the cap.
pub fn verdicts_are_true()
    ensures right { (m : Labelled) (h : History) (fresh cap : ℕ) (v : Verdict) → IsLabelled m → IsTimelyHistory m h → All (λ c. c.id < fresh) m.base.constraints
        → verdict_left m h fresh cap ≡ Some v → IsRightVerdict m h fresh cap v }
{}

// Laws of edit sessions. The calls do nothing: their contracts are the laws.
ghost use Rattle.std.specs.Prelude.{ℕ, ℤ, ◌≡◌, ◌<◌, ◌≤◌, ◌↔◌, length, None};
ghost use Rattle.cstn_label.specs.declared.marks.Mark.TheVariants.{Absent};
ghost use Rattle.cstn_label.specs.Labels.{Label};
ghost use Rattle.cstn_net.specs.Limits.{most_constraints};
ghost use Rattle.cstn_net.specs.Networks.{Network, IsWellFormed, count};
ghost use Rattle.cstn_check.specs.Growth.{grow, load_of};
ghost use Rattle.cstn_check.specs.Kept.{IsKeptList};
ghost use Rattle.cstn_check.specs.declared.verdicts.Verdict.TheVariants.{Full};
ghost use Rattle.cstn_change.specs.Changes.{adds, removes, revalues, refusal};
ghost use Rattle.cstn_edit.specs.Edits.{Session, begun_session, edited_of, with_change, outcome_at, with_verdict};
ghost use Rattle.cstn_edit.specs.Sound.{IsSoundSession, IsTrueOf};

/// A session stays sound after every accepted edit and every verdict: its network is well-formed, and its kept list a
/// derivation of it that growth can go on from.
pub fn sessions_stay_sound()
    ensures begun { (net : Network) → IsWellFormed net → IsSoundSession (begun_session net) }
    ensures added { (room : ℕ) (s : Session) (x y : ℕ) (most : ℤ) (a : Label) → room ≤ most_constraints → ((p : ℕ) → 52 ≤ p → a p ≡ Absent) → x < count s.net
        → y < count s.net → refusal room (edited_of s) (adds x y most a) ≡ None → IsSoundSession s → IsSoundSession (with_change s (adds x y most a)) }
    ensures removed { (s : Session) (id : ℕ) → IsSoundSession s → IsSoundSession (with_change s (removes id)) }
    ensures changed { (room : ℕ) (s : Session) (id : ℕ) (most : ℤ) → refusal room (edited_of s) (revalues id most) ≡ None → IsSoundSession s
        → IsSoundSession (with_change s (revalues id most)) }
    ensures verdict { (cap : ℕ) (s : Session) → IsSoundSession s → IsSoundSession (with_verdict cap s) }
    ensures grows { (s : Session) → IsSoundSession s → IsKeptList s.net s.kept }
{}

/// Each verdict of a sound session is true of the network as edited: yes is said only where it is consistent, no only where
/// it is not. A new verdict is full exactly where both the kept list and the log of the network grow past the cap.
pub fn verdicts_are_true()
    ensures truth { (cap : ℕ) (s : Session) → IsSoundSession s → IsTrueOf s.net (outcome_at cap s).verdict }
    ensures full { (cap : ℕ) (s : Session) → s.last ≡ None
        → ((outcome_at cap s).verdict ≡ Full ↔ ((cap < length (grow s.net s.kept)) × (cap < load_of s.net))) }
{}

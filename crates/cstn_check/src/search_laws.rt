// What searches find, where the test says whether something goes.
ghost use Rattle.std.specs.Prelude.{ℕ, ◌≡◌, ◌<◌, ◌≤◌, ◌+◌, ◌^◌, Bool, true, false, List, Option, Some};
ghost use Rattle.std.specs.List.{Contains};
ghost use Rattle.cstn_net.specs.Networks.{Network};
ghost use Rattle.cstn_check.specs.Givers.{with_some, with_ids, network_without};
ghost use Rattle.cstn_check.specs.Search.{ids_left, halving};
ghost use Rattle.cstn_check.specs.declared.halving.Span.{Span};

/// Where what goes by some constraints goes by fewer, leaving out constraints finds a least set by which it doesn't go: without any
/// one of them it does.
pub fn leaving_out_finds_least_sets()
    ensures { (says : Network → Option Bool) (goes : Network → Bool) (net : Network) (ids : List ℕ)
        → ((part : Network) (v : Bool) → says part ≡ Some v → goes part ≡ v)
        → ((a b : ℕ → Bool) → ((id : ℕ) → a id ≡ true → b id ≡ true) → goes (with_some net b) ≡ true → goes (with_some net a) ≡ true)
        → goes net ≡ false → ids_left says net ≡ Some ids
        → (goes (with_ids net ids) ≡ false) × ((id : ℕ) → Contains ids id → goes (network_without id (with_ids net ids)) ≡ true) }
{}

/// Where it goes at the lower end of a span, not beyond the upper one, and at each moment before one at which it goes, halving finds
/// the last moment at which it goes.
pub fn halving_finds_last_moments()
    ensures { (says : ℕ → Option Bool) (goes : ℕ → Bool) (s : Span) (t : ℕ) → ((u : ℕ) (v : Bool) → says u ≡ Some v → goes u ≡ v)
        → ((u w : ℕ) → u ≤ w → goes w ≡ true → goes u ≡ true) → goes s.low ≡ true → ((u : ℕ) → goes u ≡ true → u ≤ s.high)
        → s.high < s.low + 2 ^ 20 → halving says 20 s ≡ Some t → (goes t ≡ true) × ((u : ℕ) → goes u ≡ true → u ≤ t) }
{}

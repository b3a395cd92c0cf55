//! Laws of hosts. The functions here do nothing: their contracts are the laws. What they say of lists of calls holds of every
//! host, since the clauses *answer* and *after* of its calls say just what `answer_on` and `host_after` say.
ghost use Rattle.std.specs.Prelude.{ℕ, ◌≡◌, ◌≢◌, ◌<◌, ◌++◌, [], ◌∷◌, List, Bool, Some, false, length};
ghost use Rattle.cstn_plan.specs.Plans.{PlanParts};
ghost use Rattle.cstn_run.specs.hosted.Hosts.{HostParts, nothing_open, case_at};
ghost use Rattle.cstn_run.specs.hosted.Calls.{HostCall, CallOn, Open, Close, answer_on, host_after, host_after_all, answers_on, answers_to};
ghost use Rattle.cstn_run.specs.hosted.Own.{own_calls, calls_on, answer_by};
ghost use Rattle.cstn_run.specs.hosted.Examples.{branch_parts, branch_calls, hosted_branch_answers, on};

/// After any list of calls, the answer to a call on an id depends only on the plans and on that id's own calls since it was
/// opened: it is the answer of an executive that gets these calls alone.
#[tactic(auto, using(crate::proofs::hosts::OwnLemmas::answered))]
pub fn answers_follow_own_calls()
    ensures answer { (plans : List PlanParts) (calls : List CallOn) (id : ℕ) (call : HostCall)
        → answer_on (host_after_all (nothing_open plans) calls) id call ≡ answer_by plans id (own_calls (length plans) calls id) call }
{}

/// A call on an id changes neither the plans nor what another id is open over, and adds nothing to the own calls of another id.
#[tactic(auto, using(crate::proofs::hosts::OwnLemmas::leaves_case, crate::proofs::hosts::OwnLemmas::leaves_own))]
pub fn calls_leave_other_ids()
    ensures case { (host : HostParts) (id other : ℕ) (call : HostCall) → other ≢ id → case_at (host_after host id call) other ≡ case_at host other }
    ensures own { (files : ℕ) (calls : List CallOn) (id other : ℕ) (call : HostCall) → other ≢ id
        → own_calls files (calls ++ on id call ∷ []) other ≡ own_calls files calls other }
    ensures plans { (host : HostParts) (id : ℕ) (call : HostCall) → (host_after host id call).plans ≡ host.plans }
{}

/// Two lists that have the same calls on an id, with the same want of memory, have the same answers to these calls and to any
/// call on the id after them, whatever calls on other ids come between.
pub fn hosts_keep_ids_apart()
    ensures each { (plans : List PlanParts) (calls others : List CallOn) (id : ℕ) → calls_on id calls ≡ calls_on id others
        → answers_to id (nothing_open plans) calls ≡ answers_to id (nothing_open plans) others }
    ensures apart { (plans : List PlanParts) (calls others : List CallOn) (id : ℕ) (call : HostCall) → calls_on id calls ≡ calls_on id others
        → answer_on (host_after_all (nothing_open plans) calls) id call ≡ answer_on (host_after_all (nothing_open plans) others) id call }
{}

/// An id that is closed and opened again has no earlier calls of its own.
#[tactic(auto, using(crate::proofs::hosts::OwnLemmas::anew))]
pub fn reopened_ids_start_anew()
    ensures anew { (files : ℕ) (calls : List CallOn) (id file : ℕ) → id < 64 → file < files
        → own_calls files (calls ++ on id Close ∷ (on id (Open file false) ∷ [])) id ≡ Some (record { file = file; events = [] }) }
{}

/// What is answered while two ids are open over one plan.
pub fn answers_are_known()
    ensures branch { answers_on (nothing_open (branch_parts ∷ [])) branch_calls ≡ hosted_branch_answers }
{}

// Laws of the answers to host lines.
ghost use Rattle.std.specs.Prelude.{ℕ, ◌≡◌, ◌<◌, ◌++◌, [], ◌∷◌, List, None, Some, length, map, flat_map};
ghost use Rattle.std.specs.List.{All};
ghost use Rattle.cstn_exec.specs.Runs.{Run};
ghost use Rattle.cstn_exec.specs.Moves.{moment_refusal};
ghost use Rattle.cstn_lines.specs.LiveLines.{Live, live_read};
ghost use Rattle.cstn_lines.specs.HostLines.{Hosted, opened, put_on, closed, host_read};
ghost use Rattle.cstn_reply.specs.Texts.{line};
ghost use Rattle.cstn_exec.specs.Running.{run_turn};
ghost use Rattle.cstn_reply.specs.Reached.{LeadsTo as SessionLeadsTo, Says};
ghost use Rattle.cstn_run.specs.hosted.Sessions.{File, HostSession, host_begun, hosted_file, fresh, agreed_text, session_after, host_turn, host_ending};
ghost use Rattle.cstn_run.specs.hosted.Alone.{Own, lines_on, said_to, after_all, said_after, alone_lines};
ghost use Rattle.cstn_run.specs.hosted.Alone.{alone_after, alone_said, turn_text, LeadsToRun, own_lines};
ghost use Rattle.cstn_run.specs.hosted.Alone.{own_file, own_run, said_by};
ghost use Rattle.cstn_run.specs.hosted.Files.{Named, the_file};
ghost use Rattle.cstn_run.specs.hosted.Least.{HasStrategy, HasPlanBounds, HostNamesLeast, HostTellsDue};

use cstn_check::growth_decides;
use cstn_exec::{due_is_exact, runs_stay_right, the_named_are_called};

/// Two lists of host lines that have the same lines on an id have the same answers to it, whatever lines on other ids come
/// between.
pub fn lines_of_other_ids_make_no_difference()
    ensures each { (files : List File) (lines others : List Hosted) (id : ℕ) → lines_on id lines ≡ lines_on id others
        → said_to id (host_begun files) lines ≡ said_to id (host_begun files) others }
{}

/// After any host lines, the answer to a line depends only on the files and on the own lines of its id: those since the last
/// `open` that was answered by `opened`, where it wasn't closed since. So where a session goes on after lines, it answers the
/// next one.
pub fn answers_follow_own_lines()
    ensures answer { (files : List File) (lines : List Hosted) (hosted : Hosted) → said_after files lines hosted ≡ said_by files lines hosted }
    ensures text { (files : List File) (before : List (List ℕ)) (next : List ℕ) (lines : List Hosted) (hosted : Hosted) (session : HostSession)
        → map host_read before ≡ map Some lines → host_read next ≡ Some hosted → SessionLeadsTo host_turn (host_begun files) before next session
        → Says host_turn host_ending (host_begun files) before next (said_by files lines hosted) }
{}

/// Whatever lines came before, where `open` of an id is answered by `opened`, the live lines that follow on the id are answered
/// as a run of that file's plan alone answers them from its start, each line after the id.
#[tactic(auto, using(crate::proofs::hosts::Own::opened_alone))]
pub fn ids_are_answered_alone()
    ensures alone { (files : List File) (before lines : List Hosted) (id file : ℕ) (lives : List Live)
        → said_after files before (opened id file) ≡ agreed_text (opened id file) → lines_on id lines ≡ map (put_on id) lives
        → said_to id (session_after (after_all (host_begun files) before) (opened id file)) lines
        ≡ alone_said id (hosted_file files file) (fresh files file).run lives }
{}

/// An id that is closed isn't open, whatever lines came before, and once it is opened again it has no earlier lines of its own.
#[tactic(auto, using(crate::proofs::hosts::Own::not_open, crate::proofs::hosts::Own::anew))]
pub fn reopened_ids_have_no_earlier_lines()
    ensures not_open { (files : List File) (lines : List Hosted) (id : ℕ) → own_lines files id (lines ++ closed id ∷ []) ≡ None }
    ensures anew { (files : List File) (lines : List Hosted) (id file : ℕ) → own_lines files id lines ≡ None → id < 64 → file < length files
        → own_lines files id (lines ++ opened id file ∷ []) ≡ Some (record { file = file; lives = [] }) }
{}

/// Where each network has a strategy, each file that `host` makes of them has a plan. Where the files have plans, then on an open
/// id, whatever lines came before, an accepted moment names exactly the time-points that aren't executed yet and whose least
/// moment it is, in each scenario that agrees with what is known; and `due` tells the due moment, or that all is done.
pub fn open_ids_name_the_least()
    ensures planned { (all : List Named) → All HasStrategy all → All HasPlanBounds (map the_file all) }
    ensures least { (files : List File) (lines : List Hosted) (id t : ℕ) (own : Own) → All HasPlanBounds files → own_lines files id lines ≡ Some own
        → moment_refusal (own_file files own).net (own_file files own).bounds (own_run files own) t ≡ None → HostNamesLeast files lines id t own }
    ensures due { (files : List File) (lines : List Hosted) (id : ℕ) (own : Own) → All HasPlanBounds files → own_lines files id lines ≡ Some own
        → HostTellsDue files lines id own }
{
    growth_decides();
    runs_stay_right();
    the_named_are_called();
    due_is_exact();
}

/// A run of a file's plan alone answers as the command `run` does: up to the moment that executes the last time-point, it says
/// the same lines, and goes on in the same way.
#[tactic(auto, using(crate::proofs::hosts::Apart::alone_text, crate::proofs::hosts::Apart::alone_leads))]
pub fn runs_answer_alone()
    ensures text { (file : File) (run : Run) (live : Live) (bytes : List ℕ) → live_read bytes ≡ Some live
        → turn_text (run_turn file.names file.net file.bounds run bytes) ≡ flat_map line (alone_lines file run live) }
    ensures leads { (file : File) (run : Run) (live : Live) (bytes : List ℕ) → live_read bytes ≡ Some live
        → LeadsToRun file (alone_after file run live) (run_turn file.names file.net file.bounds run bytes) }
{}

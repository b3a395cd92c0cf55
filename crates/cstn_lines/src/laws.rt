//! Laws of lines. The calls do nothing: their contracts are the laws.
ghost use Rattle.std.specs.Prelude.{◌≡◌, ◌⊎◌, ◌++◌, [], ◌∷◌, ℕ, List, Some};
ghost use Rattle.cstn_lines.specs.Pieces.{lines_of, lines_joined};
ghost use Rattle.cstn_lines.specs.EditLines.{Edit, IsEdit, IsTextOf, edit_read, printed_edit};
ghost use Rattle.cstn_lines.specs.FollowLines.{Follow, IsFollow, IsTextOf as IsTextOfFollow, follow_read, printed_follow};
ghost use Rattle.cstn_lines.specs.HostLines.{Hosted, IsHosted, host_read, printed_hosted};
ghost use Rattle.cstn_lines.specs.LiveLines.{Live, IsLiveLine, live_read, printed_live};

/// Each live line has one text.
#[tactic(auto, using(crate::proofs::LiveLemmas::live_back, crate::proofs::LiveLemmas::live_only, crate::proofs::LiveLemmas::live_is))]
pub fn live_lines_have_one_text()
    ensures back { (line : Live) → IsLiveLine line → live_read (printed_live line) ≡ Some line }
    ensures only { (text : List ℕ) (line : Live) → live_read text ≡ Some line → printed_live line ≡ text }
    ensures live { (text : List ℕ) (line : Live) → live_read text ≡ Some line → IsLiveLine line }
{}

/// What is printed of an edit line is read again as the same line. What is read as an edit line is the text of
/// one, where a label's marks may stand in any order.
#[tactic(auto, using(crate::proofs::EditLemmas::edit_back, crate::proofs::EditLemmas::edit_only, crate::proofs::EditLemmas::edit_is))]
pub fn edit_lines_are_read_back()
    ensures back { (line : Edit) → IsEdit line → edit_read (printed_edit line) ≡ Some line }
    ensures only { (text : List ℕ) (line : Edit) → edit_read text ≡ Some line → IsTextOf line text }
    ensures edit { (text : List ℕ) (line : Edit) → edit_read text ≡ Some line → IsEdit line }
{}

/// What is printed of a line of a session that follows a plan is read again as the same line. What is read as such a line is
/// the text of one, where the marks of an edit's label may stand in any order.
#[tactic(auto, using(crate::proofs::FollowLemmas::follow_back, crate::proofs::FollowLemmas::follow_only, crate::proofs::FollowLemmas::follow_is))]
pub fn follow_lines_are_read_back()
    ensures back { (line : Follow) → IsFollow line → follow_read (printed_follow line) ≡ Some line }
    ensures only { (text : List ℕ) (line : Follow) → follow_read text ≡ Some line → IsTextOfFollow line text }
    ensures follow { (text : List ℕ) (line : Follow) → follow_read text ≡ Some line → IsFollow line }
{}

/// Each host line has one text.
#[tactic(auto, using(crate::proofs::HostLemmas::host_back, crate::proofs::HostLemmas::host_only, crate::proofs::HostLemmas::host_is))]
pub fn host_lines_have_one_text()
    ensures back { (line : Hosted) → IsHosted line → host_read (printed_hosted line) ≡ Some line }
    ensures only { (text : List ℕ) (line : Hosted) → host_read text ≡ Some line → printed_hosted line ≡ text }
    ensures hosted { (text : List ℕ) (line : Hosted) → host_read text ≡ Some line → IsHosted line }
{}

/// The lines of some bytes, each with its LF, are these bytes, but for the last LF, which they may lack.
#[tactic(auto, using(crate::proofs::PieceLemmas::joined_lines))]
pub fn joined_lines_are_the_bytes()
    ensures { (bs : List ℕ) → (lines_joined (lines_of bs) ≡ bs) ⊎ (lines_joined (lines_of bs) ≡ bs ++ 10 ∷ []) }
{}

use cstn_check::Verdict;

/// The answer of a session: the verdict of the network as edited, and whether the kept list was thrown away for it.
#[derive(Clone, Copy, Debug, PartialEq, Eq)]
pub struct Outcome {
    pub afresh: bool,
    pub verdict: Verdict,
}

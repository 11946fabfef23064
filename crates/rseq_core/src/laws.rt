//! What holds of whole sequences, as definitions.
ghost use Rattle.rseq_core.specs.Alone.{PopsWhole, PushesWhole, ExitsAlone};

/// A sequence whose instructions all run with no act between them takes or adds exactly its objects,
/// or changes nothing and says why.
pub fn sequences_are_whole()
    ensures pops { PopsWhole }
    ensures pushes { PushesWhole }
    ensures exits { ExitsAlone }
{}

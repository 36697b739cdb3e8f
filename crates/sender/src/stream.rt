//! The laws of sent streams.
ghost use Rattle.sender.specs.Stream.{StreamLaws};

/// What holds of every sent stream: this call does nothing, and its contract is the proof of that.
#[tactic(auto, using(crate::proofs::Streams::stream_laws))]
pub fn stream_laws_hold()
    ensures { StreamLaws }
{}

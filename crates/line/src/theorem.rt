//! The theorem of the line, named by a call, and that it is not empty.
ghost use Rattle.line.specs.Instances.{Instances};
ghost use Rattle.line.specs.Theorem.{LineTheorem};

/// What holds of every list of calls on both ends: this call does nothing, and its contract is the theorem.
pub fn line_theorem_holds()
    ensures { LineTheorem }
{}

/// Calls on both ends exist that bring about what the theorem asks for: this call does nothing, and its contract shows them.
#[tactic(auto, using(crate::proofs::StreamInstance::stream_arrives, crate::proofs::BurstInstance::burst_arrives, crate::proofs::WrongBitInstances::mended_arrives, crate::proofs::WrongBitInstances::two_wrong_arrives))]
pub fn instances_exist()
    ensures { Instances }
{}

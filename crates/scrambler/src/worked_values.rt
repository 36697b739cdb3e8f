//! The worked values of header check, generator, coding and phase finder.
ghost use Rattle.scrambler.specs.WorkedValues.{WorkedValuesHold};

/// The definitions give each worked value: this call does nothing, and its contract is the proof of the table.
pub fn worked_values_hold()
    ensures { WorkedValuesHold }
{}

//! Worked runs of the machine, with what each comes to (`specs/WorkedRuns.antt`, and those that go
//! through the instructions in `WorkedInstructions.antt`). `proofs/` plays each by computing with
//! the definitions alone, with the plain machine beside it.
#![tactic(auto)]

ghost use Rattle.machine_plays.specs.Occurring.{AllInstructionsOccur, AllPhasesOccur};
ghost use Rattle.machine_plays.specs.Occurring.{OpcodesAreCounted};

/// Each phase of a thread occurs in five of the runs.
pub fn all_phases_occur()
    ensures { AllPhasesOccur }
{}

/// Each instruction (JVMS 6.5) is made in five of the runs.
pub fn all_instructions_occur()
    ensures { AllInstructionsOccur }
{}

/// The table of instructions has `opcode_count` opcodes.
pub fn opcodes_are_counted()
    ensures { OpcodesAreCounted }
{}

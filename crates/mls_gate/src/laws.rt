//! Properties of the gate's definitions. No caller needs to run these functions.

ghost use Rattle.mls_gate.specs.GateReports.{GateIsUnique, GateExists};
ghost use Rattle.mls_gate.specs.GateRuns.{GatesRise, GatesAreValid, GateAnswersAreTrusted, GateStatesResume};

/// What a gate writes, and its verdict, are determined by the bytes of its inputs and the verification function of the
/// checker, however the bytes of its records are divided among reads.
pub fn gates_are_determined()
    ensures { GateIsUnique }
{}

/// A gate has a report for any bytes and any checker. So contracts that allow `Memory`, `Read` and `Write` never allow
/// only these.
pub fn gate_reports_exist()
    ensures { GateExists }
{}

/// The records of a gate are a rising run of its follower, so all theorems on these hold
/// ([`mls_follow::laws::rising_runs_are_folds`]): the follower's state is valid, and if each signature of a message was
/// learnt, the message has the answer that it has if every signature is good. From the file of the state a follower resumes in this
/// state.
pub fn gates_are_rising_runs()
    ensures rise { GatesRise }
    ensures valid { GatesAreValid }
    ensures trusted { GateAnswersAreTrusted }
    ensures resumes { GateStatesResume }
{}

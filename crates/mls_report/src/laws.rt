//! Properties of the reports' definitions. No caller needs to run these functions.

ghost use Rattle.mls_report.specs.UniqueReports.{InputIsUnique, LogIsUnique, ReplayIsUnique, MessageSignaturesAreUnique, SignaturesAreUnique};
ghost use Rattle.mls_report.specs.ReportsExist.{InputExists, ReplayExists, SignaturesExist};
ghost use Rattle.mls_report.specs.CoveredReports.{CoveredReportsReplay};
ghost use Rattle.mls_report.specs.SavedStates.{SavedStatesResume, LaterMessagesFollow};
ghost use Rattle.mls_report.specs.ValidEpochs.{ReportedEpochsAreStrict, ReportedEpochsAreValid};

/// The bytes of a source determine what is read of it to its end, however they are divided among reads. For any bytes there
/// is something that is read of them.
pub fn inputs_are_determined()
    ensures unique { InputIsUnique }
    ensures exists { InputExists }
{}

/// A replay is determined by the bytes of its inputs, the verification function of the signature check and the time, however the
/// bytes of the log are divided among reads: the messages of the log, the answer to each, whether the log is broken, the
/// text, and the verdict. Only which fault is named of an undecodable input is not.
pub fn replays_are_determined()
    ensures log { LogIsUnique }
    ensures report { ReplayIsUnique }
{}

/// The report `signatures` is determined by the bytes of its inputs and the verification function of the receipts,
/// however the bytes of the log are divided among reads: the signatures of each message, the text, and the verdict. Only
/// which fault is named of an undecodable input is not.
pub fn signatures_are_determined()
    ensures messages { MessageSignaturesAreUnique }
    ensures report { SignaturesAreUnique }
{}

/// For any bytes and any verification function of the signature check `replay` and `signatures` have a report. So contracts
/// that allow `Memory`, `Read` and `Write` never allow only these.
pub fn reports_exist()
    ensures replay { ReplayExists }
    ensures signatures { SignaturesExist }
{}

/// Each epoch that `validate` or `replay` reports has a tree that is valid by the GroupContext's tree hash, and valid
/// members by its required capabilities, though the tree is validated only where a follower starts or resumes.
pub fn reported_epochs_are_valid()
    ensures { ReportedEpochsAreValid }
{}

/// In each epoch that `validate` or `replay` reports the follower has the strict rules that are asked. Its GroupContext, its
/// tree and its pending proposals meet its strict rules, though a tree is checked by them only where a follower starts or
/// they are added to those of a resumed state.
pub fn reported_epochs_are_strict()
    ensures { ReportedEpochsAreStrict }
{}

/// Suppose a check accepts every signature that `signatures` lists of the start and of the messages of a log. Then a
/// follower with this check, the same profile and the same strict rules starts in the same state as one that accepts every
/// signature, and `replay` gives the same answers and states.
pub fn covered_reports_replay()
    ensures { CoveredReportsReplay }
{}

/// From the file of the state after a log a follower resumes in this state, with the same strict rules. It processes the
/// messages after this log with the same results and the same states as the follower that goes on.
pub fn saved_states_resume()
    ensures resume { SavedStatesResume }
    ensures later { LaterMessagesFollow }
{}

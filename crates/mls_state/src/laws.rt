//! Theorems on state files.

ghost use Rattle.mls_state.specs.Layout.{group_mode, rule_set, follower_state, state_file};
ghost use Rattle.mls_state.specs.StateFile.{StateIsUnique, FileIsUnique};
ghost use Rattle.mls_wire.specs.Encoding.{IsUniquelyDecodable};

/// Bytes encode at most one value of each type, and no encoding is a proper prefix of another.
pub fn unambiguous()
    ensures mode { IsUniquelyDecodable group_mode }
    ensures rules { IsUniquelyDecodable rule_set }
    ensures state { IsUniquelyDecodable follower_state }
    ensures file { IsUniquelyDecodable state_file }
{}

/// Bytes are the file of at most one state, and a state has at most one file.
pub fn states_have_one_file()
    ensures state { StateIsUnique }
    ensures file { FileIsUnique }
{}

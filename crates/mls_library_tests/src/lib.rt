//! Worked examples that are no rows of `mls_rows`: a crate of tests alone, with nothing public and no program.
//!
//! The libraries have no tests of their own, since a crate with tests is proved twice. A proof covers what contracts
//! say; docs/TESTING.md says what is tested, and how. Here are the examples whose arguments or results have no bytes:
//! devices that fail, journals, cached hashes, indexes, and inputs at the limits. Here are also sets of strict rules, and
//! those that are added to a follower or asked of a single tree, KeyPackages by themselves, KeyPackages and GroupInfos in a
//! group, the facts of messages, groups with keys that begin alike, and the fronts of bodies that a message stores unread.
//!
//! Expected values are worked out by hand from the RFC's text, and are never what the libraries returned.
#![tactic(auto)]

#[cfg(test)]
mod added_rules;
#[cfg(test)]
mod devices;
#[cfg(test)]
mod examinations;
#[cfg(test)]
mod failing_runs;
#[cfg(test)]
mod gate_devices;
#[cfg(test)]
mod journals;
#[cfg(test)]
mod kept_hashes;
#[cfg(test)]
mod keys_alike;
#[cfg(test)]
mod large_inputs;
#[cfg(test)]
mod limits;
#[cfg(test)]
mod message_facts;
#[cfg(test)]
mod notation;
#[cfg(test)]
mod packages;
#[cfg(test)]
mod replay_devices;
#[cfg(test)]
mod report_devices;
#[cfg(test)]
mod rules;
#[cfg(test)]
mod stored_states;
#[cfg(test)]
mod stored_values;
#[cfg(test)]
mod strict_group;
#[cfg(test)]
mod strict_trees;
#[cfg(test)]
mod support;
#[cfg(test)]
mod timed_replays;
#[cfg(test)]
mod tree_entries;
#[cfg(test)]
mod tree_indexes;
#[cfg(test)]
mod unread_bodies;
#[cfg(test)]
mod wire;

//! What a delivery service receives besides handshakes: KeyPackages (RFC 9420, 10) and GroupInfos (12.4.3).
//!
//! [`check_package`] says whether a KeyPackage is good by itself, before it is kept in a directory, and [`package_finding`] says
//! so of the bytes of a message. [`examine`] says whether a message fits a group that is followed: whether the group can add a
//! client by its KeyPackage ([`examine_package`]), or whether a GroupInfo is one of the group's ([`examine_info`]). No
//! examination changes a follower. [`Unfit`] says why a message is not fit.
#![tactic(auto)]

mod addable_packages;
mod current_infos;
mod examinations;
mod external_pubs;
mod finding;
mod group_infos;
mod later_infos;
pub mod laws;
mod package_check;
mod unaccepted_signatures;
mod unfit;

pub use addable_packages::examine_package;
pub use examinations::{Examined, examine};
pub use finding::{PackageFinding, package_finding};
pub use group_infos::{InfoFacts, examine_info};
pub use package_check::{PackageFacts, check_package};
pub use unaccepted_signatures::UnacceptedSignatures;
pub use unfit::Unfit;

//! KeyPackages by themselves.

use crate::output::{Output, Stop, have};
use mls_check::Receipts;
use mls_examine::{PackageFacts, Unfit, check_package};
use mls_msgs::{KeyPackage, Message, Rules, decode_message};
use std::alloc::Global;

/// Decodes a KeyPackage.
fn key_package_of(alloc: Global, message: &str) -> Result<KeyPackage, Stop> {
    let input = have(hex::decode(alloc, message))?;
    match decode_message(alloc, input.as_slice()) {
        Ok(Message::KeyPackage(key_package)) => Ok(key_package),
        _ => Err(Stop::Memory),
    }
}

/// Returns the KeyPackageRef of a good KeyPackage, or how many signatures are not good.
fn output_of(
    alloc: Global,
    was_refused: bool,
    answer: Result<PackageFacts, Unfit>,
) -> Result<Output, Stop> {
    let text = match answer {
        Ok(facts) => have(hex::encode(alloc, facts.reference.as_slice()))?,
        Err(Unfit::Unsigned(signatures)) => {
            let count = signatures.as_slice().len();
            have(format!(in alloc; "{count} signatures that are not good"))?
        }
        Err(_) => return Err(Stop::NotRead),
    };
    Ok(Output { was_refused, text })
}

/// Checks a KeyPackage, under a checker of these receipts.
pub(crate) fn check_alone(alloc: Global, message: &str, receipts: &str) -> Result<Output, Stop> {
    let key_package = key_package_of(alloc, message)?;
    let checker = have(Receipts::read(alloc, receipts.as_bytes()))?;
    match check_package(alloc, &key_package, Rules::plain(), &checker) {
        Err(Unfit::OutOfMemory) => {
            let again = check_package(alloc, &key_package, Rules::plain(), &checker);
            output_of(alloc, true, again)
        }
        answer => output_of(alloc, false, answer),
    }
}

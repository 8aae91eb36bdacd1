//! Theorems about the definitions of this crate. No caller needs to run the functions.

ghost use Rattle.mls_examine.specs.GroupLaws.{AddableIsGood, CurrentInfosRestart, CurrentInfosStartAlone, ExaminationExists, ExaminationsAreCovered, ExaminationsStay, ExaminedIsNotUnfit, ExaminedIsUnique, LaterInfosStart, UnfitIsUnique};
ghost use Rattle.mls_examine.specs.OneAddCommits.{AddableIsAcceptable, UnaddableIsRefused, UnsignedIsRefused};
ghost use Rattle.mls_examine.specs.PackageFindingLaws.{PackageFindingExists, PackageFindingIsUnique};
ghost use Rattle.mls_examine.specs.PackageLaws.{CoveredPackagesAreGood, GoodPackagesCanBeAdded, GoodPackagesStay, LoneLeavesAreValid, NoFaultOfGood, PackageFactsAreUnique, PackageFaultIsUnique, PackageOrFault};

/// A KeyPackage is good by itself, or there is a reason why it is not: never both, and no two reasons. So the result is
/// determined, unless memory runs out.
pub fn package_or_one_fault()
    ensures some { PackageOrFault }
    ensures apart { NoFaultOfGood }
    ensures one { PackageFaultIsUnique }
{}

/// If a checker comes to accept more signatures, a KeyPackage that was good remains good, with the same facts.
pub fn good_packages_stay()
    ensures good { GoodPackagesStay }
    ensures facts { PackageFactsAreUnique }
{}

/// A good KeyPackage is valid in an Add, in each group of its version and its cipher suite. Only other rules of a commit can keep
/// a group from adding its client, such as what the group requires.
pub fn good_packages_can_be_added()
    ensures { GoodPackagesCanBeAdded }
{}

/// If only signatures keep a KeyPackage from being good, it is good under a checker that accepts those that are listed, and
/// what the first one accepts. Nothing else has to be checked again.
pub fn listed_signatures_suffice()
    ensures { CoveredPackagesAreGood }
{}

/// The rules for the extensions and the credential of a KeyPackage's leaf node are those of leaf validation (RFC 9420, 7.3), in
/// the tree of this one leaf and in a group that requires nothing.
pub fn lone_leaves_are_valid()
    ensures { LoneLeavesAreValid }
{}

/// A KeyPackage by which the group of a follower can add a client is good by itself, by the strict rules of the follower. So a
/// directory that keeps good ones refuses none that a group could use.
pub fn addable_is_good()
    ensures { AddableIsGood }
{}

/// A commit of one Add, by value and without a path, is acceptable if and only if the group can add the client, provided that a
/// member has signed it for this group and epoch, and that its tags meet strict rule 40 if the follower has it. Otherwise the
/// commit is refused: for the rule that the reason names, if the signatures of the KeyPackage are good, else as an invalid Add, unless
/// the group is over or its epoch is the last one.
pub fn addable_is_acceptable()
    ensures acceptable { AddableIsAcceptable }
    ensures refused { UnaddableIsRefused }
    ensures unsigned { UnsignedIsRefused }
{}

/// Any bytes fit the group of a follower, or there is a reason why they do not: never both, and no two reasons. What is known of
/// bytes that fit is one thing. So the result of an examination is determined, unless memory runs out.
pub fn examinations_are_determined()
    ensures some { ExaminationExists }
    ensures apart { ExaminedIsNotUnfit }
    ensures facts { ExaminedIsUnique }
    ensures one { UnfitIsUnique }
{}

/// If a checker comes to accept more signatures, a message that fitted the group remains fit, with the same facts.
pub fn examinations_stay()
    ensures { ExaminationsStay }
{}

/// If only signatures keep a message from fitting the group, it fits under a checker that accepts those that are listed, and
/// what the first one accepts. Nothing else has to be checked again.
pub fn examinations_are_covered()
    ensures { ExaminationsAreCovered }
{}

/// A GroupInfo of the present epoch fits if and only if a follower starts from it where this follower is, with the follower's
/// tree: by the same rules, without pending proposals, and before the first commit. If it has a ratchet_tree, it needs no other.
pub fn current_infos_restart()
    ensures restarts { CurrentInfosRestart }
    ensures alone { CurrentInfosStartAlone }
{}

/// A GroupInfo of a later epoch fits if and only if a follower starts from it and the tree in it, by the same rules and in the
/// same profile, in a later epoch of the group, and its signer has a signature key of this follower's tree.
pub fn later_infos_start()
    ensures { LaterInfosStart }
{}

/// For any bytes there is a finding. It is determined by the bytes, the strict rules that are asked and the verification
/// function of the signature check, except for which fault is named of undecodable bytes.
pub fn one_package_finding()
    ensures some { PackageFindingExists }
    ensures one { PackageFindingIsUnique }
{}

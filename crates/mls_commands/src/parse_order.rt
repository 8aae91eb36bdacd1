//! Parsing a command line.

ghost use Rattle.std.specs.Prelude.{◌≡◌, ◌≢◌, ◌≤◌, ◌^◌, ◌↔◌, ◌⊎◌, IsTrue, IfOk, IfErr, codes, Some, None, count_by, length, option_map, map, string_bytes};
ghost use Rattle.clap.specs.Values.{kind_of};
ghost use Rattle.clap.specs.Words.{Text, all_of, first_of, rows_of, found_of, subcommand_rows_of};
ghost use Rattle.mls_commands.specs.Orders.{IsProfile, IsNamedProfile, IsChecker, IsGroup, IsSave, AreReplayOptions, IsFirstChecker, SelectsReceipts, NamesFiles, IsWithoutGroup, IsOrder, IsGiven, IsOrderOf, is_stdin_name, stdin_count, IsHelp, IsUsage, AsksForHelp, AsksForHelpAlone, RefusesArguments, kind_text, check_kind_text};
ghost use Rattle.mls_commands.specs.Orders as specs;

use crate::arguments::{is_set, usage, value, values};
use crate::asked_rules::asked_rules;
use crate::asked_time::asked_time;
use crate::clap_command::mlscheck_command;
use crate::file_name::FileName;
use crate::order::{CheckerChoice, GroupFiles, GroupReport, Order, OrderFault, ReplayOptions};
use clap::error::ErrorKind;
use clap::{ArgMatches, Error};
use mls_msgs::Profile;
use mls_show::{CheckKind, ShowKind};
use std::alloc::{AllocError, Global};

/// Returns clap's refusal as a fault.
fn refusal(alloc: Global, error: &Error) -> OrderFault
    ensures memory { kind_of error.now ≡ ErrorKind.OutOfMemory → result ≡ OrderFault.Memory }
    ensures help { IsHelp result → (kind_of error.now ≡ ErrorKind.DisplayHelp)
        ⊎ (kind_of error.now ≡ ErrorKind.DisplayVersion) }
    ensures usage { IsUsage result → (kind_of error.now ≢ ErrorKind.DisplayHelp)
        × (kind_of error.now ≢ ErrorKind.DisplayVersion) }
{
    match format!(in alloc; "{error}") {
        Ok(text) => match error.kind() {
            ErrorKind::OutOfMemory => OrderFault::Memory,
            ErrorKind::DisplayHelp | ErrorKind::DisplayVersion => OrderFault::Help(text),
            _ => OrderFault::Usage(text),
        },
        Err(_) => OrderFault::Memory,
    }
}

/// Returns the file that an argument names.
fn file_of(alloc: Global, matches: &ArgMatches<'_>, id: &str) -> Result<FileName, OrderFault>
    ensures file { IfOk result (λ f. first_of id.now (rows_of (found_of matches.now)) ≡ Some f) }
    ensures refused { IfErr result
        (RefusesArguments (λ (f : FileName). first_of id.now (rows_of (found_of matches.now)) ≡ Some f)) }
    ensures never_help { IfErr result (λ e. IsHelp e → ⊥) }
{
    match value(matches, id) {
        Some(text) => Ok(FileName::new(alloc, text)?),
        None => Err(usage(alloc, "usage: a file is missing\n")),
    }
}

/// Returns the file that an argument may name.
fn optional_file_of(
    alloc: Global,
    matches: &ArgMatches<'_>,
    id: &str,
) -> Result<Option<FileName>, OrderFault>
    ensures file { IfOk result (λ f. first_of id.now (rows_of (found_of matches.now)) ≡ f) }
    ensures memory { IfErr result (λ e. e ≡ OrderFault.Memory) }
{
    match value(matches, id) {
        Some(text) => Ok(Some(FileName::new(alloc, text)?)),
        None => Ok(None),
    }
}

/// Returns the file names with these texts.
fn named_files(alloc: Global, names: &[&str]) -> Result<Vec<FileName>, AllocError>
    ensures { IfOk result (λ files. files.items ≡ map (λ name. name.now) names.now) }
{
    let mut files = Vec::new(alloc);
    for name in names {
        files.push(FileName::new(alloc, name)?)?;
    }
    Ok(files)
}

/// Returns the files that an argument names, at least one.
fn files_of(alloc: Global, matches: &ArgMatches<'_>, id: &str) -> Result<Vec<FileName>, OrderFault>
    ensures files { IfOk result (λ files.
        NamesFiles (rows_of (found_of matches.now)) id.now files.items) }
    ensures refused { IfErr result
        (RefusesArguments (NamesFiles (rows_of (found_of matches.now)) id.now)) }
    ensures never_help { IfErr result (λ e. IsHelp e → ⊥) }
{
    match values(matches, id) {
        Some(names) if !names.is_empty() => Ok(named_files(alloc, names)?),
        _ => Err(usage(alloc, "usage: a file is missing\n")),
    }
}

/// Returns the kind of `show`.
fn show_kind(alloc: Global, matches: &ArgMatches<'_>) -> Result<ShowKind, OrderFault>
    ensures kind { IfOk result
        (λ k. first_of (codes "KIND") (rows_of (found_of matches.now)) ≡ Some (kind_text k)) }
    ensures refused { IfErr result
        (RefusesArguments (λ k. first_of (codes "KIND") (rows_of (found_of matches.now))
        ≡ Some (kind_text k))) }
    ensures never_help { IfErr result (λ e. IsHelp e → ⊥) }
{
    match value(matches, "KIND") {
        Some("tree") => Ok(ShowKind::Tree),
        Some("info") => Ok(ShowKind::Info),
        Some("message") => Ok(ShowKind::Message),
        Some("key-package") => Ok(ShowKind::KeyPackage),
        Some("members") => Ok(ShowKind::Members),
        Some("state") => Ok(ShowKind::State),
        Some("log") => Ok(ShowKind::Log),
        _ => Err(usage(
            alloc,
            "usage: KIND is tree, info, message, key-package, members, state or log\n",
        )),
    }
}

/// Returns the profile that `show` is given for a kind: the members' profile without `--profile`, which only `message`
/// and `log` take.
fn show_profile(
    alloc: Global,
    matches: &ArgMatches<'_>,
    kind: ShowKind,
) -> Result<Profile, OrderFault>
    ensures profile { IfOk result
        (IsProfile (first_of (codes "profile") (rows_of (found_of matches.now))) kind) }
    ensures refused { IfErr result
        (RefusesArguments (IsProfile (first_of (codes "profile") (rows_of (found_of matches.now))) kind)) }
    ensures never_help { IfErr result (λ e. IsHelp e → ⊥) }
{
    match (value(matches, "profile"), kind) {
        (None, _) => Ok(Profile::Members),
        (Some("members"), ShowKind::Message | ShowKind::Log) => Ok(Profile::Members),
        (Some("full"), ShowKind::Message | ShowKind::Log) => Ok(Profile::Full),
        (Some(_), ShowKind::Message | ShowKind::Log) => {
            Err(usage(alloc, "usage: PROFILE is members or full\n"))
        }
        (Some(_), _) => Err(usage(alloc, "usage: --profile is for show message and show log\n")),
    }
}

/// Returns the order of `show`.
fn show_order(alloc: Global, matches: &ArgMatches<'_>) -> Result<Order, OrderFault>
    ensures order { IfOk result (IsOrder (Some (codes "show", rows_of (found_of matches.now)))) }
    ensures refused { IfErr result
        (RefusesArguments (IsOrder (Some (codes "show", rows_of (found_of matches.now))))) }
    ensures never_help { IfErr result (λ e. IsHelp e → ⊥) }
{
    let kind = show_kind(alloc, matches)?;
    let profile = show_profile(alloc, matches, kind)?;
    let file = file_of(alloc, matches, "FILE")?;
    Ok(Order::Show {
        profile,
        kind,
        file,
    })
}

/// Returns the choice of a checker: exactly one of the two options is given.
fn chosen_checker(alloc: Global, matches: &ArgMatches<'_>) -> Result<CheckerChoice, OrderFault>
    ensures checker { IfOk result
        (IsChecker (first_of (codes "trust") (rows_of (found_of matches.now)))
        (first_of (codes "receipts") (rows_of (found_of matches.now)))) }
    ensures refused { IfErr result
        (RefusesArguments (IsChecker (first_of (codes "trust") (rows_of (found_of matches.now)))
        (first_of (codes "receipts") (rows_of (found_of matches.now))))) }
    ensures never_help { IfErr result (λ e. IsHelp e → ⊥) }
{
    match (is_set(matches, "trust"), value(matches, "receipts")) {
        (true, None) => Ok(CheckerChoice::Trust),
        (false, Some(file)) => Ok(CheckerChoice::Receipts(FileName::new(alloc, file)?)),
        _ => Err(usage(alloc, "usage: give one of --trust and --receipts\n")),
    }
}

/// Returns the command `validate-tree`.
fn validate_tree_order(alloc: Global, matches: &ArgMatches<'_>) -> Result<Order, OrderFault>
    ensures order { IfOk result
        (IsOrder (Some (codes "validate-tree", rows_of (found_of matches.now)))) }
    ensures refused { IfErr result
        (RefusesArguments (IsOrder (Some (codes "validate-tree", rows_of (found_of matches.now))))) }
    ensures never_help { IfErr result (λ e. IsHelp e → ⊥) }
{
    let checker = chosen_checker(alloc, matches)?;
    let rules = asked_rules(alloc, matches)?;
    let context = file_of(alloc, matches, "context")?;
    let tree = file_of(alloc, matches, "tree")?;
    let report = GroupReport::ValidateTree {
        rules,
        context,
        tree,
    };
    Ok(Order::Group { report, checker })
}

/// Returns the profile that a command is given for a group: the members' profile without `--profile`.
fn group_profile(alloc: Global, matches: &ArgMatches<'_>) -> Result<Profile, OrderFault>
    ensures profile { IfOk result
        (IsNamedProfile (first_of (codes "profile") (rows_of (found_of matches.now)))) }
    ensures refused { IfErr result
        (RefusesArguments (IsNamedProfile (first_of (codes "profile") (rows_of (found_of matches.now))))) }
    ensures never_help { IfErr result (λ e. IsHelp e → ⊥) }
{
    match value(matches, "profile") {
        None => Ok(Profile::Members),
        Some("members") => Ok(Profile::Members),
        Some("full") => Ok(Profile::Full),
        Some(_) => Err(usage(alloc, "usage: PROFILE is members or full\n")),
    }
}

/// Returns what a group is followed from: a GroupInfo, with or without a tree, in a profile; or the file of a state, which
/// names its profile. With it come the strict rules that are asked.
fn group_of(alloc: Global, matches: &ArgMatches<'_>) -> Result<GroupFiles, OrderFault>
    ensures group { IfOk result (IsGroup (rows_of (found_of matches.now))) }
    ensures refused { IfErr result (RefusesArguments (IsGroup (rows_of (found_of matches.now)))) }
    ensures never_help { IfErr result (λ e. IsHelp e → ⊥) }
{
    let rules = asked_rules(alloc, matches)?;
    match (
        value(matches, "info"),
        value(matches, "tree"),
        value(matches, "state"),
        value(matches, "profile"),
    ) {
        (Some(info), _, None, _) => {
            let profile = group_profile(alloc, matches)?;
            let info = FileName::new(alloc, info)?;
            let tree = optional_file_of(alloc, matches, "tree")?;
            Ok(GroupFiles::Info {
                rules,
                profile,
                info,
                tree,
            })
        }
        (None, None, Some(state), None) => {
            let state = FileName::new(alloc, state)?;
            Ok(GroupFiles::State { rules, state })
        }
        (None, None, Some(_), Some(_)) => Err(usage(
            alloc,
            "usage: a state names its profile: give no --profile with --state\n",
        )),
        _ => Err(usage(
            alloc,
            "usage: give --info, with --tree or without it, or --state\n",
        )),
    }
}

/// Returns the command `validate`.
fn validate_order(alloc: Global, matches: &ArgMatches<'_>) -> Result<Order, OrderFault>
    ensures order { IfOk result
        (IsOrder (Some (codes "validate", rows_of (found_of matches.now)))) }
    ensures refused { IfErr result
        (RefusesArguments (IsOrder (Some (codes "validate", rows_of (found_of matches.now))))) }
    ensures never_help { IfErr result (λ e. IsHelp e → ⊥) }
{
    let checker = chosen_checker(alloc, matches)?;
    let report = GroupReport::Validate(group_of(alloc, matches)?);
    Ok(Order::Group { report, checker })
}

/// Returns the command `validate-key-package`.
fn validate_packages_order(alloc: Global, matches: &ArgMatches<'_>) -> Result<Order, OrderFault>
    ensures order { IfOk result
        (IsOrder (Some (codes "validate-key-package", rows_of (found_of matches.now)))) }
    ensures refused { IfErr result
        (RefusesArguments (IsOrder (Some (codes "validate-key-package", rows_of (found_of matches.now))))) }
    ensures never_help { IfErr result (λ e. IsHelp e → ⊥) }
{
    let checker = chosen_checker(alloc, matches)?;
    let rules = asked_rules(alloc, matches)?;
    let files = files_of(alloc, matches, "FILE")?;
    let report = GroupReport::ValidatePackages { rules, files };
    Ok(Order::Group { report, checker })
}

/// Returns the file under which a state is stored, if one is named. It is not standard input.
fn save_of(alloc: Global, matches: &ArgMatches<'_>) -> Result<Option<FileName>, OrderFault>
    ensures save { IfOk result (IsSave (first_of (codes "save") (rows_of (found_of matches.now)))) }
    ensures refused { IfErr result
        (RefusesArguments (IsSave (first_of (codes "save") (rows_of (found_of matches.now))))) }
    ensures never_help { IfErr result (λ e. IsHelp e → ⊥) }
{
    match value(matches, "save") {
        Some("-") => Err(usage(alloc, "usage: a state is stored in a file with a name\n")),
        Some(file) => Ok(Some(FileName::new(alloc, file)?)),
        None => Ok(None),
    }
}

/// Returns the options of `replay`, except the choice of a checker.
fn replay_options(alloc: Global, matches: &ArgMatches<'_>) -> Result<ReplayOptions, OrderFault>
    ensures options { IfOk result (AreReplayOptions (rows_of (found_of matches.now))) }
    ensures refused { IfErr result (RefusesArguments (AreReplayOptions (rows_of (found_of matches.now)))) }
    ensures never_help { IfErr result (λ e. IsHelp e → ⊥) }
{
    let group = group_of(alloc, matches)?;
    let log = file_of(alloc, matches, "log")?;
    let save = save_of(alloc, matches)?;
    let time = asked_time(alloc, matches)?;
    Ok(ReplayOptions {
        group,
        log,
        save,
        time,
    })
}

/// Returns the command `replay`.
fn replay_order(alloc: Global, matches: &ArgMatches<'_>) -> Result<Order, OrderFault>
    ensures order { IfOk result
        (IsOrder (Some (codes "replay", rows_of (found_of matches.now)))) }
    ensures refused { IfErr result
        (RefusesArguments (IsOrder (Some (codes "replay", rows_of (found_of matches.now))))) }
    ensures never_help { IfErr result (λ e. IsHelp e → ⊥) }
{
    let checker = chosen_checker(alloc, matches)?;
    let report = GroupReport::Replay(replay_options(alloc, matches)?);
    Ok(Order::Group { report, checker })
}

/// Returns whose signatures are left out: those of the receipts file, if one is given.
fn cover(alloc: Global, matches: &ArgMatches<'_>) -> Result<CheckerChoice, AllocError>
    ensures { IfOk result (SelectsReceipts (first_of (codes "receipts") (rows_of (found_of matches.now)))) }
{
    match value(matches, "receipts") {
        Some(file) => Ok(CheckerChoice::Receipts(FileName::new(alloc, file)?)),
        None => Ok(CheckerChoice::NoReceipts),
    }
}

/// Returns the command `signatures` of a group.
fn group_signatures(alloc: Global, matches: &ArgMatches<'_>) -> Result<Order, OrderFault>
    requires { all_of (codes "key-package") (rows_of (found_of matches.now)) ≡ None }
    ensures order { IfOk result
        (IsOrder (Some (codes "signatures", rows_of (found_of matches.now)))) }
    ensures refused { IfErr result
        (RefusesArguments (IsOrder (Some (codes "signatures", rows_of (found_of matches.now))))) }
    ensures never_help { IfErr result (λ e. IsHelp e → ⊥) }
{
    let group = group_of(alloc, matches)?;
    let log = optional_file_of(alloc, matches, "log")?;
    let checker = cover(alloc, matches)?;
    let report = GroupReport::Signatures { group, log };
    Ok(Order::Group { report, checker })
}

/// Returns whether nothing of a group is named.
fn is_without_group(matches: &ArgMatches<'_>) -> bool
    ensures { IsTrue result ↔ IsWithoutGroup (rows_of (found_of matches.now)) }
{
    value(matches, "info").is_none()
        && value(matches, "tree").is_none()
        && value(matches, "state").is_none()
        && value(matches, "profile").is_none()
        && value(matches, "log").is_none()
}

/// Returns the command `signatures` of KeyPackages.
fn package_signatures(alloc: Global, matches: &ArgMatches<'_>) -> Result<Order, OrderFault>
    requires { all_of (codes "key-package") (rows_of (found_of matches.now)) ≢ None }
    ensures order { IfOk result
        (IsOrder (Some (codes "signatures", rows_of (found_of matches.now)))) }
    ensures refused { IfErr result
        (RefusesArguments (IsOrder (Some (codes "signatures", rows_of (found_of matches.now))))) }
    ensures never_help { IfErr result (λ e. IsHelp e → ⊥) }
{
    if !is_without_group(matches) {
        return Err(usage(
            alloc,
            "usage: with --key-package give --strict, --allow and --receipts alone\n",
        ));
    }
    let rules = asked_rules(alloc, matches)?;
    let files = files_of(alloc, matches, "key-package")?;
    let checker = cover(alloc, matches)?;
    let report = GroupReport::PackageSignatures { rules, files };
    Ok(Order::Group { report, checker })
}

/// Returns the command `signatures`, of KeyPackages or of a group.
fn signatures_order(alloc: Global, matches: &ArgMatches<'_>) -> Result<Order, OrderFault>
    ensures order { IfOk result
        (IsOrder (Some (codes "signatures", rows_of (found_of matches.now)))) }
    ensures refused { IfErr result
        (RefusesArguments (IsOrder (Some (codes "signatures", rows_of (found_of matches.now))))) }
    ensures never_help { IfErr result (λ e. IsHelp e → ⊥) }
{
    match values(matches, "key-package") {
        Some(_) => package_signatures(alloc, matches),
        None => group_signatures(alloc, matches),
    }
}

/// Returns the checker of `gate`: that of at most one of the two options, else one that accepts none.
fn first_checker(alloc: Global, matches: &ArgMatches<'_>) -> Result<CheckerChoice, OrderFault>
    ensures checker { IfOk result
        (IsFirstChecker (first_of (codes "trust") (rows_of (found_of matches.now)))
        (first_of (codes "receipts") (rows_of (found_of matches.now)))) }
    ensures refused { IfErr result
        (RefusesArguments (IsFirstChecker (first_of (codes "trust") (rows_of (found_of matches.now)))
        (first_of (codes "receipts") (rows_of (found_of matches.now))))) }
    ensures never_help { IfErr result (λ e. IsHelp e → ⊥) }
{
    match (is_set(matches, "trust"), value(matches, "receipts")) {
        (true, None) => Ok(CheckerChoice::Trust),
        (false, Some(file)) => Ok(CheckerChoice::Receipts(FileName::new(alloc, file)?)),
        (false, None) => Ok(CheckerChoice::NoReceipts),
        (true, Some(_)) => Err(usage(alloc, "usage: give one of --trust and --receipts\n")),
    }
}

/// Returns the command `gate`. None of its files is standard input.
fn gate_order(alloc: Global, matches: &ArgMatches<'_>) -> Result<Order, OrderFault>
    ensures order { IfOk result (IsOrder (Some (codes "gate", rows_of (found_of matches.now)))) }
    ensures refused { IfErr result
        (RefusesArguments (IsOrder (Some (codes "gate", rows_of (found_of matches.now))))) }
    ensures never_help { IfErr result (λ e. IsHelp e → ⊥) }
{
    if stdin_count(matches) > 0 {
        return Err(usage(alloc, "usage: standard input has the records of the gate\n"));
    }
    let checker = first_checker(alloc, matches)?;
    let group = group_of(alloc, matches)?;
    let time = asked_time(alloc, matches)?;
    let report = GroupReport::Gate { group, time };
    Ok(Order::Group { report, checker })
}

/// Returns the kind of `check`.
fn check_kind(alloc: Global, matches: &ArgMatches<'_>) -> Result<CheckKind, OrderFault>
    ensures kind { IfOk result
        (λ k. first_of (codes "KIND") (rows_of (found_of matches.now))
        ≡ Some (check_kind_text k)) }
    ensures refused { IfErr result
        (RefusesArguments (λ k. first_of (codes "KIND") (rows_of (found_of matches.now))
        ≡ Some (check_kind_text k))) }
    ensures never_help { IfErr result (λ e. IsHelp e → ⊥) }
{
    match value(matches, "KIND") {
        Some("tree-math") => Ok(CheckKind::TreeMath),
        Some("tree-validation") => Ok(CheckKind::TreeValidation),
        Some("tree-operations") => Ok(CheckKind::TreeOperations),
        Some("transcript") => Ok(CheckKind::Transcript),
        _ => Err(usage(
            alloc,
            "usage: KIND is tree-math, tree-validation, tree-operations or transcript\n",
        )),
    }
}

/// Returns the command `check`.
fn check_order(alloc: Global, matches: &ArgMatches<'_>) -> Result<Order, OrderFault>
    ensures order { IfOk result (IsOrder (Some (codes "check", rows_of (found_of matches.now)))) }
    ensures refused { IfErr result
        (RefusesArguments (IsOrder (Some (codes "check", rows_of (found_of matches.now))))) }
    ensures never_help { IfErr result (λ e. IsHelp e → ⊥) }
{
    let kind = check_kind(alloc, matches)?;
    let file = file_of(alloc, matches, "FILE")?;
    Ok(Order::Check { kind, file })
}

/// Returns the subcommand that was given: its name, and its own matches.
fn subcommand<'m, 'a>(matches: &'m ArgMatches<'a>) -> Option<(&'a str, &'m ArgMatches<'a>)>
    ensures { option_map (λ p. (p.0.now, rows_of (found_of p.1.now))) result
        ≡ subcommand_rows_of matches.now }
{
    matches.subcommand()
}

/// Returns the command of the subcommand with this name.
fn named_order(alloc: Global, name: &str, matches: &ArgMatches<'_>) -> Result<Order, OrderFault>
    ensures order { IfOk result (IsOrder (Some (name.now, rows_of (found_of matches.now)))) }
    ensures refused { IfErr result
        (RefusesArguments (IsOrder (Some (name.now, rows_of (found_of matches.now))))) }
    ensures never_help { IfErr result (λ e. IsHelp e → ⊥) }
{
    match name {
        "show" => show_order(alloc, matches),
        "validate-tree" => validate_tree_order(alloc, matches),
        "validate" => validate_order(alloc, matches),
        "validate-key-package" => validate_packages_order(alloc, matches),
        "replay" => replay_order(alloc, matches),
        "signatures" => signatures_order(alloc, matches),
        "gate" => gate_order(alloc, matches),
        "check" => check_order(alloc, matches),
        _ => Err(usage(alloc, "usage: no such command\n")),
    }
}

/// Returns 1 if an argument names standard input as a file, else 0.
fn stdin_at(matches: &ArgMatches<'_>, id: &str) -> usize
    ensures count { result ≡ specs.stdin_at (rows_of (found_of matches.now)) id.now }
    ensures bounded { result ≤ 1 }
{
    match value(matches, id) {
        Some("-") => 1,
        _ => 0,
    }
}

/// Returns how many of the names are that of standard input.
fn count_stdin(names: &[&str]) -> usize
    ensures count { result ≡ count_by is_stdin_name (map (λ name. name.now) names.now) }
    ensures bounded { result ≤ length names.now }
{
    let mut count = 0;
    for name in names {
        if *name == "-" {
            count += 1;
        }
    }
    count
}

/// Returns how many of the files that an argument names are standard input.
fn stdin_among(matches: &ArgMatches<'_>, id: &str) -> usize
    ensures count { result ≡ specs.stdin_among (rows_of (found_of matches.now)) id.now }
    ensures bounded { result ≤ 2 ^ 60 }
{
    match values(matches, id) {
        Some(names) => count_stdin(names),
        None => 0,
    }
}

/// Returns how many of the files are standard input.
#[tactic(auto, unfolding(crate::specs::Orders::stdin_count))]
fn stdin_count(matches: &ArgMatches<'_>) -> usize
    ensures { result ≡ stdin_count (rows_of (found_of matches.now)) }
{
    let file = stdin_among(matches, "FILE");
    let packages = stdin_among(matches, "key-package");
    let context = stdin_at(matches, "context");
    let info = stdin_at(matches, "info");
    let tree = stdin_at(matches, "tree");
    let state = stdin_at(matches, "state");
    let log = stdin_at(matches, "log");
    let receipts = stdin_at(matches, "receipts");
    file + packages + context + info + tree + state + log + receipts
}

/// Returns the command of the subcommand with this name, at most one of whose files is standard input.
fn given_order(alloc: Global, name: &str, matches: &ArgMatches<'_>) -> Result<Order, OrderFault>
    ensures order { IfOk result (IsGiven (Some (name.now, rows_of (found_of matches.now)))) }
    ensures refused { IfErr result
        (RefusesArguments (IsGiven (Some (name.now, rows_of (found_of matches.now))))) }
    ensures never_help { IfErr result (λ e. IsHelp e → ⊥) }
{
    if stdin_count(matches) > 1 {
        return Err(usage(alloc, "usage: standard input can be given for one file\n"));
    }
    named_order(alloc, name, matches)
}

/// Returns the command of clap's matches.
fn read_order(alloc: Global, matches: &ArgMatches<'_>) -> Result<Order, OrderFault>
    ensures order { IfOk result (IsGiven (subcommand_rows_of matches.now)) }
    ensures refused { IfErr result (RefusesArguments (IsGiven (subcommand_rows_of matches.now))) }
    ensures never_help { IfErr result (λ e. IsHelp e → ⊥) }
{
    match subcommand(matches) {
        Some((name, inner)) => given_order(alloc, name, inner),
        None => Err(usage(alloc, "usage: a command is missing\n")),
    }
}

/// Returns the command of a command line, whose first argument is the program's name. The file `-` is standard input,
/// which can be given for one file of a command line.
///
/// # Errors
///
/// `Help` if the arguments request help or the version, `Usage` if they are no command, or `OutOfMemory`.
pub fn order_of(alloc: Global, words: &[String]) -> Result<Order, OrderFault>
    ensures order { IfOk result (IsOrderOf (map string_bytes words.now)) }
    ensures refused { IfErr result (RefusesArguments (IsOrderOf (map string_bytes words.now))) }
    ensures help { IfErr result (λ e. IsHelp e → AsksForHelp (map string_bytes words.now)) }
    ensures usage { IfErr result
        (λ e. IsUsage e → ¬ AsksForHelpAlone (map string_bytes words.now)) }
{
    let command = mlscheck_command(alloc)?;
    match command.try_get_matches_from(words) {
        Ok(matches) => {
            let order = read_order(alloc, &matches);
            drop(matches);
            order
        }
        Err(error) => {
            let fault = refusal(alloc, &error);
            drop(error);
            Err(fault)
        }
    }
}

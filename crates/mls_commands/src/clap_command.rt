//! The program's subcommands and their arguments.

ghost use Rattle.std.specs.Prelude.{◌≡◌, IfOk, codes};
ghost use Rattle.clap.specs.Words.{App, Rule, app_of, new_app, with_rule, with_subcommand};
ghost use Rattle.mls_commands.specs.ClapCommands as specs;
ghost use Rattle.mls_commands.specs.ClapCommands.{word_rule, file_rule, needed_rule, flag_rule, with_several, show_app, validate_tree_app, validate_app, validate_packages_app, replay_app, signatures_app, gate_app, check_app, bare_app, mlscheck_app};
ghost use Rattle.mls_commands.specs.ClapPartsInternal.{HasRule, HasApp, MakesApp};

use clap::{Arg, ArgAction, Command};
use std::alloc::{AllocError, Global};

/// The program's version.
const VERSION: &str = "0.2.0";

/// What help says of files, and of the exit status.
const STATUSES: &str = "\
A file may be named - for standard input, which can be given for one file.

Exit status:
  0  yes, or help is shown
  1  no: something can't be read, is refused, or is broken off
  2  the command line is none of these forms
  3  a fault of reading, of writing, or of memory: standard error says of what

Example:
  mlscheck show tree examples/one-leaf.tree";

/// The heading of `--trust` and `--receipts` in help.
const SIGNATURES: &str = "Signatures (give one of these)";

/// The heading of `--trust` and `--receipts` in help if neither need be given.
const KNOWN_SIGNATURES: &str = "Signatures (give one of these, or none)";

/// The heading of `--strict` and `--allow` in help.
const STRICT_RULES: &str = "Strict rules";

const SHOW_USAGE: &str = "\
mlscheck show (tree | info | key-package | members | state) <FILE>
       mlscheck show (message | log) <FILE> [--profile <PROFILE>]";

const SHOW_HELP: &str = "\
key-package is a KeyPackage in its MLSMessage. members are those of a tree, of
the tree in a GroupInfo, or of a stored state: a line for each, with its leaf
index, its credential and its signature key. state is a file that replay --save
has stored. log is a log of messages, with a line for each.

In the members profile a message has proposals to add, update and remove members
and to change the extensions, in the full profile also those for pre-shared
keys, ReInit and external joins.

Exit status: 0 if it is shown, 1 if the file doesn't hold that, 2 for a wrong
command line, 3 for a fault of reading, writing or memory.

Example:
  mlscheck show tree examples/one-leaf.tree";

const VALIDATE_TREE_USAGE: &str = "\
mlscheck validate-tree --context <FILE> --tree <FILE>
           [--strict [--allow <NUMBERS>]] (--trust | --receipts <FILE>)";

const VALIDATE_TREE_HELP: &str = "\
--strict also checks forms and lengths of keys and ciphertexts, lists of
extensions and capabilities, points of curves and certificates (RFC 9420, 5.1.1,
7.2, 7.6, 12.1, 13.4). Anyone can see these faults, and real clients fail on
them, so a service should use it.

A receipt says that a signature is good. mlscheck signatures prints each
signature to verify with its receipt; write the receipts of the good ones in a
file, each in a line (as examples/receipts.py does).

Exit status: 0 if the tree is valid, 1 if not, 2 for a wrong command line, 3 for
a fault of reading, writing or memory.

Example:
  mlscheck validate-tree --context examples/one-leaf.context \\
      --tree examples/one-leaf.tree --trust";

const VALIDATE_USAGE: &str = "\
mlscheck validate
           (--info <FILE> [--tree <FILE>] [--profile <PROFILE>] | --state <FILE>)
           [--strict [--allow <NUMBERS>]] (--trust | --receipts <FILE>)";

const VALIDATE_HELP: &str = "\
A group is followed from a GroupInfo, or from the file of a state, which names
its profile and its strict rules. The full profile also has pre-shared keys,
ReInit and external joins.

--strict also checks forms and lengths of keys and ciphertexts, lists of
extensions and capabilities, points of curves and certificates (RFC 9420, 5.1.1,
7.2, 7.6, 12.1, 13.4). Anyone can see these faults, and real clients fail on
them, so a service should use it.

A receipt says that a signature is good. mlscheck signatures prints each
signature to verify with its receipt; write the receipts of the good ones in a
file, each in a line (as examples/receipts.py does).

Exit status: 0 if the group can be followed, 1 if not, 2 for a wrong command
line, 3 for a fault of reading, writing or memory.

Example:
  mlscheck validate --info examples/one-leaf.info --trust";

const VALIDATE_PACKAGES_USAGE: &str = "\
mlscheck validate-key-package <FILE>...
           [--strict [--allow <NUMBERS>]] (--trust | --receipts <FILE>)";

const VALIDATE_PACKAGES_HELP: &str = "\
Each FILE is a message with a KeyPackage. Prints a line for each, and how many
of them are good:
  N good REFERENCE SUITE NOT-BEFORE NOT-AFTER
  N unfit NUMBER NAME
  N unreadable FAULT
A good KeyPackage can be added to some group of its cipher suite that requires
nothing (RFC 9420, 7.3 and 10.1). The lifetime is printed and not checked.

--strict also checks forms and lengths of keys, lists of extensions and
capabilities, the lifetime, points of curves and certificates (RFC 9420, 5.1.1,
7.2, 13.4). Anyone can see these faults, and real clients fail on them, so a
service should use it.

A receipt says that a signature is good. mlscheck signatures --key-package
prints each signature to verify with its receipt; write the receipts of the good
ones in a file, each in a line (as examples/receipts.py does).

Exit status: 0 if each KeyPackage is good, 1 if not, 2 for a wrong command line,
3 for a fault of reading, writing or memory.

Example:
  mlscheck validate-key-package examples/key-package.mls --trust";

const REPLAY_USAGE: &str = "\
mlscheck replay
           (--info <FILE> [--tree <FILE>] [--profile <PROFILE>] | --state <FILE>)
           [--strict [--allow <NUMBERS>]] [--now <SECONDS>]
           --log <FILE> [--save <FILE>] (--trust | --receipts <FILE>)";

const REPLAY_HELP: &str = "\
A group is followed from a GroupInfo, or from the file of a state, which names
its profile and its strict rules. The full profile also has pre-shared keys,
ReInit and external joins. With --save the state after the log is stored, after
the report, with its strict rules. A file of that name is replaced; what is no
regular file is refused.

--strict also checks forms and lengths of keys and ciphertexts, lists of
extensions and capabilities, points of curves and certificates (RFC 9420, 5.1.1,
7.2, 7.6, 12.1, 13.4). Anyone can see these faults, and real clients fail on
them, so a service should use it.

With --now a message is refused if the lifetime of a KeyPackage in it does not
include this time (RFC 9420, 7.2): seconds since 1970, at most
18446744073709551615. Without it no lifetime is checked.

A receipt says that a signature is good. mlscheck signatures prints each
signature to verify with its receipt; write the receipts of the good ones in a
file, each in a line (as examples/receipts.py does).

Exit status: 0 if each message is accepted, 1 if not, 2 for a wrong command
line, 3 for a fault of reading, writing or memory.

Example:
  mlscheck replay --info examples/real/epoch-1.info --log examples/real/handshakes.log \\
      --receipts examples/real/receipts.txt";

const SIGNATURES_USAGE: &str = "\
mlscheck signatures
           (--info <FILE> [--tree <FILE>] [--profile <PROFILE>] | --state <FILE>)
           [--strict [--allow <NUMBERS>]] [--log <FILE>] [--receipts <FILE>]
       mlscheck signatures --key-package <FILE>...
           [--strict [--allow <NUMBERS>]] [--receipts <FILE>]";

const SIGNATURES_HELP: &str = "\
Prints a line for each signature that has to be verified and has no receipt:
  RECEIPT SUITE KEY CONTENT SIGNATURE
If the signature is good, RECEIPT is its line in the list of good signatures
(examples/receipts.py verifies the signatures and writes the list).
A group is followed from a GroupInfo, or from the file of a state, which names
its profile and its strict rules. The full profile also has pre-shared keys,
ReInit and external joins. A log is processed as if each signature were good:
give one whose messages another party has accepted, or remove the messages that
a first replay refuses.
Of a KeyPackage, a message in a file of its own, the two signatures are printed
if nothing else keeps it from being good.

--strict also checks forms and lengths of keys and ciphertexts, lists of
extensions and capabilities, points of curves and certificates (RFC 9420, 5.1.1,
7.2, 7.6, 12.1, 13.4). Anyone can see these faults, and real clients fail on
them, so a service should use it.

Exit status: 0 if each message can be read, 1 if not or if the group can't be
followed, 2 for a wrong command line, 3 for a fault of reading, writing or
memory.

Example:
  mlscheck signatures --info examples/real/epoch-1.info \\
      --log examples/real/handshakes.log";

const GATE_USAGE: &str = "\
mlscheck gate
           (--info <FILE> [--tree <FILE>] [--profile <PROFILE>] | --state <FILE>)
           [--strict [--allow <NUMBERS>]] [--now <SECONDS>]
           [--trust | --receipts <FILE>]";

const GATE_HELP: &str = "\
Standard input is a sequence of records: a length, a letter, and what belongs to
the letter. Each record is answered before the next is read:
  r RECEIPTS  these signatures are good (32 bytes each); no answer
  t TIME      check lifetimes at this time from now on (8 bytes); no answer
  b           begin with the signatures that are known to be good
  q MESSAGE   print the signatures of the message that are not known to be good
  m MESSAGE   process the message
  s           print the state
A receipt is the first word of the line of a signature, in bytes. Without
--trust and --receipts no signature is known to be good at first.
A group is followed from a GroupInfo, or from the file of a state, which names
its profile and its strict rules. The full profile also has pre-shared keys,
ReInit and external joins.

--strict also checks forms and lengths of keys and ciphertexts, lists of
extensions and capabilities, points of curves and certificates (RFC 9420, 5.1.1,
7.2, 7.6, 12.1, 13.4). Anyone can see these faults, and real clients fail on
them, so a service should use it.

With --now a message is refused if the lifetime of a KeyPackage in it does not
include this time (RFC 9420, 7.2): seconds since 1970, at most
18446744073709551615. Without it no lifetime is checked until a record t.

Exit status: 0 if the input ends after b and a whole record, 1 if the group
can't be followed or a record is broken, 2 for a wrong command line, 3 for a
fault of reading, writing or memory.

Example:
  mlscheck gate --info examples/one-leaf.info --trust < /dev/null";

const CHECK_USAGE: &str = "mlscheck check <KIND> <FILE>";

const CHECK_HELP: &str = "\
Exit status: 0 if no vector fails, 1 if one does or the file holds no vectors, 2
for a wrong command line, 3 for a fault of reading, writing or memory.

Example:
  mlscheck check tree-math examples/tree-math.json";

/// Returns a required positional argument.
fn word<'a>(alloc: Global, name: &'a str, help: &'a str) -> Arg<'a>
    ensures { HasRule (word_rule name.entry.now) result }
{
    Arg::new(alloc, name).required(true).help(help)
}

/// Returns an option that takes one value.
fn valued<'a>(alloc: Global, name: &'a str, value: &'a str, help: &'a str) -> Arg<'a>
    ensures { HasRule (file_rule name.entry.now) result }
{
    Arg::new(alloc, name)
        .long(name)
        .value_name(value)
        .help(help)
}

/// Returns an option that may name a file.
fn file<'a>(alloc: Global, name: &'a str, help: &'a str) -> Arg<'a>
    ensures { HasRule (file_rule name.entry.now) result }
{
    valued(alloc, name, "FILE", help)
}

/// Returns an option that has to name a file.
fn needed<'a>(alloc: Global, name: &'a str, help: &'a str) -> Arg<'a>
    ensures { HasRule (needed_rule name.entry.now) result }
{
    file(alloc, name, help).required(true)
}

/// Returns the argument with one value or more.
fn several<'a>(arg: Arg<'a>) -> Arg<'a>
    ensures { (rule : Rule) → HasRule rule arg.entry → HasRule (with_several rule) result }
{
    arg.num_args(1..)
}

/// Returns an option without a value.
fn flag<'a>(alloc: Global, name: &'a str, help: &'a str) -> Arg<'a>
    ensures { HasRule (flag_rule name.entry.now) result }
{
    Arg::new(alloc, name)
        .long(name)
        .action(ArgAction::SetTrue)
        .help(help)
}

/// Returns the argument in a group of help with this heading.
fn headed<'a>(arg: Arg<'a>, heading: &'a str) -> Arg<'a>
    ensures { (rule : Rule) → HasRule rule arg.entry → HasRule rule result }
{
    arg.help_heading(heading)
}

/// Returns a command with this name, its usage, and what help says of it and below it.
fn titled<'a>(
    alloc: Global,
    name: &'a str,
    usage: &'a str,
    about: &'a str,
    below: &'a str,
) -> Command<'a>
    ensures { HasApp (new_app name.entry.now) result }
{
    Command::new(alloc, name)
        .override_usage(usage)
        .about(about)
        .after_help(below)
}

/// Adds an argument to the command, after the others, if the command could be made.
fn with<'a>(
    command: Result<Command<'a>, AllocError>,
    arg: Arg<'a>,
) -> Result<Command<'a>, AllocError>
    ensures { (app : App) (rule : Rule) → MakesApp app command.entry → HasRule rule arg.entry
        → MakesApp (with_rule app rule) result }
{
    match command {
        Ok(command) => command.arg(arg),
        Err(error) => {
            drop(arg);
            Err(error)
        }
    }
}

/// Adds the two arguments KIND and FILE to the command.
fn with_words<'a>(
    alloc: Global,
    command: Result<Command<'a>, AllocError>,
    kind_help: &'a str,
) -> Result<Command<'a>, AllocError>
    ensures { (app : App) → MakesApp app command.entry
        → MakesApp (with_rule (with_rule app (word_rule (codes "KIND"))) (word_rule (codes "FILE"))) result }
{
    let command = with(command, word(alloc, "KIND", kind_help));
    with(command, word(alloc, "FILE", "The file's path"))
}

/// `show KIND FILE [--profile PROFILE]`.
fn show_command<'a>(alloc: Global) -> Result<Command<'a>, AllocError>
    ensures { MakesApp show_app result }
{
    let about = "Prints what a file holds";
    let command = Ok(titled(alloc, "show", SHOW_USAGE, about, SHOW_HELP));
    let command = with_words(alloc, command, "What the file holds");
    let help = "The profile of messages: members, which is the default, or full";
    with(command, valued(alloc, "profile", "PROFILE", help))
}

/// Adds `--trust` and `--receipts FILE` to the command, in a group of help with this heading.
fn with_checker<'a>(
    alloc: Global,
    command: Result<Command<'a>, AllocError>,
    heading: &'a str,
) -> Result<Command<'a>, AllocError>
    ensures { (app : App) → MakesApp app command.entry → MakesApp (specs.with_checker app) result }
{
    let trust = flag(alloc, "trust", "Accepts every signature");
    let command = with(command, headed(trust, heading));
    let receipts = file(alloc, "receipts", "The path of the list of good signatures");
    with(command, headed(receipts, heading))
}

/// Adds the options of the strict rules to the command: `--strict` and `--allow NUMBERS`, in a group of help of their own.
fn with_rules<'a>(
    alloc: Global,
    command: Result<Command<'a>, AllocError>,
) -> Result<Command<'a>, AllocError>
    ensures { (app : App) → MakesApp app command.entry → MakesApp (specs.with_rules app) result }
{
    let help = "Also checks the strict rules, as a service should";
    let strict = flag(alloc, "strict", help);
    let command = with(command, headed(strict, STRICT_RULES));
    let help = "The strict rules that may be broken, as 47 or 46,47";
    let allow = valued(alloc, "allow", "NUMBERS", help);
    with(command, headed(allow, STRICT_RULES))
}

/// `validate-tree --context FILE --tree FILE [--strict [--allow NUMBERS]]`, and one of `--trust` and `--receipts FILE`.
fn validate_tree_command<'a>(alloc: Global) -> Result<Command<'a>, AllocError>
    ensures { MakesApp validate_tree_app result }
{
    let about = "Checks a ratchet tree against a GroupContext";
    let command = Ok(titled(
        alloc,
        "validate-tree",
        VALIDATE_TREE_USAGE,
        about,
        VALIDATE_TREE_HELP,
    ));
    let context = needed(alloc, "context", "The path of the GroupContext");
    let command = with(command, context);
    let tree = needed(alloc, "tree", "The path of the ratchet tree");
    let command = with(command, tree);
    let command = with_rules(alloc, command);
    with_checker(alloc, command, SIGNATURES)
}

/// Adds what a group is followed from to the command: its GroupInfo and its tree, or a state, the profile, and the options
/// of the strict rules.
fn with_group<'a>(
    alloc: Global,
    command: Result<Command<'a>, AllocError>,
) -> Result<Command<'a>, AllocError>
    ensures { (app : App) → MakesApp app command.entry → MakesApp (specs.with_group app) result }
{
    let info = file(alloc, "info", "The path of the GroupInfo");
    let command = with(command, info);
    let tree = file(
        alloc,
        "tree",
        "The path of the ratchet tree, if the GroupInfo has none",
    );
    let command = with(command, tree);
    let state = file(
        alloc,
        "state",
        "The path of a state, instead of the GroupInfo and the tree",
    );
    let command = with(command, state);
    let help = "The profile of a group: members, which is the default, or full";
    let command = with(command, valued(alloc, "profile", "PROFILE", help));
    with_rules(alloc, command)
}

/// Adds `--now SECONDS` to the command.
fn with_time<'a>(
    alloc: Global,
    command: Result<Command<'a>, AllocError>,
) -> Result<Command<'a>, AllocError>
    ensures { (app : App) → MakesApp app command.entry
        → MakesApp (with_rule app (file_rule (codes "now"))) result }
{
    let help = "Checks lifetimes of KeyPackages at this time: seconds since 1970";
    with(command, valued(alloc, "now", "SECONDS", help))
}

/// `validate --info FILE [--tree FILE] [--profile PROFILE]` or `validate --state FILE`, the strict rules, and one of
/// `--trust` and `--receipts FILE`.
fn validate_command<'a>(alloc: Global) -> Result<Command<'a>, AllocError>
    ensures { MakesApp validate_app result }
{
    let about = "Checks the GroupInfo or the state of a group";
    let command = Ok(titled(alloc, "validate", VALIDATE_USAGE, about, VALIDATE_HELP));
    let command = with_group(alloc, command);
    with_checker(alloc, command, SIGNATURES)
}

/// `validate-key-package FILE.. [--strict [--allow NUMBERS]]`, and one of `--trust` and `--receipts FILE`.
fn validate_packages_command<'a>(alloc: Global) -> Result<Command<'a>, AllocError>
    ensures { MakesApp validate_packages_app result }
{
    let about = "Checks KeyPackages, before clients are added by them";
    let command = Ok(titled(
        alloc,
        "validate-key-package",
        VALIDATE_PACKAGES_USAGE,
        about,
        VALIDATE_PACKAGES_HELP,
    ));
    let files = several(word(alloc, "FILE", "The paths of the KeyPackages"));
    let command = with(command, files);
    let command = with_rules(alloc, command);
    with_checker(alloc, command, SIGNATURES)
}

/// `replay --info FILE [--tree FILE] [--profile PROFILE] --log FILE [--save FILE] [--now SECONDS]`, or with `--state FILE` in
/// place of the first three, the strict rules, and one of `--trust` and `--receipts FILE`.
fn replay_command<'a>(alloc: Global) -> Result<Command<'a>, AllocError>
    ensures { MakesApp replay_app result }
{
    let about = "Follows a group through a log of its handshakes";
    let command = Ok(titled(alloc, "replay", REPLAY_USAGE, about, REPLAY_HELP));
    let command = with_group(alloc, command);
    let log = needed(
        alloc,
        "log",
        "The path of the handshakes, each after its length",
    );
    let command = with(command, log);
    let save = file(
        alloc,
        "save",
        "The path under which the state after the log is stored",
    );
    let command = with(command, save);
    let command = with_time(alloc, command);
    with_checker(alloc, command, SIGNATURES)
}

/// `signatures --info FILE [--tree FILE] [--profile PROFILE] [--log FILE] [--receipts FILE]`, or with `--state FILE` in
/// place of the first three, or `signatures --key-package FILE.. [--receipts FILE]`, and the strict rules.
fn signatures_command<'a>(alloc: Global) -> Result<Command<'a>, AllocError>
    ensures { MakesApp signatures_app result }
{
    let about = "Prints the signatures to verify of a group or of KeyPackages";
    let command = Ok(titled(
        alloc,
        "signatures",
        SIGNATURES_USAGE,
        about,
        SIGNATURES_HELP,
    ));
    let command = with_group(alloc, command);
    let log = file(
        alloc,
        "log",
        "The path of the handshakes, each after its length",
    );
    let command = with(command, log);
    let help = "The paths of KeyPackages, instead of a group";
    let packages = several(file(alloc, "key-package", help));
    let command = with(command, packages);
    let receipts = file(alloc, "receipts", "The path of the list of good signatures");
    with(command, receipts)
}

/// `gate --info FILE [--tree FILE] [--profile PROFILE] [--now SECONDS]` or `gate --state FILE [--now SECONDS]`, the strict
/// rules, and at most one of `--trust` and `--receipts FILE`.
fn gate_command<'a>(alloc: Global) -> Result<Command<'a>, AllocError>
    ensures { MakesApp gate_app result }
{
    let about = "Follows a group live, and says which signatures to verify";
    let command = Ok(titled(alloc, "gate", GATE_USAGE, about, GATE_HELP));
    let command = with_group(alloc, command);
    let command = with_time(alloc, command);
    with_checker(alloc, command, KNOWN_SIGNATURES)
}

/// `check KIND FILE`.
fn check_command<'a>(alloc: Global) -> Result<Command<'a>, AllocError>
    ensures { MakesApp check_app result }
{
    let about = "Checks the test vectors of a file";
    let command = Ok(titled(alloc, "check", CHECK_USAGE, about, CHECK_HELP));
    let help = "What the vectors check: tree-math, tree-validation, tree-operations or transcript";
    with_words(alloc, command, help)
}

/// Adds a subcommand to the command, after the others, if both could be made.
fn with_command<'a>(
    command: Result<Command<'a>, AllocError>,
    sub: Result<Command<'a>, AllocError>,
) -> Result<Command<'a>, AllocError>
    ensures { (app own : App) → IfOk command.entry (λ c. app_of c ≡ app) → MakesApp own sub.entry
        → IfOk result (λ r. app_of r ≡ with_subcommand app own.top) }
{
    let command = match command {
        Ok(command) => command,
        Err(error) => {
            drop(sub);
            return Err(error);
        }
    };
    match sub {
        Ok(sub) => command.subcommand(sub),
        Err(error) => {
            drop(command);
            Err(error)
        }
    }
}

/// Returns the program without its subcommands.
fn bare_command<'a>(alloc: Global) -> Command<'a>
    ensures { app_of result ≡ bare_app }
{
    Command::new(alloc, "mlscheck")
        .about("Checks the public state of MLS groups (RFC 9420)")
        .version(VERSION)
        .after_help(STATUSES)
        .subcommand_required(true)
}

/// Returns the program with all of its subcommands.
pub(crate) fn mlscheck_command<'a>(alloc: Global) -> Result<Command<'a>, AllocError>
    ensures { IfOk result (λ c. app_of c ≡ mlscheck_app) }
{
    let command = Ok(bare_command(alloc));
    let command = with_command(command, show_command(alloc));
    let command = with_command(command, validate_tree_command(alloc));
    let command = with_command(command, validate_command(alloc));
    let command = with_command(command, validate_packages_command(alloc));
    let command = with_command(command, replay_command(alloc));
    let command = with_command(command, signatures_command(alloc));
    let command = with_command(command, gate_command(alloc));
    with_command(command, check_command(alloc))
}

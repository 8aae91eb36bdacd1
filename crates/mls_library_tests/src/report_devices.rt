//! Reports whose devices fail, and what is printed of receipts that can't be read (docs/FORMATS.md).

ghost use Rattle.std.specs.Prelude.{refl};
ghost use Rattle.mls_program.specs.Files.{unknown};

use crate::replay_devices::{LogReading, replay_into};
use crate::support::{GROUP_INFO, TREE, bytes, expect_text, have, held_text, sink, start};
use mls_check::{Receipts, ReceiptsFault, Trusting};
use mls_cli::run_program;
use mls_msgs::Rules;
use mls_program::{Files, run_show_program};
use mls_report::{report_unreadable_receipts, signatures, validate_tree};
use mls_show::{ShowKind, Verdict, read_all, run_show, status_of};
use mls_vectors::{CheckKind, run_check};
use mls_wire::{LogStep, MemorySink, MemorySource, Records, RunFault, Source};
use std::alloc::Global;
use std::process::Abort;

/// The context of the group of member 0 alone: version 1, suite 1, epoch 0, the hash of its leaf, nothing confirmed.
const CONTEXT: &str = "000100010147000000000000000020e32ab6a0a711ec8a732c3fad9263ed5f\
    a61caf53fdf9b9690dc57271d8f110d70000";

/// Returns what a sink holds: after `no: ` if the verdict is No, and before the fault if there is no verdict.
fn said(
    rt: &impl Abort,
    alloc: Global,
    outcome: Result<Verdict, RunFault>,
    out: &MemorySink,
) -> String {
    let written = held_text(rt, alloc, out);
    match outcome {
        Ok(Verdict::Yes) => written,
        Ok(Verdict::No) => have(rt, format!(in alloc; "no: {written}")),
        Err(fault) => have(rt, format!(in alloc; "{written}: {fault}")),
    }
}

/// Returns how many bytes are read from a source of 20,000 that gives pieces of a size and fails at a call, or the fault.
fn read_text(rt: &impl Abort, alloc: Global, piece: usize, fails_at: Option<usize>) -> String {
    let bytes = have(rt, vec![in alloc; 7u8; 20000]);
    let mut input = MemorySource::new(bytes.as_slice(), piece.max(1), fails_at);
    match read_all(alloc, &mut input) {
        Ok(read) => have(rt, format!(in alloc; "{}", read.len())),
        Err(fault) => have(rt, format!(in alloc; "{fault}")),
    }
}

#[test]
fn inputs_are_read_whole(rt: HostRuntime) {
    let alloc = rt.alloc();
    const SOURCES: &[((usize, Option<usize>), &str)] = &[
        ((1, None), "20000"),
        ((8192, None), "20000"),
        ((30000, None), "20000"),
        ((10, Some(3)), "read"),
    ];
    for (source, expected) in SOURCES {
        let (piece, fails_at) = *source;
        expect_text(&rt, read_text(&rt, alloc, piece, fails_at), expected);
    }
}

/// Returns what `show` of the tree writes if its input fails at a call, and its output has capacity for this many bytes;
/// and the fault.
fn shown(rt: &impl Abort, alloc: Global, fails_at: Option<usize>, capacity: usize) -> String {
    let tree = bytes(rt, alloc, TREE);
    let mut input = MemorySource::new(tree.as_slice(), 5, fails_at);
    let mut out = sink(rt, alloc, capacity, 4, None);
    let outcome = run_show(alloc, ShowKind::Tree, &mut input, &mut out);
    said(rt, alloc, outcome, &out)
}

#[test]
fn devices_of_show_that_fail(rt: HostRuntime) {
    let alloc = rt.alloc();
    const ENDS: &[((Option<usize>, usize), &str)] = &[
        ((None, 10), "0 leaf 0 a: write"),
        ((Some(9), 100), ": read"),
    ];
    for (end, expected) in ENDS {
        let (fails_at, capacity) = *end;
        expect_text(&rt, shown(&rt, alloc, fails_at, capacity), expected);
    }
}

/// Returns what `show` of a log of two messages writes if the log fails at a call, and the output has capacity for this many
/// bytes; and the fault.
fn shown_log(rt: &impl Abort, alloc: Global, fails_at: Option<usize>, capacity: usize) -> String {
    let log = bytes(rt, alloc, "04000100020400010002");
    let mut input = MemorySource::new(log.as_slice(), 5, fails_at);
    let mut out = sink(rt, alloc, capacity, 4, None);
    let outcome = run_show(alloc, ShowKind::Log, &mut input, &mut out);
    said(rt, alloc, outcome, &out)
}

#[test]
fn lines_of_a_shown_log_before_a_fault(rt: HostRuntime) {
    let alloc = rt.alloc();
    const ENDS: &[((Option<usize>, usize), &str)] = &[
        ((None, 100), "1 4 private 0\n2 4 private 0\nrecords 2\n"),
        ((Some(2), 100), ": read"),
        ((Some(4), 100), "1 4 private 0\n: read"),
        ((Some(5), 100), "1 4 private 0\n2 4 private 0\n: read"),
        ((None, 10), "1 4 privat: write"),
        ((None, 16), "1 4 private 0\n2 : write"),
        ((None, 30), "1 4 private 0\n2 4 private 0\nre: write"),
    ];
    for (end, expected) in ENDS {
        let (fails_at, capacity) = *end;
        expect_text(&rt, shown_log(&rt, alloc, fails_at, capacity), expected);
    }
}

/// Returns what `replay` writes of the example log, read in pieces of a size, if the log fails at a call, and the output
/// has this capacity; and how many bytes of the log are left.
fn replayed(
    rt: &impl Abort,
    alloc: Global,
    ends: (usize, Option<usize>, usize),
) -> (String, usize) {
    let (piece, log_fails, capacity) = ends;
    let reading = LogReading {
        piece,
        fails_at: log_fails,
    };
    let mut out = sink(rt, alloc, capacity, piece.max(1), None);
    let (outcome, left) = replay_into(rt, alloc, reading, &mut out);
    (said(rt, alloc, outcome, &out), left)
}

/// The output fails in line 1: nothing is read after message 1, which is 77 of the 151 bytes. The log fails inside
/// message 2: line 1 is printed.
#[test]
fn devices_of_replay_that_fail(rt: HostRuntime) {
    let alloc = rt.alloc();
    const ENDS: &[((usize, Option<usize>, usize), &str)] = &[
        ((10, None, 10), "1 accepted: write"),
        (
            (40, Some(6), 1000),
            "1 accepted proposal 419afc0a88fe171b793b00410d11c8121fb96fdfde7b5ced43d5912144a3a9f9\n: read",
        ),
    ];
    for (ends, expected) in ENDS {
        let (found, _) = replayed(&rt, alloc, *ends);
        expect_text(&rt, found, expected);
    }
    let (_, left) = replayed(&rt, alloc, (10, None, 10));
    assert_eq!(rt; left, 74);
}

/// Returns what `validate-tree` writes of the context and the tree, if the output fails at a call.
fn tree_report(rt: &impl Abort, alloc: Global, out_fails: Option<usize>) -> String {
    let context = bytes(rt, alloc, CONTEXT);
    let tree = bytes(rt, alloc, TREE);
    let mut out = sink(rt, alloc, 110, 6, out_fails);
    let outcome = validate_tree(
        alloc,
        Rules::plain(),
        context.as_slice(),
        tree,
        &Trusting,
        &mut out,
    );
    said(rt, alloc, outcome, &out)
}

#[test]
fn outputs_of_validate_tree_that_fail(rt: HostRuntime) {
    let alloc = rt.alloc();
    expect_text(&rt, tree_report(&rt, alloc, Some(1)), ": write");
    expect_text(&rt, tree_report(&rt, alloc, Some(3)), "valid e32ab6: write");
}

/// Returns what is printed of receipts that can't be read, if there is capacity for this many bytes.
fn unreadable(rt: &impl Abort, alloc: Global, receipts: (ReceiptsFault, usize)) -> String {
    let (fault, capacity) = receipts;
    let mut out = sink(rt, alloc, capacity, 5, None);
    let outcome = report_unreadable_receipts(alloc, fault, &mut out);
    said(rt, alloc, outcome, &out)
}

#[test]
fn unreadable_receipts_are_reported(rt: HostRuntime) {
    let alloc = rt.alloc();
    const FAULTS: &[((ReceiptsFault, usize), &str)] = &[
        (
            (ReceiptsFault::BadLine(12), 100),
            "no: receipts unreadable 12\n",
        ),
        (
            (ReceiptsFault::TooLong, 100),
            "no: receipts unreadable TooLong\n",
        ),
        ((ReceiptsFault::TooLong, 8), "receipts: write"),
        ((ReceiptsFault::OutOfMemory, 100), ": memory"),
    ];
    for (input, expected) in FAULTS {
        expect_text(&rt, unreadable(&rt, alloc, *input), expected);
    }
}

/// An output of `signatures` that takes ten bytes.
#[test]
fn devices_of_signatures_that_fail(rt: HostRuntime) {
    let alloc = rt.alloc();
    let start = start(&rt, alloc, GROUP_INFO);
    let mut log: Option<MemorySource> = None;
    let mut out = sink(&rt, alloc, 10, 30, None);
    let receipts = Receipts::new(alloc);
    let outcome = signatures(alloc, start, &mut log, &receipts, &mut out);
    expect_text(&rt, said(&rt, alloc, outcome, &out), "584cca8421: write");
}

/// Returns what `check` writes of no test vectors, if the input and the output fail at a call.
fn checked(rt: &impl Abort, alloc: Global, fails_at: [Option<usize>; 2]) -> String {
    let [input_fails, out_fails] = fails_at;
    let mut input = MemorySource::new(b"[]", 100, input_fails);
    let mut out = sink(rt, alloc, 1000, 20, out_fails);
    let outcome = run_check(alloc, CheckKind::TreeMath, &mut input, &mut out);
    said(rt, alloc, outcome, &out)
}

#[test]
fn devices_of_check_that_fail(rt: HostRuntime) {
    let alloc = rt.alloc();
    const ENDS: &[([Option<usize>; 2], &str)] = &[
        ([Some(1), None], ": read"),
        ([None, Some(2)], "passed 0 failed 0 sk: write"),
    ];
    for (ends, expected) in ENDS {
        expect_text(&rt, checked(&rt, alloc, *ends), expected);
    }
}

/// A file of a name, which fails at a call, and no other one.
#[derive(Drop)]
struct OneFile<'a> {
    name: &'a str,
    bytes: &'a [u8],
    fails_at: Option<usize>,
}

impl<'a> Files for OneFile<'a> {
    type File = MemorySource<'a>;

    ghost opener = { λ _. unknown ⟦<MemorySource<'a> as Source>⟧.device };

    fn open(&self, name: &str) -> Option<MemorySource<'a>> {
        if name == self.name {
            Some(MemorySource::new(self.bytes, 40, self.fails_at))
        } else {
            None
        }
    }

    fn save(&self, _name: &str, _bytes: &[u8]) -> bool {
        false
    }

    ghost device_is = { λ _. refl };
}

/// The words of a line, after the program's name.
fn words(rt: &impl Abort, alloc: Global, line: &str) -> Vec<String> {
    let mut words = Vec::new(alloc);
    let name = have(rt, String::from_str(alloc, "mlscheck"));
    have(rt, words.push(name));
    for word in line.split_whitespace() {
        let word = have(rt, String::from_str(alloc, word));
        have(rt, words.push(word));
    }
    words
}

/// Returns the exit status of a line over the file `tree` that fails at its second call, what is written, and what is noted.
fn run_over_failing_tree(rt: &impl Abort, alloc: Global, line: &str) -> String {
    let tree = bytes(rt, alloc, TREE);
    let files = OneFile {
        name: "tree",
        bytes: tree.as_slice(),
        fails_at: Some(2),
    };
    let words = words(rt, alloc, line);
    let mut out = sink(rt, alloc, 2000, 30, None);
    let mut notes = sink(rt, alloc, 100, 30, None);
    let status = run_program(alloc, words.as_slice(), &files, &mut out, &mut notes);
    let out = held_text(rt, alloc, &out);
    let notes = held_text(rt, alloc, &notes);
    have(rt, format!(in alloc; "{status} {out}| {notes}"))
}

/// Whichever input a file is, if it fails there is no report. So also if another file is missing.
#[test]
fn files_that_fail_have_no_report(rt: HostRuntime) {
    let alloc = rt.alloc();
    const LINES: &[&str] = &[
        "validate-tree --context tree --tree tree --trust",
        "validate --info tree --trust",
        "validate --state tree --trust",
        "validate --info tree --tree other --trust",
        "validate-key-package tree --trust",
        "validate-key-package tree other --trust",
        "signatures --key-package tree",
        "replay --info tree --log tree --trust",
        "replay --state tree --log other --trust",
        "signatures --info tree",
        "signatures --state tree --log other",
        "gate --info tree",
        "gate --state tree --trust",
    ];
    for line in LINES {
        expect_text(
            &rt,
            run_over_failing_tree(&rt, alloc, line),
            "3 | fault: read\n",
        );
    }
}

/// Returns the exit status of a line, what is written to the output, which fails at its second call, and what is noted.
fn run_over(rt: &impl Abort, alloc: Global, line: &str, files: &OneFile) -> String {
    let words = words(rt, alloc, line);
    let mut out = sink(rt, alloc, 2000, 30, Some(2));
    let mut notes = sink(rt, alloc, 100, 30, None);
    let status = run_program(alloc, words.as_slice(), files, &mut out, &mut notes);
    let out = held_text(rt, alloc, &out);
    let notes = held_text(rt, alloc, &notes);
    have(rt, format!(in alloc; "{status} {out}| {notes}"))
}

/// Returns what [`run_over`] returns of a line over the file `tree`.
fn run_over_tree(rt: &impl Abort, alloc: Global, line: &str) -> String {
    let tree = bytes(rt, alloc, TREE);
    let files = OneFile {
        name: "tree",
        bytes: tree.as_slice(),
        fails_at: None,
    };
    run_over(rt, alloc, line, &files)
}

/// Reports and a help of which the first 30 bytes are taken, or the first line.
#[test]
fn outputs_fail(rt: HostRuntime) {
    let alloc = rt.alloc();
    const ROWS: &[(&str, &str)] = &[
        (
            "show tree tree",
            "3 0 leaf 0 a0 b0 key_package 0 1| fault: write\n",
        ),
        ("--help", "3 Checks the public state of MLS| fault: write\n"),
        (
            "validate-key-package tree tree --trust",
            "3 1 unreadable BadTag 10497 0\n| fault: write\n",
        ),
        (
            "signatures --key-package tree tree",
            "3 1 unreadable BadTag 10497 0\n| fault: write\n",
        ),
    ];
    for (line, expected) in ROWS {
        expect_text(&rt, run_over_tree(&rt, alloc, line), expected);
    }
}

/// Returns the exit status of a line over the file `tree`, of the program that has `show` alone; what is written to the
/// output; and what is noted.
fn run_show_over_tree(rt: &impl Abort, alloc: Global, line: &str) -> String {
    let tree = bytes(rt, alloc, TREE);
    let files = OneFile {
        name: "tree",
        bytes: tree.as_slice(),
        fails_at: None,
    };
    let words = words(rt, alloc, line);
    let mut out = sink(rt, alloc, 2000, 30, None);
    let mut notes = sink(rt, alloc, 100, 30, None);
    let status = run_show_program(alloc, words.as_slice(), &files, &mut out, &mut notes);
    let out = held_text(rt, alloc, &out);
    let notes = held_text(rt, alloc, &notes);
    have(rt, format!(in alloc; "{status} {out}| {notes}"))
}

/// A tree is shown, and another command is refused.
#[test]
fn show_program_only_shows(rt: HostRuntime) {
    let alloc = rt.alloc();
    const ROWS: &[(&str, &str)] = &[
        (
            "show tree tree",
            "0 0 leaf 0 a0 b0 key_package 0 18446744073709551615\nleaves 1 members 1\n| ",
        ),
        (
            "check tree-math tree",
            "2 | usage: this program has the command show alone\n",
        ),
    ];
    for (line, expected) in ROWS {
        expect_text(&rt, run_show_over_tree(&rt, alloc, line), expected);
    }
}

#[test]
fn runs_have_statuses(rt: HostRuntime) {
    for (outcome, status) in [
        (Ok(Verdict::Yes), 0),
        (Ok(Verdict::No), 1),
        (Err(RunFault::Read), 3),
        (Err(RunFault::Write), 3),
        (Err(RunFault::Memory), 3),
    ] {
        assert!(rt; status_of(&outcome) == status);
    }
}

/// Returns the name of what the next call returns.
fn next_of(reader: &mut Records, source: &mut MemorySource) -> &'static str {
    match reader.next(source) {
        Ok(LogStep::Record) => "record",
        Ok(LogStep::End) => "end",
        Ok(LogStep::Broken) => "broken",
        Ok(LogStep::Over) => "over",
        Err(_) => "fault",
    }
}

/// A source that fails at each of its calls inside a record: a fault, and then nothing more.
#[test]
fn logs_that_fail(rt: HostRuntime) {
    let log = [3, 0xab, 0xcd, 0xef];
    for fails_at in 1..4usize {
        let mut source = MemorySource::new(&log, 1, Some(fails_at));
        let mut reader = Records::new(rt.alloc(), 9);
        assert!(rt; next_of(&mut reader, &mut source) == "fault");
        assert!(rt; next_of(&mut reader, &mut source) == "over");
    }
}

//! Rows of the whole program (docs/FORMATS.md): a command over files in memory; and of logs.

ghost use Rattle.std.specs.Prelude.{refl};
ghost use Rattle.mls_program.specs.Files.{unknown};

use crate::call_result::{CallResult, are_same};
use crate::fault::RowFault;
use crate::row::{Row, have};
use crate::text_writer::TextWriter;
use crate::token::Token;
use mls_cli::{
    CheckKind, CheckerChoice, FileName, Files, GroupFiles, GroupReport, Order, Profile, Rules,
    ShowKind, order_of, run_program,
};
use mls_wire::{LogStep, MemorySink, MemorySource, RecordReader, Records, Source};
use std::alloc::{AllocError, Global};
use std::cell::Cell;

/// A file by its name.
#[derive(Drop)]
struct NamedFile {
    name: String,
    bytes: Vec<u8>,
}

/// Files in memory, which are read in pieces of a size, and the last one that was stored.
#[derive(Drop)]
struct Shelf<'a> {
    alloc: Global,
    files: &'a [NamedFile],
    piece: usize,
    stored: Cell<Option<NamedFile>>,
}

/// A file with this name and these bytes.
fn named_file(alloc: Global, name: &str, bytes: &[u8]) -> Result<NamedFile, AllocError> {
    let name = String::from_str(alloc, name)?;
    let bytes = Vec::from_slice(alloc, bytes)?;
    Ok(NamedFile { name, bytes })
}

impl<'a> Files for Shelf<'a> {
    type File = MemorySource<'a>;

    ghost opener = { λ _. unknown ⟦<MemorySource<'a> as Source>⟧.device };

    fn open(&self, name: &str) -> Option<MemorySource<'a>> {
        for file in self.files {
            if file.name.as_str() == name {
                return Some(MemorySource::new(file.bytes.as_slice(), self.piece.max(1), None));
            }
        }
        None
    }

    /// A file whose name begins with `full` can't be stored.
    fn save(&self, name: &str, bytes: &[u8]) -> bool {
        if name.starts_with("full") {
            return false;
        }
        match named_file(self.alloc, name, bytes) {
            Ok(file) => {
                self.stored.set(Some(file));
                true
            }
            Err(_) => false,
        }
    }

    ghost device_is = { λ _. refl };
}

/// Adds a copy of a word.
fn add_word(row: &Row, words: &mut Vec<String>, word: &str) {
    match String::from_str(row.alloc, word) {
        Ok(word) => row.require(words.push(word)),
        Err(_) => row.record(RowFault::OutOfMemory),
    }
}

/// The words of a command, after the program's name.
fn words_at(row: &Row, at: usize) -> Vec<String> {
    let mut words = Vec::new(row.alloc);
    add_word(row, &mut words, "mlscheck");
    for token in row.field(at) {
        match token {
            Token::Word(word) => add_word(row, &mut words, word.as_str()),
            _ => row.refuse(at, "words"),
        }
    }
    words
}

/// The name of the file that a field is: its first word, without the colon.
fn name_at<'a>(row: &Row<'a>, at: usize) -> &'a str {
    let name = match row.field(at) {
        [Token::Word(word), ..] => word.as_str().strip_suffix(':'),
        _ => None,
    };
    if name.is_none() {
        row.refuse(at, "a file");
    }
    name.unwrap_or("")
}

/// Adds the file that a field is: its name with a colon, and its bytes.
fn add_file(row: &Row, files: &mut Vec<NamedFile>, at: usize) {
    match String::from_str(row.alloc, name_at(row, at)) {
        Ok(name) => {
            let bytes = row.bytes_after_word(at);
            row.require(files.push(NamedFile { name, bytes }));
        }
        Err(_) => row.record(RowFault::OutOfMemory),
    }
}

/// The fields from this one on that are files.
fn files_from(row: &Row, first: usize) -> Vec<NamedFile> {
    let mut files = Vec::new(row.alloc);
    for at in first..row.fields.len() {
        add_file(row, &mut files, at);
    }
    files
}

/// The fields from the second on that are files.
fn files_of(row: &Row) -> Vec<NamedFile> {
    files_from(row, 2)
}

/// The text that a sink took.
fn text_of(row: &Row, sink: &MemorySink) -> String {
    let bytes = row.made(have(Vec::from_slice(row.alloc, sink.bytes())));
    match String::from_utf8(bytes) {
        Ok(text) => text,
        Err(_) => {
            row.refuse(1, "a command that prints text");
            String::new(row.alloc)
        }
    }
}

/// What a command prints, its exit status, and the file that it stored, if it did.
#[derive(Drop)]
struct Printed {
    status: u8,
    output: String,
    notes: String,
    stored: Option<NamedFile>,
}

/// Runs the program over files, which are read and printed in pieces of a size.
fn run_over(row: &Row, files: &[NamedFile], piece: usize) -> Result<Printed, RowFault> {
    let alloc = row.alloc;
    let mut out = have(MemorySink::new(alloc, 100_000, piece.max(1), None))?;
    let mut notes = have(MemorySink::new(alloc, 10_000, piece.max(1), None))?;
    let words = words_at(row, 1);
    let shelf = Shelf {
        alloc,
        files,
        piece,
        stored: Cell::new(None),
    };
    let status = run_program(alloc, words.as_slice(), &shelf, &mut out, &mut notes);
    Ok(Printed {
        status,
        output: text_of(row, &out),
        notes: text_of(row, &notes),
        stored: shelf.stored.take(),
    })
}

/// Adds each line of a text after a mark. Of a text whose last line has no end this is said.
fn add_lines(all: &mut TextWriter, text: &str, mark: &str) {
    for line in text.lines() {
        all.add(mark);
        all.add(line);
    }
    if !text.is_empty() && !text.ends_with('\n') {
        all.add(" without end");
    }
}

/// Adds the name and the bytes of a file.
fn put_file(all: &mut TextWriter, file: &NamedFile) {
    all.add(" + ");
    all.add(file.name.as_str());
    all.add(" ");
    all.add_digits(file.bytes.as_slice());
}

/// The exit status, each line of the output after `/`, each one of the notes after `|`, and the name and the bytes of a file
/// that was stored after `+`.
fn printed_text(alloc: Global, printed: &Printed) -> Result<String, RowFault> {
    let mut all = TextWriter::new(alloc);
    all.add_number(u64::from(printed.status));
    add_lines(&mut all, printed.output.as_str(), " / ");
    add_lines(&mut all, printed.notes.as_str(), " | ");
    if let Some(file) = &printed.stored {
        put_file(&mut all, file);
    }
    all.finish()
}

/// What the program prints over files in pieces of a size.
fn text_over(row: &Row, files: &[NamedFile], piece: usize) -> Result<String, RowFault> {
    match run_over(row, files, piece) {
        Ok(printed) => printed_text(row.alloc, &printed),
        Err(fault) => Err(fault),
    }
}

/// `run | COMMAND | FILE | ..`: the exit status of the program, what it prints, and the file that it stores.
pub(crate) fn run(row: &Row) -> Result<CallResult, RowFault> {
    CallResult::of(text_over(row, files_of(row).as_slice(), 40))
}

/// `run_in_pieces | COMMAND | FILE | ..`: the same in pieces of each size from 1 to 80, which must all give one result.
pub(crate) fn run_in_pieces(row: &Row) -> Result<CallResult, RowFault> {
    let files = files_of(row);
    let first = text_over(row, files.as_slice(), 1);
    for piece in 2..81 {
        if !are_same(&first, &text_over(row, files.as_slice(), piece)) {
            row.record(RowFault::TwoResults);
        }
    }
    CallResult::of(first)
}

/// The exit status, and the first word of each line of the output.
fn first_words_text(alloc: Global, printed: &Printed) -> Result<String, RowFault> {
    let mut all = TextWriter::new(alloc);
    all.add_number(u64::from(printed.status));
    for line in printed.output.as_str().lines() {
        if let Some((word, _)) = line.split_once(' ') {
            all.add(" ");
            all.add(word);
        }
    }
    all.finish()
}

/// `first_words | COMMAND | FILE | ..`: the exit status, and the first word of each line of the output.
pub(crate) fn first_words(row: &Row) -> Result<CallResult, RowFault> {
    match run_over(row, files_of(row).as_slice(), 40) {
        Ok(printed) => CallResult::of(first_words_text(row.alloc, &printed)),
        Err(fault) => Err(fault),
    }
}

/// What a command prints as its output, or, if it fails, as its notes.
fn main_text(printed: &Printed) -> &str {
    if printed.status == 0 {
        printed.output.as_str()
    } else {
        printed.notes.as_str()
    }
}

/// The exit status of a command that prints this among other things; else all that it prints.
fn status_text(alloc: Global, printed: &Printed, part: &str) -> Result<String, RowFault> {
    if main_text(printed).contains(part) {
        have(format!(in alloc; "{}", printed.status))
    } else {
        printed_text(alloc, printed)
    }
}

/// `prints | COMMAND | TEXT | FILE | ..`: the exit status of a command that prints this among other things.
pub(crate) fn prints(row: &Row) -> Result<CallResult, RowFault> {
    row.has_at_least(2);
    let part = row.text(2);
    match run_over(row, files_from(row, 3).as_slice(), 40) {
        Ok(printed) => CallResult::of(status_text(row.alloc, &printed, part.as_str())),
        Err(fault) => Err(fault),
    }
}

// ---- commands

/// The file of receipts, `-` if each signature is good, `none` if none is.
fn receipts_name(checker: &CheckerChoice) -> &str {
    match checker {
        CheckerChoice::Trust => "-",
        CheckerChoice::Receipts(file) => file.as_str(),
        CheckerChoice::NoReceipts => "none",
    }
}

/// The name of a file, or `-`.
fn file_name(file: &Option<FileName>) -> &str {
    match file {
        Some(file) => file.as_str(),
        None => "-",
    }
}

/// The name of a report and what its group is followed from, in words.
fn group_text(alloc: Global, name: &str, group: &GroupFiles) -> Result<String, RowFault> {
    match group {
        GroupFiles::Info {
            profile,
            info,
            tree,
            ..
        } => {
            let (info, tree) = (info.as_str(), file_name(tree));
            match profile {
                Profile::Members => have(format!(in alloc; "{name} {info} {tree}")),
                Profile::Full => have(format!(in alloc; "{name} in full {info} {tree}")),
            }
        }
        GroupFiles::State { state, .. } => {
            have(format!(in alloc; "{name} state {}", state.as_str()))
        }
    }
}

/// A report of a group in words: its name, the group's files, and other words.
fn group_report(
    alloc: Global,
    name: &str,
    group: &GroupFiles,
    others: &[&str],
) -> Result<String, RowFault> {
    let mut text = TextWriter::new(alloc);
    text.add_made(group_text(alloc, name, group));
    for word in others {
        text.add(" ");
        text.add(word);
    }
    text.finish()
}

/// A report of files in words: its name, and the files.
fn files_report(
    alloc: Global,
    name: &str,
    files: &[FileName],
    receipts: &str,
) -> Result<String, RowFault> {
    let mut text = TextWriter::new(alloc);
    text.add(name);
    for file in files {
        text.add(" ");
        text.add(file.as_str());
    }
    text.add(" ");
    text.add(receipts);
    text.finish()
}

/// A report that checks signatures, in words.
fn report_text(alloc: Global, report: &GroupReport, receipts: &str) -> Result<String, RowFault> {
    match report {
        GroupReport::ValidateTree { context, tree, .. } => {
            let (context, tree) = (context.as_str(), tree.as_str());
            have(format!(in alloc; "validate {context} {tree} {receipts}"))
        }
        GroupReport::Validate(group) => group_report(alloc, "start", group, &[receipts]),
        GroupReport::ValidatePackages { files, .. } => {
            files_report(alloc, "packages", files.as_slice(), receipts)
        }
        GroupReport::PackageSignatures { files, .. } => {
            files_report(alloc, "package-signatures", files.as_slice(), receipts)
        }
        GroupReport::Replay(options) => {
            let (log, save) = (options.log.as_str(), file_name(&options.save));
            group_report(alloc, "replay", &options.group, &[log, save, receipts])
        }
        GroupReport::Signatures { group, log } => {
            group_report(alloc, "signatures", group, &[file_name(log), receipts])
        }
        GroupReport::Gate { group, .. } => group_report(alloc, "gate", group, &[receipts]),
    }
}

/// The strict rules that are asked of a group.
fn group_rules(group: &GroupFiles) -> Rules {
    match group {
        GroupFiles::Info { rules, .. } => *rules,
        GroupFiles::State { rules, .. } => *rules,
    }
}

/// The strict rules that a report asks.
fn report_rules(report: &GroupReport) -> Rules {
    match report {
        GroupReport::ValidateTree { rules, .. } => *rules,
        GroupReport::Validate(group) => group_rules(group),
        GroupReport::ValidatePackages { rules, .. } => *rules,
        GroupReport::PackageSignatures { rules, .. } => *rules,
        GroupReport::Replay(options) => group_rules(&options.group),
        GroupReport::Signatures { group, .. } => group_rules(group),
        GroupReport::Gate { group, .. } => group_rules(group),
    }
}

/// The time at which a report judges lifetimes.
fn report_time(report: &GroupReport) -> Option<u64> {
    match report {
        GroupReport::Replay(options) => options.time,
        GroupReport::Gate { time, .. } => *time,
        _ => None,
    }
}

/// Adds a set of strict rules in words: nothing if it is empty, else `strict`, and after `but` those that are not in it.
fn add_rules(all: &mut TextWriter, rules: Rules) {
    if rules.is_plain() {
        return;
    }
    all.add(" strict");
    let mut mark = " but ";
    for number in 40u8..53 {
        if !rules.has(number) {
            all.add(mark);
            all.add_number(u64::from(number));
            mark = " ";
        }
    }
}

/// A report that checks signatures, the strict rules that it asks, and the time at which it judges lifetimes, in words.
fn group_order_text(
    alloc: Global,
    report: &GroupReport,
    checker: &CheckerChoice,
) -> Result<String, RowFault> {
    let mut all = TextWriter::new(alloc);
    all.add_made(report_text(alloc, report, receipts_name(checker)));
    add_rules(&mut all, report_rules(report));
    if let Some(time) = report_time(report) {
        all.add(" at ");
        all.add_number(time);
    }
    all.finish()
}

/// The kind of vectors.
fn check_word(kind: &CheckKind) -> &'static str {
    match kind {
        CheckKind::TreeMath => "math",
        CheckKind::TreeValidation => "validation",
        CheckKind::TreeOperations => "operations",
        CheckKind::Transcript => "transcript",
    }
}

/// A parsed command in words.
fn order_text(alloc: Global, order: &Order) -> Result<String, RowFault> {
    match order {
        Order::Show {
            profile,
            kind,
            file,
        } => {
            let kind = match kind {
                ShowKind::Message if *profile == Profile::Full => "message in full",
                ShowKind::Log if *profile == Profile::Full => "log in full",
                ShowKind::Tree => "tree",
                ShowKind::Info => "info",
                ShowKind::Message => "message",
                ShowKind::KeyPackage => "key-package",
                ShowKind::Members => "members",
                ShowKind::State => "state",
                ShowKind::Log => "log",
            };
            have(format!(in alloc; "show {kind} {}", file.as_str()))
        }
        Order::Group { report, checker } => group_order_text(alloc, report, checker),
        Order::Check { kind, file } => {
            let kind = check_word(kind);
            have(format!(in alloc; "check {kind} {}", file.as_str()))
        }
    }
}

/// An exit status and the lines that say what is wrong.
fn refused_text<E: Drop>(
    alloc: Global,
    status: u8,
    lines: Result<String, E>,
) -> Result<String, RowFault> {
    let mut all = TextWriter::new(alloc);
    all.add_number(u64::from(status));
    match lines {
        Ok(lines) => add_lines(&mut all, lines.as_str(), " | "),
        Err(_) => all.fail(),
    }
    all.finish()
}

/// `command | COMMAND`: what a command is parsed to: the report, its files in the order of docs/FORMATS.md, the file of receipts, the
/// strict rules, and `at` and the time; or the exit status and the lines that say what is wrong.
pub(crate) fn command(row: &Row) -> Result<CallResult, RowFault> {
    row.has(1);
    let words = words_at(row, 1);
    match order_of(row.alloc, words.as_slice()) {
        Ok(order) => {
            let text = order_text(row.alloc, &order);
            drop(order);
            CallResult::of(text)
        }
        Err(fault) => {
            let status = fault.status();
            let lines: Result<String, AllocError> = format!(in row.alloc; "{fault}");
            drop(fault);
            CallResult::of(refused_text(row.alloc, status, lines))
        }
    }
}

// ---- logs

/// The result of a step of a log.
fn step_name(step: LogStep) -> &'static str {
    match step {
        LogStep::Record => "record",
        LogStep::End => "end",
        LogStep::Broken => "broken",
        LogStep::Over => "over",
    }
}

/// Adds a step, if it was taken, and the body of its record.
fn add_step<E: Drop>(all: &mut TextWriter, step: Result<LogStep, E>, body: &[u8]) {
    all.separate(" / ");
    match step {
        Ok(step) => all.add(step_name(step)),
        Err(_) => all.fail(),
    }
    if !body.is_empty() {
        all.add(" ");
        all.add_digits(body);
    }
}

/// `log | NUMBER | BYTES`: four steps of a log of at most that many records, each with its body and the number of bytes
/// after it.
pub(crate) fn log(row: &Row) -> Result<CallResult, RowFault> {
    row.has(2);
    let bytes = row.bytes(2);
    let mut source = MemorySource::new(bytes.as_slice(), 3, None);
    let mut records = Records::new(row.alloc, row.number(1));
    let mut all = TextWriter::new(row.alloc);
    for _ in 0..4 {
        let step = records.next(&mut source);
        add_step(&mut all, step, records.body());
        all.add(" ");
        all.add_number(source.left().len() as u64);
    }
    CallResult::of(all.finish())
}

/// `held_log | NUMBER | BYTES`: four steps of a reader that holds its source, each with its body; and the number of bytes after them.
pub(crate) fn held_log(row: &Row) -> Result<CallResult, RowFault> {
    row.has(2);
    let bytes = row.bytes(2);
    let mut source = MemorySource::new(bytes.as_slice(), 3, None);
    let mut records = RecordReader::new(row.alloc, &mut source, row.number(1));
    let mut all = TextWriter::new(row.alloc);
    for _ in 0..4 {
        let step = records.next();
        add_step(&mut all, step, records.body());
    }
    drop(records);
    all.add(" / ");
    all.add_number(source.left().len() as u64);
    CallResult::of(all.finish())
}

//! The files that a command line names. No contract speaks of them.

/// Returns the word with this index; an empty one if there is none.
fn word_at(words: &[String], index: usize) -> &str {
    match words.get(index) {
        Some(word) => word.as_str(),
        None => "",
    }
}

/// A name on a command line, and the option that it belongs to, if there is one.
#[derive(Clone, Copy)]
pub(crate) struct FileWord<'a> {
    pub(crate) option: Option<&'a str>,
    pub(crate) name: &'a str,
}

/// Returns the name that the word with this index is or has: the word, or NAME in `--option=NAME`.
pub(crate) fn file_word(words: &[String], index: usize) -> FileWord<'_> {
    let word = word_at(words, index);
    if word.starts_with("--") {
        if let Some((option, name)) = word.split_once('=') {
            return FileWord {
                option: Some(option),
                name,
            };
        }
    }
    let before = word_at(words, index.saturating_sub(1));
    let option = if before.starts_with("--") && !before.contains('=') {
        Some(before)
    } else {
        None
    };
    FileWord { option, name: word }
}

/// Returns the index of the first word after the command that is or has this name, if there is one.
pub(crate) fn index_of(words: &[String], name: &str) -> Option<usize> {
    for index in 2..words.len() {
        if file_word(words, index).name == name {
            return Some(index);
        }
    }
    None
}

/// What a file is read as.
#[derive(Clone, Copy)]
pub(crate) enum Kind {
    Context,
    Tree,
    Info,
    Message,
    State,
    Log,
    Receipts,
}

/// Returns what the file that FILE of `show KIND FILE` names is read as.
fn kind_of_show(words: &[String]) -> Option<Kind> {
    match word_at(words, 2) {
        "tree" => Some(Kind::Tree),
        "info" => Some(Kind::Info),
        "message" => Some(Kind::Message),
        "state" => Some(Kind::State),
        "log" => Some(Kind::Log),
        _ => None,
    }
}

/// Returns what the file that the word with this index names is read as, if it names one.
pub(crate) fn kind_of(words: &[String], index: usize) -> Option<Kind> {
    match file_word(words, index).option {
        Some("--context") => Some(Kind::Context),
        Some("--tree") => Some(Kind::Tree),
        Some("--info") => Some(Kind::Info),
        Some("--state") => Some(Kind::State),
        Some("--log") => Some(Kind::Log),
        Some("--receipts") => Some(Kind::Receipts),
        None if index == 3 && word_at(words, 1) == "show" => kind_of_show(words),
        _ => None,
    }
}

//! What is wrong with the arguments, in words.

use ss_records::Config;
use std::fmt;

/// The argument that is invalid.
#[derive(Clone, Copy)]
pub(crate) struct Usage<'a> {
    /// The arguments; none where they are not text.
    pub(crate) words: Option<&'a [String]>,
    /// Which one it is, from 0; their number where one is missing.
    pub(crate) index: usize,
}

impl fmt::Display for Usage<'_> {
    fn fmt<W: fmt::Write>(&self, f: &mut fmt::Formatter<W>) -> fmt::Result {
        let Some(words) = self.words else {
            return f.write_str("the arguments are not text");
        };
        let Some(command) = words.first() else {
            return f.write_str("no command; see splitstore --help");
        };
        match words.get(self.index) {
            Some(word) => fmt_word(f, words, command.as_str(), word.as_str(), self.index),
            None => f.write_str("init: mode is missing; it is mode=discard"),
        }
    }
}

// Says why a word is invalid, which is that at this index.
fn fmt_word<W: fmt::Write>(
    f: &mut fmt::Formatter<W>,
    words: &[String],
    command: &str,
    word: &str,
    index: usize,
) -> fmt::Result {
    match command {
        "init" => fmt_setting(f, words, word, index),
        "import" if index == 1 && !is_path(word) => write!(f, "{word}: head is yes or no"),
        "import" | "trace" if is_path(word) => {
            write!(
                f,
                "{word}: {command} reads its standard input: splitstore {command} < {word}"
            )
        }
        "import" => write!(f, "{word}: import takes head=yes or head=no, and no more"),
        "trace" | "info" | "--help" | "--version" => { write!(f, "{command} takes no arguments") }
        _ => write!(f, "{command}: no such command; see splitstore --help"),
    }
}

// Whether a word looks like the path of a file.
fn is_path(word: &str) -> bool {
    !word.contains('=') && (word.contains('/') || word.contains('.') || word == "-")
}

// Says why a word is no setting of a new store.
fn fmt_setting<W: fmt::Write>(
    f: &mut fmt::Formatter<W>,
    words: &[String],
    word: &str,
    index: usize,
) -> fmt::Result {
    let Some((key, _)) = word.split_once('=') else {
        return write!(f, "{word}: init takes KEY=VALUE; see splitstore --help");
    };
    if has_key(words, key, index) {
        return write!(f, "{word}: {key} stands there twice");
    }
    match key {
        "mode" => write!(f, "{word}: mode is discard"),
        "depth" => fmt_range(f, word, key, 0, Config::MAX_EPOCHS),
        "threshold" => fmt_range(f, word, key, 1, Config::MAX_EPOCHS),
        "batch" => fmt_range(f, word, key, 1, u64::from(Config::MAX_BATCH)),
        "rows" => fmt_range(f, word, key, 1, u64::from(u32::MAX)),
        "limit" => fmt_range(f, word, key, Config::MIN_LIMIT, Config::MAX_LIMIT),
        _ => write!(f, "{word}: init has no key {key}; see splitstore --help"),
    }
}

// Whether a word before this index sets the key.
fn has_key(words: &[String], key: &str, index: usize) -> bool {
    for earlier in words.iter().take(index).skip(1) {
        if let Some((other, _)) = earlier.as_str().split_once('=')
            && other == key
        {
            return true;
        }
    }
    false
}

// Says which numbers the value of a key may be.
fn fmt_range<W: fmt::Write>(
    f: &mut fmt::Formatter<W>,
    word: &str,
    key: &str,
    least: u64,
    most: u64,
) -> fmt::Result {
    write!(f, "{word}: {key} is a number from {least} to {most}")
}

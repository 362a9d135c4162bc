//! The words of the command line.

ghost use Rattle.std.specs.Prelude.{◌≡◌, ◌≤◌, Ok, IfOk, IfSome, map, string_bytes};
ghost use Rattle.ss_records.specs.declared.record.Config.{Config as Settled};
ghost use Rattle.ss_records.specs.declared.record.Mode.TheVariants.{Discard};
ghost use Rattle.ss_records.specs.Record.{SettingsFit};
ghost use Rattle.ss_app.specs.declared.words.Command.TheVariants.{Init};
ghost use Rattle.ss_app.specs.Words.{CommandFits, command_of, words_of, alone, import_of, init_of, settings_from, no_settings, mode_of, number_within, once};

use ss_records::{Config, Mode};
use ss_script::is_number;

/// How many epochs behind the head the edge of a compaction lies where no word says it.
const DEFAULT_DEPTH: u64 = 3600;

/// How many epochs behind the head the last edge lies before a compaction is due, where no word says it.
const DEFAULT_THRESHOLD: u64 = 4500;

/// How many blocks a step handles where no word says it.
const DEFAULT_BATCH: u32 = 256;

/// What the words of the command line ask for.
#[derive(Clone, Copy, PartialEq, Eq)]
pub(crate) enum Command {
    /// To make a store of these settings.
    Init(Config),
    /// To make the calls of a script.
    Trace,
    /// To import a CAR, and set its roots as head if the flag says so.
    Import(bool),
    /// To tell the settings, and what the store counts.
    Info,
    /// To print the commands.
    Help,
    /// To print the version.
    Version,
}

/// The command of these words, or the place of the first word, counted from 0, that is invalid; the number of words
/// where one is missing.
pub(crate) fn command_of(words: &[String]) -> Result<Command, usize>
    ensures command { result ≡ command_of (map string_bytes words.now) }
    ensures fits { IfOk result CommandFits }
{
    let Some((command, rest)) = words.split_first() else {
        return Err(0);
    };
    match command.as_str() {
        "init" => init(rest),
        "trace" => alone(Command::Trace, 1, rest),
        "import" => import(rest),
        "info" => alone(Command::Info, 1, rest),
        "--help" => alone(Command::Help, 0, rest),
        "--version" => alone(Command::Version, 0, rest),
        _ => Err(0),
    }
}

/// A law: the words that ask for a store are read as its settings. There is nothing to call.
pub(crate) fn each_store_can_be_asked_for()
    ensures { (c : Settled) → SettingsFit c → c.mode ≡ Discard → command_of (words_of c) ≡ Ok (Init c) }
{}

// A command that takes no words, or the place at fault where there are some.
fn alone(command: Command, place: usize, words: &[String]) -> Result<Command, usize>
    ensures { result ≡ alone command place (map string_bytes words.now) }
{
    if words.is_empty() {
        Ok(command)
    } else {
        Err(place)
    }
}

// The command `import` with these words behind it.
fn import(words: &[String]) -> Result<Command, usize>
    ensures { result ≡ import_of (map string_bytes words.now) }
{
    let Some((word, rest)) = words.split_first() else {
        return Ok(Command::Import(true));
    };
    match word.as_str() {
        "head=yes" => alone(Command::Import(true), 2, rest),
        "head=no" => alone(Command::Import(false), 2, rest),
        _ => Err(1),
    }
}

// The command `init` with these words behind it.
fn init(words: &[String]) -> Result<Command, usize>
    ensures { result ≡ init_of (map string_bytes words.now) }
{
    match read_settings(words)?.config() {
        Some(config) => Ok(Command::Init(config)),
        None => Err(words.len() + 1),
    }
}

// The settings of the words behind `init`, or the place of the first that is invalid.
fn read_settings(words: &[String]) -> Result<Settings, usize>
    ensures { result ≡ settings_from 1 no_settings (map string_bytes words.now) }
{
    let mut settings = Settings::default();
    for (index, word) in words.iter().enumerate() {
        let Some(more) = settings.with_word(word.as_str()) else {
            return Err(index + 1);
        };
        settings = more;
    }
    Ok(settings)
}

// A key of `init`.
#[derive(Clone, Copy, PartialEq, Eq)]
enum Key {
    Mode,
    Depth,
    Threshold,
    Batch,
    Rows,
    Limit,
}

impl Key {
    ghost use Rattle.std.specs.Prelude.{◌≡◌};
    ghost use Rattle.ss_app.specs.Words.{key_of};

    // The key of this name.
    fn of(name: &str) -> Option<Key>
        ensures { result ≡ key_of name.now }
    {
        match name {
            "mode" => Some(Key::Mode),
            "depth" => Some(Key::Depth),
            "threshold" => Some(Key::Threshold),
            "batch" => Some(Key::Batch),
            "rows" => Some(Key::Rows),
            "limit" => Some(Key::Limit),
            _ => None,
        }
    }
}

// What the words of `init` set; at first nothing.
#[derive(Clone, Copy, Default, PartialEq, Eq)]
struct Settings {
    mode: Option<Mode>,
    depth: Option<u64>,
    threshold: Option<u64>,
    batch: Option<u32>,
    rows: Option<u32>,
    limit: Option<u64>,
}

impl Settings {
    ghost use Rattle.std.specs.Prelude.{◌≡◌};
    ghost use Rattle.ss_app.specs.Words.{with_word, with_value, config_of};

    // The settings with one word more, where it is valid.
    #[tactic(auto, unfolding(crate::specs::Words::with_word))]
    fn with_word(self, word: &str) -> Option<Settings>
        ensures { result ≡ with_word self word.now }
    {
        let (name, value) = word.split_once('=')?;
        self.with_value(Key::of(name)?, value)
    }

    // The settings with the value of a key that has none yet, where it is valid.
    #[tactic(auto, unfolding(crate::specs::Words::with_value))]
    fn with_value(mut self, key: Key, value: &str) -> Option<Settings>
        ensures { result ≡ with_value self key value.now }
    {
        match key {
            Key::Mode => self.mode = Some(once(self.mode, read_mode(value))?),
            Key::Depth => {
                self.depth = Some(once(self.depth, decimal(value, 0, Config::MAX_EPOCHS))?)
            }
            Key::Threshold => {
                self.threshold = Some(once(self.threshold, decimal(value, 1, Config::MAX_EPOCHS))?)
            }
            Key::Batch => {
                self.batch = Some(once(self.batch, small_decimal(value, 1, Config::MAX_BATCH))?)
            }
            Key::Rows => self.rows = Some(once(self.rows, small_decimal(value, 1, u32::MAX))?),
            Key::Limit => {
                self.limit = Some(once(
                    self.limit,
                    decimal(value, Config::MIN_LIMIT, Config::MAX_LIMIT),
                )?)
            }
        }
        Some(self)
    }

    // The settings of a store, where a mode is set.
    fn config(self) -> Option<Config>
        ensures { result ≡ config_of self }
    {
        Some(Config {
            mode: self.mode?,
            depth: self.depth.unwrap_or(DEFAULT_DEPTH),
            threshold: self.threshold.unwrap_or(DEFAULT_THRESHOLD),
            batch: self.batch.unwrap_or(DEFAULT_BATCH),
            rows: self.rows.unwrap_or(u32::MAX),
            limit: self.limit.unwrap_or(Config::MAX_LIMIT),
        })
    }
}

// A value of a key that had none before.
fn once<T: Copy>(before: Option<T>, value: Option<T>) -> Option<T>
    ensures { result ≡ once before value }
{
    match before {
        None => value,
        Some(_) => None,
    }
}

// The mode of this name, of those that a store can be made in.
fn read_mode(value: &str) -> Option<Mode>
    ensures { result ≡ mode_of value.now }
{
    match value {
        "discard" => Some(Mode::Discard),
        _ => None,
    }
}

// A decimal number without leading zeros that is within its bounds.
#[tactic(auto, unfolding(crate::specs::Words::number_within))]
fn decimal(value: &str, least: u64, most: u64) -> Option<u64>
    ensures value { result ≡ number_within least most value.now }
    ensures most { IfSome result (λ n. n ≤ most) }
{
    if !is_number(value.as_bytes()) {
        return None;
    }
    let number = value.parse().ok()?;
    if least <= number && number <= most {
        Some(number)
    } else {
        None
    }
}

// The same of 32 bits.
fn small_decimal(value: &str, least: u32, most: u32) -> Option<u32>
    ensures { result ≡ number_within least most value.now }
{
    let number = decimal(value, u64::from(least), u64::from(most))?;
    Some(number as u32)
}

use crate::texts;

/// What the program tells of itself.
#[derive(Clone, Copy, Debug, PartialEq, Eq)]
pub enum Topic {
    /// What it is, its commands, files and statuses.
    Program,
    /// The command `run`, and the keys of a plan.
    Run,
    /// The command `check`.
    Check,
    /// The command `asm`.
    Assembling,
    /// The command `resume`.
    Resume,
    /// The command `journal`.
    Journal,
    /// The command `audit`.
    Audit,
    /// Its version.
    Version,
}

impl Topic {
    /// The text on it, in which `@` stands for the program's name.
    pub fn text(self) -> &'static str {
        match self {
            Topic::Program => texts::PROGRAM,
            Topic::Run => texts::RUN,
            Topic::Check => texts::CHECK,
            Topic::Assembling => texts::ASSEMBLING,
            Topic::Resume => texts::RESUME,
            Topic::Journal => texts::JOURNAL,
            Topic::Audit => texts::AUDIT,
            Topic::Version => texts::VERSION,
        }
    }
}

/// The command of that name.
fn topic_of_command(name: &str) -> Option<Topic> {
    match name {
        "run" => Some(Topic::Run),
        "check" => Some(Topic::Check),
        "asm" => Some(Topic::Assembling),
        "resume" => Some(Topic::Resume),
        "journal" => Some(Topic::Journal),
        "audit" => Some(Topic::Audit),
        _ => None,
    }
}

fn is_help(word: &str) -> bool {
    word == "--help" || word == "-h"
}

/// Whether one of a command's words asks for help; behind `--` all are names.
fn has_help(words: &[String]) -> bool {
    for word in words {
        if word.as_str() == "--" {
            return false;
        }
        if is_help(word.as_str()) {
            return true;
        }
    }
    false
}

/// What is to be told where help was asked for, by the words behind that.
fn topic_behind_help(words: &[String]) -> Option<Topic> {
    match words {
        [] => Some(Topic::Program),
        [name] => topic_of_command(name.as_str()),
        _ => None,
    }
}

/// What the words of the command line ask to be told. None where they are for the call: a command's, or without meaning.
pub fn topic_of(words: &[String]) -> Option<Topic> {
    let [_, first, rest @ ..] = words else {
        return None;
    };
    let first = first.as_str();
    if first == "help" || is_help(first) {
        return topic_behind_help(rest);
    }
    if first == "--version" && rest.is_empty() {
        return Some(Topic::Version);
    }
    if has_help(rest) {
        return topic_of_command(first);
    }
    None
}

//! What the words ask for help about by the word `help`, which stands in place of the flag `--help`.

ghost use Rattle.std.specs.Prelude.{◌≡◌, ◌&&◌, codes, is_some, map, string_bytes};
ghost use Rattle.std.specs.List.{list_any};
ghost use Rattle.std.specs.Str.{bytes_eq};
ghost use Rattle.eco_words.specs.CommandLine.{is_help_word};
ghost use Rattle.eco_words.specs.EcoCommand.{subcommands};

/// What help is about.
#[derive(Clone, Copy)]
pub(crate) enum Topic {
    /// The program as a whole.
    Program,
    /// The command `synth`.
    Synth,
    /// The command `audit`.
    Audit,
    /// The command `prove`.
    Prove,
    /// The command `recheck`.
    Recheck,
    /// The command `gen`.
    Gen,
    /// The command `locate`.
    Locate,
}

/// What the words ask for help about by the word `help`, alone or with a command's name; None where they don't.
pub(crate) fn asked_topic(words: &[String]) -> Option<Topic>
    ensures { is_some result ≡ is_help_word (map string_bytes words.now) }
{
    match words {
        [_, word] => topic_by(word.as_str(), Some(Topic::Program)),
        [_, word, name] => topic_by(word.as_str(), topic_of(name.as_str())),
        _ => None,
    }
}

/// This topic, where the word is `help`.
fn topic_by(word: &str, topic: Option<Topic>) -> Option<Topic>
    ensures { is_some result ≡ (bytes_eq word.now (codes "help") && is_some topic) }
{
    if word == "help" { topic } else { None }
}

/// The command of this name.
fn topic_of(name: &str) -> Option<Topic>
    ensures { is_some result ≡ list_any (bytes_eq name.now) subcommands }
{
    match name {
        "synth" => Some(Topic::Synth),
        "audit" => Some(Topic::Audit),
        "prove" => Some(Topic::Prove),
        "recheck" => Some(Topic::Recheck),
        "gen" => Some(Topic::Gen),
        "locate" => Some(Topic::Locate),
        _ => None,
    }
}

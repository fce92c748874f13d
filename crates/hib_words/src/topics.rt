// What the words ask of main itself, before any call: the help or the version.
ghost use Rattle.std.specs.Prelude.{◌≡◌, map, string_bytes};
ghost use Rattle.hib_words.specs.Topics.{topic_of, topic_named};

/// What main itself answers, before any call.
#[derive(Clone, Copy)]
pub enum Topic {
    /// The text of the help.
    Help,
    /// The version of the program.
    Version,
}

fn topic_named(word: &str) -> Option<Topic>
    ensures { result ≡ topic_named word.now }
{
    if word == "--help" {
        Some(Topic::Help)
    } else if word == "--version" {
        Some(Topic::Version)
    } else {
        None
    }
}

/// What the words ask of main itself: help or the version, each as the only word.
pub fn topic_asked(words: &[String]) -> Option<Topic>
    ensures { result ≡ topic_of (map string_bytes words.now) }
{
    match words {
        [word] => topic_named(word.as_str()),
        _ => None,
    }
}

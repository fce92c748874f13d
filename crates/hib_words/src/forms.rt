// The commands with their options, and the commands of clap that read them. A verb is the first word.
ghost use Rattle.std.specs.Prelude.{◌≡◌, false, is_some, IfOk};
ghost use Rattle.clap.specs.Words.{app_of, rule_of};
ghost use Rattle.hib_words.specs.Clap.{app_for, rule_for};
ghost use Rattle.hib_words.specs.Commands.{form_of, options_of, is_valued, verb_named, verb_word, word_of};
ghost use Rattle.hib_words.specs.Tools.{tool_named};

use clap::{Arg, ArgAction};
use std::alloc::{AllocError, Global};

/// What the first word asks for, of the program or of its tools.
#[derive(Clone, Copy)]
pub enum Verb {
    /// Runs a script by its schedule.
    Play,
    /// Runs a script on several workers.
    Work,
    /// Makes a script from a seed.
    Make,
    /// Says whether a journal is legal for a script.
    Audit,
    /// Runs a script with collections by its schedule.
    Collect,
    /// Runs a script with bulk changes.
    Bulk,
    /// Runs a script at two nodes over one store.
    Nodes,
    /// Tries the orders of a script's sessions.
    Orders,
    /// Writes the report of a journal.
    Report,
    /// Writes a journal with a member for each thing.
    Flat,
    /// Writes the script that repeats a journal.
    Schedule,
    /// Writes a journal as a trace.
    Spans,
    /// Writes the state after each entry of a journal.
    States,
    /// Writes the rows of a file.
    Rows,
}

/// An option, which each command that has it takes at most once.
#[derive(Clone, Copy)]
pub enum OptionName {
    /// The journal in place of the report.
    Journal,
    /// The file that the store is on.
    File,
    /// Each step is told on standard error.
    Trace,
    /// How many workers run the sessions.
    Workers,
    /// Each part stands behind a lock of its own.
    Split,
    /// The number that a script is made from.
    Seed,
    /// The script that was made, in place of a run of it.
    Text,
    /// How many switches an order may make.
    Switches,
    /// How many orders are tried.
    AtMost,
    /// The script with the schedule of a finding, in place of what was found.
    Show,
    /// How many sessions are killed.
    Kills,
    /// Columns in place of objects.
    Csv,
    /// The spans for Jaeger in place of those for Perfetto.
    Jaeger,
}

const PLAY_OPTIONS: [OptionName; 3] = [OptionName::Journal, OptionName::File, OptionName::Trace];

const WORK_OPTIONS: [OptionName; 5] = [
    OptionName::Workers,
    OptionName::Split,
    OptionName::Journal,
    OptionName::File,
    OptionName::Trace,
];

const MAKE_OPTIONS: [OptionName; 2] = [OptionName::Seed, OptionName::Text];

const ORDERS_OPTIONS: [OptionName; 4] = [
    OptionName::Switches,
    OptionName::Kills,
    OptionName::AtMost,
    OptionName::Show,
];

const FLAT_OPTIONS: [OptionName; 1] = [OptionName::Csv];

const SPANS_OPTIONS: [OptionName; 1] = [OptionName::Jaeger];

const ROWS_OPTIONS: [OptionName; 1] = [OptionName::File];

impl Verb {
    /// The word that it is written by.
    pub fn word<'a>(self) -> &'a str
        ensures { result.now ≡ verb_word self }
    {
        match self {
            Verb::Play => "play",
            Verb::Work => "work",
            Verb::Make => "make",
            Verb::Audit => "audit",
            Verb::Collect => "collect",
            Verb::Bulk => "bulk",
            Verb::Nodes => "nodes",
            Verb::Orders => "orders",
            Verb::Report => "report",
            Verb::Flat => "flat",
            Verb::Schedule => "schedule",
            Verb::Spans => "spans",
            Verb::States => "states",
            Verb::Rows => "rows",
        }
    }

    /// The options that it takes.
    pub fn options(self) -> &'static [OptionName]
        ensures { result.now ≡ options_of self }
    {
        match self {
            Verb::Play => &PLAY_OPTIONS,
            Verb::Work => &WORK_OPTIONS,
            Verb::Make => &MAKE_OPTIONS,
            Verb::Orders => &ORDERS_OPTIONS,
            Verb::Flat => &FLAT_OPTIONS,
            Verb::Spans => &SPANS_OPTIONS,
            Verb::Rows => &ROWS_OPTIONS,
            Verb::Audit
            | Verb::Collect
            | Verb::Bulk
            | Verb::Nodes
            | Verb::Report
            | Verb::Schedule
            | Verb::States => { &[] }
        }
    }
}

/// The command of the program that a word names.
pub fn verb_named(word: &str) -> Option<Verb>
    ensures { result ≡ verb_named word.now }
{
    match word {
        "play" => Some(Verb::Play),
        "work" => Some(Verb::Work),
        "make" => Some(Verb::Make),
        "audit" => Some(Verb::Audit),
        "collect" => Some(Verb::Collect),
        "bulk" => Some(Verb::Bulk),
        "nodes" => Some(Verb::Nodes),
        _ => None,
    }
}

/// The command of the tools that a word names.
pub fn tool_named(word: &str) -> Option<Verb>
    ensures { result ≡ tool_named word.now }
{
    match word {
        "orders" => Some(Verb::Orders),
        "report" => Some(Verb::Report),
        "flat" => Some(Verb::Flat),
        "schedule" => Some(Verb::Schedule),
        "spans" => Some(Verb::Spans),
        "states" => Some(Verb::States),
        "rows" => Some(Verb::Rows),
        _ => None,
    }
}

impl OptionName {
    /// The word that it is written by, without its two hyphens.
    pub fn word<'a>(self) -> &'a str
        ensures { result.now ≡ word_of self }
    {
        match self {
            OptionName::Journal => "journal",
            OptionName::File => "file",
            OptionName::Trace => "trace",
            OptionName::Workers => "workers",
            OptionName::Split => "split",
            OptionName::Seed => "seed",
            OptionName::Text => "text",
            OptionName::Switches => "switches",
            OptionName::AtMost => "at-most",
            OptionName::Show => "show",
            OptionName::Kills => "kills",
            OptionName::Csv => "csv",
            OptionName::Jaeger => "jaeger",
        }
    }

    /// What its value is called, if it takes one.
    fn value_name<'a>(self) -> Option<&'a str>
        ensures { is_some result ≡ is_valued self }
    {
        match self {
            OptionName::File => Some("PATH"),
            OptionName::Workers => Some("N"),
            OptionName::Seed => Some("N"),
            OptionName::Switches => Some("N"),
            OptionName::AtMost => Some("N"),
            OptionName::Show => Some("K"),
            OptionName::Kills => Some("N"),
            _ => None,
        }
    }

    /// What the help says of it.
    fn help<'a>(self) -> &'a str {
        match self {
            OptionName::Journal => "Writes the journal as JSON lines in place of the report",
            OptionName::File =>
                "Takes the rows of the SQLite file PATH, in place of rows in memory",
            OptionName::Trace => "Tells each step on standard error",
            OptionName::Workers => "Runs the sessions on N workers, 1 to 64",
            OptionName::Split => "Puts each part behind a lock of its own, and not all behind one",
            OptionName::Seed => "Makes the script from N, 0 to 4294967295",
            OptionName::Text => "Writes the script that was made, and runs nothing",
            OptionName::Switches =>
                "Tries the orders with at most N switches, 0 to 64; 2 if it isn't given",
            OptionName::AtMost => "Tries at most N orders, 1 to 4294967295",
            OptionName::Show => "Writes the script with the schedule of finding K, 1 to 5",
            OptionName::Kills =>
                "Tries also the orders in which at most N sessions are killed, 0 to 64; 0 if it isn't given",
            OptionName::Csv => "Writes a line of columns for each entry, and not an object",
            OptionName::Jaeger => "Writes the spans for Jaeger, and not for Perfetto",
        }
    }

    /// The argument of clap that reads it.
    pub fn arg<'a>(self, alloc: Global) -> Arg<'a>
        ensures rule { rule_of result ≡ rule_for (word_of self) (is_valued self) }
        ensures local { result.global ≡ false }
    {
        let arg = Arg::new(alloc, self.word())
            .long(self.word())
            .help(self.help());
        match self.value_name() {
            Some(value) => arg.action(ArgAction::Set).value_name(value),
            None => arg.action(ArgAction::SetTrue),
        }
    }
}

/// The flat command of clap that reads the words after the verb.
pub fn command_for<'a>(alloc: Global, verb: Verb) -> Result<clap::Command<'a>, AllocError>
    ensures { IfOk result (λ c. app_of c ≡ app_for (verb_word verb) (form_of verb)) }
{
    let mut command = clap::Command::new(alloc, verb.word()).disable_help_flag(true);
    for option in verb.options() {
        command = command.arg(option.arg(alloc))?;
    }
    Ok(command)
}

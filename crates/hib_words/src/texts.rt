// What `--help` and `--version` print. The texts of commands and options are clap's.
use crate::forms::{OptionName, Verb};
use clap::{Arg, ArgAction, Command};
use std::alloc::{AllocError, Global};

/// The program, the project, and the toolchain that it is proved with.
pub const VERSION: &str = "hib 0.1
Zughvarti, sessions over a second-level cache, with a proof
proved with a Rattle kit of logic dac8208d650f15bf
";

const ABOUT: &str =
    "Runs sessions over a store with a second-level cache, and prints each atomic step.";

const AFTER_HELP: &str = "
A script comes by standard input, and the report goes to standard output:
  hib play < examples/first.hib
A script may also be made from a number, to be looked at or run:
  hib make --seed 7 --text > made.hib
On workers the sessions run side by side, each at its own pace; the schedule isn't used:
  hib work --workers 4 < made.hib
With --split a step locks only the part that it asks, so steps of other parts needn't wait for one
that takes long, as over a file. Only such a run may end with status 7:
  hib work --workers 4 --split < made.hib
A journal may be kept, and judged later, behind its script and a line 'journal':
  hib play --journal < made.hib > lines
  (cat made.hib; echo journal; cat lines) | hib audit

Collections are declared after a line 'collections', behind the script:
  hib collect < examples/sections/moved.hib

Bulk changes and their schedule stand after a line 'bulk', behind the script:
  hib bulk < examples/sections/sale.hib

Where sessions are, and their schedule with deliveries, stand after a line 'nodes', behind the script:
  hib nodes < examples/sections/twins.hib

Behind the word 'tools' stand the words that read what these have written, and find the orders of
sessions that end badly:
  hib tools --help

The words --help and --version stand alone: beside another word they are no command.

Exit status, which a line on standard error explains if it isn't 0:
  0  all was done, and the text was written whole
  1  the journal that was audited isn't legal; the verdict was written
  2  the words are no command
  3  the input is no script, as in 'hib: line 7: no-end'; nothing was written
  4  reading failed; nothing was written
  5  writing failed; a first part of the text may be written
  6  the input has more than 1,048,576 bytes, or 67,108,864 of an audit; nothing was written
  7  with --split, lists or ticks of the sessions don't fit together, or a lock gave the region of
     another entity; nothing was written
  8  memory ran out; a first part of the text may be written
  9  the store didn't take the script's rows; nothing was run

Why a line of a script is refused, at status 3:
  byte           it has a byte that isn't printable
  long           it has more than 4,096 bytes
  token          a part of it is no token
  header         it is the first line, and isn't 'hib 1'
  line           its first word can't begin a line at this place
  words          its tokens haven't the form of the line
  many-entities  it is one more entity than there may be
  many-columns   it is one more column than an entity may have
  entity-taken   an entity of this name was declared before
  column-taken   the entity has a column of this name
  strategy       it names none of the four; before bulk changes or nodes, read-only or nonstrict
  capacity       the capacity is out of its range
  column-type    it names none of the four types
  ref-unknown    the entity that it refers to isn't declared yet
  default        the default isn't of the column's type, or a column before it has one
  no-columns     no column comes after the entity
  reserved       the name that it declares is a reserved word
  taken          what it declares is there already
  unknown        what it names isn't there
  number         a number is out of its range
  cells          it has not as many cells as the entity has columns
  type           a cell isn't of its column's type, or a bool has no order
  depth          a condition is nested too deeply, or lists too many cells
  many           it is one more than there may be
  last           it ends a session whose last statement is no commit and no rollback
  no-end         the input ends inside a session or a schedule
  journal        no line 'journal' follows the script, or this one is no entry's
  section        no line 'collections', 'bulk' or 'nodes' follows the script
  order          an order other than 'run' before collections; any schedule before bulk or nodes
  plain          the rows of the entity have no versions
  cached         it keeps the results of a query, before bulk changes or nodes

docs/SCRIPT.md tells what a script may say, docs/JOURNAL.md what a report says, docs/CLAIMS.md what is proved.
";

const ABOUT_TOOLS: &str =
    "Finds the orders of sessions that end badly, and writes journals as data.";

const AFTER_TOOLS_HELP: &str = "
A script comes by standard input. Its sessions are played in every order with at most N switches, the
orders with the fewest first; its schedule isn't used. A switch is a place where a session is left that
comes again later:
  hib tools orders --switches 1 < examples/stale.hib
Each finding has a number, and the schedule of one order that has it, with the fewest switches. The
script with that schedule is written by:
  hib tools orders --switches 1 --show 1 < examples/stale.hib > found.hib
With --kills the orders are tried too in which sessions are killed between their steps, so many at most:
  hib tools orders --switches 1 --kills 1 < examples/stale.hib
Of a journal as JSON lines, behind its script and a line 'journal', the report is written that
'hib play' would have written:
  hib work --workers 4 --journal < examples/shop.hib > lines
  (cat examples/shop.hib; echo journal; cat lines) | hib tools report
The same input is read by four more words. 'flat' writes the journal for jq and notebooks, 'schedule' the
script by which 'hib play' repeats it, 'spans' a trace that Perfetto opens, 'states' what each entry of a
legal journal has changed, and why what was refused was:
  (cat examples/shop.hib; echo journal; cat lines) | hib tools flat --csv
  (cat examples/shop.hib; echo journal; cat lines) | hib tools schedule > again.hib
  (cat examples/shop.hib; echo journal; cat lines) | hib tools spans > trace.json
  (cat examples/shop.hib; echo journal; cat lines) | hib tools states > states.jsonl
The rows of a file that 'hib play --file' has worked on, as lines of the script:
  hib tools rows --file shop.db < examples/shop.hib

The words --help and --version stand alone: beside another word they are no command.

Exit status, which a line on standard error explains if it isn't 0 or 1:
  0  all was done, and nothing was found
  1  an order ends badly, and the text was written whole; with --show, there is no finding K; of
     'schedule', no schedule repeats the journal; of 'states', the journal isn't legal, as in
     'hib: illegal 3 reply'
  2  the words are no command
  3  the input is no script, as in 'hib: line 7: no-end'; nothing was written
  4  reading failed; nothing was written
  5  writing failed; a first part of the text may be written
  6  the input has more than 1,048,576 bytes, or 67,108,864 with a journal; nothing was written
  8  memory ran out; a first part of the text may be written
  9  the file can't be read; nothing was written

docs/ORDERS.md tells what an order, a switch and each finding are, docs/DATA.md what the other words write.
";

impl Verb {
    /// The name of the program with its command, as the help of a command begins.
    fn full_name<'a>(self) -> &'a str {
        match self {
            Verb::Play => "hib play",
            Verb::Work => "hib work",
            Verb::Make => "hib make",
            Verb::Audit => "hib audit",
            Verb::Collect => "hib collect",
            Verb::Bulk => "hib bulk",
            Verb::Nodes => "hib nodes",
            Verb::Orders => "hib tools orders",
            Verb::Report => "hib tools report",
            Verb::Flat => "hib tools flat",
            Verb::Schedule => "hib tools schedule",
            Verb::Spans => "hib tools spans",
            Verb::States => "hib tools states",
            Verb::Rows => "hib tools rows",
        }
    }

    /// What the help says of it.
    fn about<'a>(self) -> &'a str {
        match self {
            Verb::Play => "Runs a script by its schedule, and writes the report of its journal",
            Verb::Work => "Runs a script on several workers, and writes the report of its journal",
            Verb::Make => "Makes a script from a number, runs it and sums it up",
            Verb::Audit => "Says whether a journal is legal for a script",
            Verb::Collect => "Runs a script with collections, and writes its journal",
            Verb::Bulk => "Runs a script with bulk changes, and writes its journal",
            Verb::Nodes => "Runs a script at two nodes over one store, and writes its journal",
            Verb::Orders =>
                "Tries the orders of a script's sessions, and writes which of them end badly",
            Verb::Report => "Writes the report of a journal that comes after its script",
            Verb::Flat =>
                "Writes a journal that comes after its script as JSON with a member for each thing",
            Verb::Schedule => "Writes the script with the schedule that repeats a journal",
            Verb::Spans => "Writes a journal that comes after its script as a trace",
            Verb::States =>
                "Writes the state after each entry of a journal that comes after its script",
            Verb::Rows => "Writes the rows of a SQLite file as lines of the script",
        }
    }
}

impl OptionName {
    /// Whether this command has no form without the option.
    fn is_required(self, verb: Verb) -> bool {
        match self {
            OptionName::Workers | OptionName::Seed => true,
            OptionName::File => matches!(verb, Verb::Rows),
            _ => false,
        }
    }
}

const TOOL_VERBS: [Verb; 7] = [
    Verb::Orders,
    Verb::Report,
    Verb::Flat,
    Verb::Schedule,
    Verb::Spans,
    Verb::States,
    Verb::Rows,
];

const VERBS: [Verb; 7] = [
    Verb::Play,
    Verb::Work,
    Verb::Make,
    Verb::Audit,
    Verb::Collect,
    Verb::Bulk,
    Verb::Nodes,
];

/// A command with its options, as the help shows them.
fn shown<'a>(alloc: Global, verb: Verb, name: &'a str) -> Result<Command<'a>, AllocError> {
    let mut command = Command::new(alloc, name).disable_help_flag(true);
    for option in verb.options() {
        command = command.arg(option.arg(alloc).required(option.is_required(verb)))?;
    }
    Ok(command)
}

/// A word that stands alone, as the help shows it.
fn lone_word<'a>(alloc: Global, name: &'a str, help: &'a str) -> Arg<'a> {
    Arg::new(alloc, name)
        .long(name)
        .action(ArgAction::SetTrue)
        .help(help)
}

/// A program with its options, as the help shows it, yet without its commands.
fn program<'a>(
    alloc: Global,
    name: &'a str,
    about: &'a str,
    usage: &'a str,
) -> Result<Command<'a>, AllocError> {
    let help = lone_word(alloc, "help", "Prints this text");
    let version = lone_word(alloc, "version", "Prints the version");
    Command::new(alloc, name)
        .about(about)
        .override_usage(usage)
        .disable_help_flag(true)
        .disable_help_subcommand(true)
        .arg(help)?
        .arg(version)
}

/// The program with one command more, for the help.
fn with_command<'a>(
    alloc: Global,
    program: Command<'a>,
    verb: Verb,
) -> Result<Command<'a>, AllocError> {
    let command = shown(alloc, verb, verb.word())?;
    program.subcommand(command.about(verb.about()))
}

/// The help of a command alone, as clap renders it.
fn section(alloc: Global, verb: Verb) -> Result<String, AllocError> {
    let mut command = shown(alloc, verb, verb.full_name())?;
    command.render_help()
}

fn add_section(alloc: Global, text: &mut String, verb: Verb) -> Result<(), AllocError> {
    let section = section(alloc, verb)?;
    text.push_str("\n")?;
    text.push_str(section.as_str())
}

/// The help of a program: what clap says of it, of its commands and their options, and then a text.
fn help_of<'a>(
    alloc: Global,
    program: Command<'a>,
    verbs: &[Verb],
    after: &str,
) -> Result<String, AllocError> {
    let mut program = program;
    for verb in verbs {
        program = with_command(alloc, program, *verb)?;
    }
    let mut text = program.render_help()?;
    for verb in verbs {
        add_section(alloc, &mut text, *verb)?;
    }
    text.push_str(after)?;
    Ok(text)
}

/// The text of `--help`: clap's own for the commands and options, and then what a user has to know besides. The only
/// error is want of memory.
pub fn help(alloc: Global) -> Result<String, AllocError> {
    let program = program(alloc, "hib", ABOUT, "hib <COMMAND> [OPTIONS]")?;
    help_of(alloc, program, &VERBS, AFTER_HELP)
}

/// The text of `--help` of the tools. The only error is want of memory.
pub fn tools_help(alloc: Global) -> Result<String, AllocError> {
    let program = program(
        alloc,
        "hib tools",
        ABOUT_TOOLS,
        "hib tools <COMMAND> [OPTIONS]",
    )?;
    help_of(alloc, program, &TOOL_VERBS, AFTER_TOOLS_HELP)
}

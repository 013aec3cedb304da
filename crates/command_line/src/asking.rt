//! The words of `ask`: docs/SERVING.md, "Control lines".

ghost use Rattle.std.specs.Prelude.{◌≡◌, IfOk, MatchOption, codes, false};
ghost use Rattle.clap.specs.Words.{found_of, new_app, rows_of, rule_of, with_rule};
ghost use Rattle.command_line.specs.declared.asking.AskWords.{AskWords};
ghost use Rattle.command_line.specs.CommandLine.{IsAsking, IsCommand, ask_app, lines_word, port_word, until_option, wait_option};

use crate::command::required;
use clap::builder::ValueParser;
use clap::{Arg, ArgMatches, Command};
use std::alloc::{AllocError, Global};

/// What `ask` is asked for. Lines and the reply are words of the command line, as they were given.
#[derive(Debug, PartialEq, Eq, Drop)]
pub struct AskWords<'a> {
    /// The TCP port of 127.0.0.1 that the server's control lines come to.
    pub port: u32,
    /// The lines that are sent, at least one.
    pub lines: Vec<&'a str>,
    /// The reply that has to come last. None: the lines are sent once.
    pub until: Option<&'a str>,
    /// Seconds for which the server may send nothing.
    pub wait: u32,
}

const ASK_HELP: &str =
    "Sends control lines to a server on this machine (`serve`), and prints what it answers, as it comes. A line of several \
words is one word in quotes. The lines are sent at once, so with their ends they have at most 65536 bytes. None may be `follow`, whose answer is bytes. With `--until` they are \
sent again, 10 milliseconds after the last reply and on a new connection, until the last line that comes is that reply. \
It has no end of its own if that reply never comes. A refused line ends it.";

const ASK_EXAMPLE: &str = "Example: archive_tool ask 8010 sweep --until 'swept 0'

Statuses: 0 each line was answered and none refused, 1 a line was refused, 2 a wrong command line, 3 there was no connection, or \
it failed or ended before each line was answered, nothing came for too long, or standard output failed.";

const UNTIL_HELP: &str = "Sends the lines again until this is the last line that comes";

const WAIT_HELP: &str = "For how many seconds the server may send nothing, from 1 to 86400";

/// The port, which has to be given.
fn port<'a>(alloc: Global) -> Arg<'a>
    ensures rule { rule_of result ≡ port_word }
    ensures local { result.global ≡ false }
{
    required(
        alloc,
        "port",
        "The TCP port of 127.0.0.1 that the server's control lines come to",
    )
    .value_parser(ValueParser::signed(1, 65_535))
}

/// The lines, of which one has to be given.
fn lines<'a>(alloc: Global) -> Arg<'a>
    ensures rule { rule_of result ≡ lines_word }
    ensures local { result.global ≡ false }
{
    required(alloc, "line", "A control line").num_args(1..)
}

/// The option `--until`, a reply.
fn until<'a>(alloc: Global) -> Arg<'a>
    ensures rule { rule_of result ≡ until_option }
    ensures local { result.global ≡ false }
{
    Arg::new(alloc, "until")
        .long("until")
        .value_name("reply")
        .help(UNTIL_HELP)
}

/// The option `--wait`, in seconds.
fn wait<'a>(alloc: Global) -> Arg<'a>
    ensures rule { rule_of result ≡ wait_option }
    ensures local { result.global ≡ false }
{
    Arg::new(alloc, "wait")
        .long("wait")
        .value_name("seconds")
        .value_parser(ValueParser::signed(1, 86_400))
        .default_value("60")
        .help(WAIT_HELP)
}

/// The command `ask` with its port.
fn ask_port<'a>(alloc: Global) -> Result<Command<'a>, AllocError>
    ensures { IfOk result (IsCommand (with_rule (new_app (codes "ask")) port_word)) }
{
    Command::new(alloc, "ask")
        .about("Sends control lines to a server, and prints what it answers")
        .long_about(ASK_HELP)
        .after_help(ASK_EXAMPLE)
        .arg(port(alloc))
}

/// The command `ask`.
pub(crate) fn ask<'a>(alloc: Global) -> Result<Command<'a>, AllocError>
    ensures { IfOk result (IsCommand ask_app) }
{
    let command = ask_port(alloc)?;
    command
        .arg(lines(alloc))?
        .arg(until(alloc))?
        .arg(wait(alloc))
}

/// The words of `ask` that its matches hold. Takes memory for the list of lines.
pub(crate) fn asking<'a>(
    alloc: Global,
    own: &ArgMatches<'a>,
) -> Result<Option<AskWords<'a>>, AllocError>
    ensures { IfOk result (λ found. MatchOption found
        ((words : AskWords) → IsAsking (rows_of (found_of own.now)) words → ⊥)
        (IsAsking (rows_of (found_of own.now)))) }
{
    let Some(port) = own.get_one::<u32>("port") else {
        return Ok(None);
    };
    let Some(lines) = own.get_strs("line") else {
        return Ok(None);
    };
    let Some(wait) = own.get_one::<u32>("wait") else {
        return Ok(None);
    };
    Ok(Some(AskWords {
        port,
        lines: Vec::from_slice(alloc, lines)?,
        until: own.get_str("until"),
        wait,
    }))
}

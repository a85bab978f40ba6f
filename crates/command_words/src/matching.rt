//! The words are taken apart by `clap`.

ghost use Rattle.std.specs.Prelude.{◌≡◌, codes, map, true, IfOk, IfErr, None, is_some, option_and_then};
ghost use Rattle.clap.specs.Words.{app_of, found_of, first_of, kind_of, rows_of, subcommand_rows_of};
ghost use Rattle.command_words.specs.Matches as asked;
ghost use Rattle.command_words.specs.Words as meaning;

use crate::words::{Task, count_of, is_task, task_of_word};
use clap::error::ErrorKind;
use clap::{Arg, ArgMatches, Command, Error};
use std::alloc::{AllocError, Global};
use std::str;
use zone_graph::{NoMemory, Word};

/// What the words ask for: `None` where they are no list of words that means something.
///
/// # Errors
///
/// [`NoMemory`], where the words ask for something and there is no memory to take them apart.
#[tactic(auto, using(crate::proofs::Asking::asked_in_range))]
pub fn task_of(alloc: Global, words: &[Word]) -> Result<Option<Task>, NoMemory>
    ensures task { IfOk result (λ task. task ≡ meaning.task_of words.now) }
    ensures range { IfOk result meaning.IsInRange }
    ensures none { meaning.task_of words.now ≡ None → result ≡ Ok None }
{
    if !is_task(words) {
        return Ok(None);
    }
    let texts = texts_of(alloc, words)?;
    match matches_of(alloc, texts.as_slice()) {
        Ok(matches) => Ok(task_matched(&matches)),
        Err(_) => Err(NoMemory),
    }
}

// The words as text.
fn texts_of<'a>(alloc: Global, words: &'a [Word]) -> Result<Vec<&'a str>, NoMemory>
    requires asked { is_some (meaning.task_of words.now) ≡ true }
    ensures { IfOk result (λ texts. map (λ text. text.now) texts.items ≡ words.now) }
{
    let mut texts = Vec::new(alloc);
    for word in words {
        match str::from_utf8(word.bytes()) {
            Ok(text) => texts.push(text)?,
            Err(_) => unreachable!(),
        }
    }
    Ok(texts)
}

// The matches of words that ask for something. The only error is want of memory.
fn matches_of<'a>(alloc: Global, words: &'a [&'a str]) -> Result<ArgMatches<'a>, Error>
    requires asked { is_some (meaning.task_of (map (λ word. word.now) words.now)) ≡ true }
    ensures task { IfOk result (λ found. asked.task_matched (subcommand_rows_of found) ≡ meaning.task_of (map (λ word. word.now) words.now)) }
    ensures error { IfErr result (λ error. kind_of error ≡ ErrorKind.OutOfMemory) }
{
    program(alloc)?.try_get_matches_from(words)
}

// The command line of the program.
fn program<'a>(alloc: Global) -> Result<Command<'a>, AllocError>
    ensures { IfOk result (λ command. app_of command ≡ asked.program) }
{
    let line = session_words(alloc)?;
    let line = with_record_words(alloc, line)?;
    with_disk_words(alloc, line)
}

// The command line with the words that play a session alone.
fn session_words<'a>(alloc: Global) -> Result<Command<'a>, AllocError>
    ensures { IfOk result (λ command. app_of command ≡ asked.session_words) }
{
    let replay = Command::new(alloc, "replay");
    let generate = Command::new(alloc, "generate").arg(Arg::new(alloc, "N").required(true))?;
    Command::new(alloc, "sidc")
        .no_binary_name(true)
        .disable_help_flag(true)
        .disable_help_subcommand(true)
        .subcommand(replay)?
        .subcommand(generate)
}

// The same command line with the words that read a record.
fn with_record_words<'a>(alloc: Global, line: Command<'a>) -> Result<Command<'a>, AllocError>
    ensures { IfOk result (λ command. app_of command ≡ asked.with_record_words (app_of line.entry)) }
{
    let audit = Command::new(alloc, "audit");
    let ship = Command::new(alloc, "ship");
    line.subcommand(audit)?.subcommand(ship)
}

// The same command line with the words that work on a disk.
fn with_disk_words<'a>(alloc: Global, line: Command<'a>) -> Result<Command<'a>, AllocError>
    ensures { IfOk result (λ command. app_of command ≡ asked.with_disk_words (app_of line.entry)) }
{
    let store = Command::new(alloc, "store");
    let recover = Command::new(alloc, "recover");
    line.subcommand(store)?.subcommand(recover)
}

// What the matches ask for.
fn task_matched(matches: &ArgMatches) -> Option<Task>
    ensures { result ≡ asked.task_matched (subcommand_rows_of matches.now) }
{
    let (name, rest) = matches.subcommand()?;
    if name == "generate" {
        let commands = commands_matched(rest)?;
        return Some(Task::Generate { commands });
    }
    task_of_word(name.as_bytes())
}

// The number of commands behind `generate`.
fn commands_matched(matches: &ArgMatches) -> Option<u32>
    ensures { result ≡ option_and_then meaning.count_of (first_of (codes "N") (rows_of (found_of matches.now))) }
{
    count_of(matches.get_str("N")?.as_bytes())
}

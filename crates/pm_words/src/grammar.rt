use crate::memory::out_of_memory;
use clap::{Arg, Command};
use pm_types::NoMemory;
use std::alloc::Global;

// The commands, each with the values that have to be given, and with those that may be.
const COMMANDS: [(&str, &[&str], &[&str]); 9] = [
    ("init", &["FILE"], &[]),
    ("run", &["FILE", "MODE"], &["PLACE"]),
    ("inspect", &["FILE"], &[]),
    ("dump", &["FILE"], &[]),
    ("restore", &["FILE"], &[]),
    ("why", &["FILE", "ID"], &[]),
    ("make", &["SEED", "N"], &[]),
    ("trial", &["FILE", "SEED", "N"], &[]),
    ("ship", &["FILE", "OTHER"], &[]),
];

// A command with these values more.
fn with_values<'a>(
    alloc: Global,
    mut command: Command<'a>,
    values: &[&'a str],
    is_required: bool,
) -> Result<Command<'a>, NoMemory> {
    for value in values {
        command = command.arg(Arg::new(alloc, value).required(is_required))?;
    }
    Ok(command)
}

// The commands and their values.
fn grammar<'a>(alloc: Global) -> Result<Command<'a>, NoMemory> {
    let mut commands = Command::new(alloc, "pmos")
        .no_binary_name(true)
        .subcommand_required(true);
    for (name, required, optional) in COMMANDS {
        let command = with_values(alloc, Command::new(alloc, name), required, true)?;
        commands = commands.subcommand(with_values(alloc, command, optional, false)?)?;
    }
    Ok(commands)
}

/// Whether `clap` takes the words as those of a command with its values.
pub(crate) fn is_taken(alloc: Global, words: &[&str]) -> Result<bool, NoMemory> {
    let grammar = grammar(alloc)?;
    match grammar.try_get_matches_from(words) {
        Ok(_) => Ok(true),
        Err(error) => match out_of_memory(error) {
            Some(refused) => Err(refused),
            None => Ok(false),
        },
    }
}

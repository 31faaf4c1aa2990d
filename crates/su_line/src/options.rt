// Options, and what is read of them.
ghost use Rattle.std.specs.Prelude.{◌≡◌, IfOk, map, option_map};
ghost use Rattle.std.specs.String.{string_bytes};
ghost use Rattle.su_line.specs.Fault.{IsUsage};

use crate::faults::LineFault;
use clap::{Arg, ArgAction};
use std::alloc::{AllocError, Global};

/// Builds an option with this name, this word for its value, and this help.
pub fn option<'a>(alloc: Global, name: &'a str, value: &'a str, help: &'a str) -> Arg<'a> {
    Arg::new(alloc, name)
        .long(name)
        .value_name(value)
        .help(help)
}

/// Builds an option without a value, which is there or not.
pub fn flag<'a>(alloc: Global, name: &'a str, help: &'a str) -> Arg<'a> {
    Arg::new(alloc, name)
        .long(name)
        .action(ArgAction::SetTrue)
        .help(help)
}

/// Builds an option that has to be given.
pub fn needed<'a>(alloc: Global, name: &'a str, value: &'a str, help: &'a str) -> Arg<'a> {
    option(alloc, name, value, help).required(true)
}

/// Copies texts.
pub fn copies(alloc: Global, texts: &[&str]) -> Result<Vec<String>, AllocError>
    ensures { IfOk result (λ copies.
        map string_bytes copies.items ≡ map (λ text. text.now) texts.now) }
{
    let mut copies = Vec::with_capacity(alloc, texts.len())?;
    for text in texts {
        let copy = String::from_str(alloc, text)?;
        if copies.push(copy).is_err() {
            return Err(AllocError);
        }
    }
    Ok(copies)
}

/// Copies a text, if there is one.
pub fn copy(alloc: Global, text: Option<&str>) -> Result<Option<String>, AllocError>
    ensures { IfOk result (λ copy.
        option_map string_bytes copy ≡ option_map (λ text. text.now) text.entry) }
{
    match text {
        Some(text) => Ok(Some(String::from_str(alloc, text)?)),
        None => Ok(None),
    }
}

/// Returns a fault of the command line that this text tells.
pub fn usage(alloc: Global, text: &str) -> LineFault
    ensures { IsUsage text.now result }
{
    match String::from_str(alloc, text) {
        Ok(text) => LineFault::Usage(text),
        Err(_) => LineFault::NoMemory,
    }
}

//! Which files a command reads, and which of them are named in its lines.

ghost use Rattle.cap_cmd.specs.Naming.{named_asked, single_asked};
ghost use Rattle.clap.specs.Words.{found_of};
ghost use Rattle.std.specs.Prelude.{◌≡◌, IfOk, map, option_map, string_bytes};

use clap::ArgMatches;
use std::alloc::{AllocError, Global};

// Copies of texts.
fn texts_of(alloc: Global, texts: &[&str]) -> Result<Vec<String>, AllocError>
    ensures { IfOk result (λ names. map string_bytes names.items ≡ map (λ s. s.now) texts.now) }
{
    let mut names = Vec::new(alloc);
    for text in texts {
        names.push(String::from_str(alloc, *text)?)?;
    }
    Ok(names)
}

// The files that are named: those of `--files`, or else several of FILE.
fn named_of(alloc: Global, options: &ArgMatches<'_>) -> Result<Vec<String>, AllocError>
    ensures { IfOk result (λ names. map string_bytes names.items ≡ named_asked (found_of options.now)) }
{
    if let Some(names) = options.get_strs("files") {
        return texts_of(alloc, &names[..]);
    }
    match options.get_strs("file") {
        Some(names) if names.len() > 1 => texts_of(alloc, &names[..]),
        _ => Ok(Vec::new(alloc)),
    }
}

// The file that isn't named: one FILE.
fn single_of(alloc: Global, options: &ArgMatches<'_>) -> Result<Option<String>, AllocError>
    ensures { IfOk result (λ name. option_map string_bytes name ≡ single_asked (found_of options.now)) }
{
    if options.contains_id("files") {
        return Ok(None);
    }
    match options.get_strs("file") {
        Some(names) if names.len() == 1 => Ok(Some(String::from_str(alloc, names[0])?)),
        _ => Ok(None),
    }
}

/// The file of a command that isn't named in its lines, and those that are.
pub(crate) fn files_of(
    alloc: Global,
    options: &ArgMatches<'_>,
) -> Result<(Option<String>, Vec<String>), AllocError>
    ensures single { IfOk result (λ files.
        option_map string_bytes files.0 ≡ single_asked (found_of options.now)) }
    ensures named { IfOk result (λ files.
        map string_bytes files.1.items ≡ named_asked (found_of options.now)) }
{
    Ok((single_of(alloc, options)?, named_of(alloc, options)?))
}

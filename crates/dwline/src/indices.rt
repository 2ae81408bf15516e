//! The files of indices: one is written under its name once it is whole, and one is listed.

use crate::ending::Ending;
use dl_cmd::IndexWords;
use dl_index::open;
use dl_listing::list;
use dl_locating::index;
use dl_memory::System;
use dl_open::FileSource;
use dl_program::Stop;
use dl_sections::{RunFault, SECTION_LIMIT, Survey};
use std::alloc::{AllocError, Global};
use std::fs::{File, OpenOptions};
use std::{fs, io};

/// The path that stands for standard output.
const OUTPUT: &str = "-";

/// Writes the index that the words ask for.
pub fn write_index<'a, F: FileSource>(
    rt: &HostRuntime,
    files: &F,
    words: &IndexWords<'a>,
) -> Result<Survey, Ending<'a>> {
    match words.output {
        Some(path) if path == OUTPUT => Ok(index(
            &System::new(rt.alloc()),
            words,
            files,
            &mut rt.stdout(),
        )?),
        Some(path) if is_special(rt, path) => write_into(rt, files, words, path),
        Some(path) => write_beside(rt, files, words, path),
        None => Err(Ending::Stop(Stop::NotUnderstood)),
    }
}

/// Whether something stands at a path that is no plain file, as a device or a pipe, which no other may replace.
fn is_special(rt: &HostRuntime, path: &str) -> bool {
    match fs::metadata(rt, path) {
        Ok(found) => !found.is_file(),
        Err(_) => false,
    }
}

/// Writes the index into what stands at a path.
fn write_into<'a, F: FileSource>(
    rt: &HostRuntime,
    files: &F,
    words: &IndexWords<'a>,
    path: &'a str,
) -> Result<Survey, Ending<'a>> {
    match OpenOptions::new().write(true).open(rt, path) {
        Ok(mut file) => Ok(index(&System::new(rt.alloc()), words, files, &mut file)?),
        Err(error) => Err(Ending::NotWritten { path, error }),
    }
}

/// Writes the index under another name beside this one, and gives it this name once it is whole: no half index stands
/// under it, and what stood there before stays until then.
fn write_beside<'a, F: FileSource>(
    rt: &HostRuntime,
    files: &F,
    words: &IndexWords<'a>,
    path: &'a str,
) -> Result<Survey, Ending<'a>> {
    let part = name_beside(rt.alloc(), path)?;
    let mut file = match File::create(rt, part.as_str()) {
        Ok(file) => file,
        Err(error) => return Err(Ending::NotWritten { path, error }),
    };
    match index(&System::new(rt.alloc()), words, files, &mut file) {
        Ok(survey) => match fs::rename(rt, part.as_str(), path) {
            Ok(()) => Ok(survey),
            Err(error) => Err(Ending::NotWritten { path, error }),
        },
        Err(stop) => {
            let _ = fs::remove_file(rt, part.as_str());
            Err(Ending::Stop(stop))
        }
    }
}

/// The name of a file that isn't whole yet.
fn name_beside(alloc: Global, path: &str) -> Result<String, AllocError> {
    let mut name = String::new(alloc);
    name.push_str(path)?;
    name.push_str(".part")?;
    Ok(name)
}

/// Lists the index that the words name.
pub fn list_index<'a, F: FileSource>(
    rt: &HostRuntime,
    files: &F,
    words: &IndexWords<'a>,
) -> Result<u8, Ending<'a>> {
    let Some(path) = words.file else {
        return Err(Ending::Stop(Stop::NotUnderstood));
    };
    let read = files.read_file(&System::new(rt.alloc()), path, SECTION_LIMIT);
    let bytes = read.map_err(|fault| Ending::Stop(Stop::Run(fault)))?;
    match open(bytes.as_slice()) {
        Ok(index) => match list(&index, &mut rt.stdout()) {
            Ok(()) => Ok(0),
            Err(lost) => Err(Ending::Stop(Stop::Run(RunFault::Write { out: lost.out }))),
        },
        Err(fault) => Err(Ending::NoIndex { path, fault }),
    }
}

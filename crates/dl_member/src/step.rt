//! What comes of one member.
ghost use Rattle.std.specs.Prelude.{◌≡◌, IfOk, IfErr, MatchResult, OnErr, []};
ghost use Rattle.std.specs.Io.KnownBytes.{Appends};
ghost use Rattle.dl_print.specs.Output.{BlamesWriter, Prints, TellsOut};
ghost use Rattle.dl_archive.specs.Told.{seen};
ghost use Rattle.dl_cmd.specs.Job.{request_made};
ghost use Rattle.dl_elf.specs.Source.{ForBytes};
ghost use Rattle.dl_member.specs.Files.{bytes_of_file, fails_of_file};
ghost use Rattle.dl_open.specs.declared.fault.FileFault.TheVariants.{Open};
ghost use Rattle.dl_program.specs.declared.stop.Stop.TheVariants.{File};
ghost use Rattle.dl_member.specs.declared.step.Step.TheVariants.{Done};
ghost use Rattle.dl_member.specs.Walking.{AtMember, AtNamed, IsStep, IsTold, answer_status, member_line};

use crate::file::file_of_member;
use crate::job::job_over;
use crate::line_table::has_no_table;
use crate::path::path_of_member;
use crate::sink::MemberSink;
use crate::source::WithMember;
use dl_archive::{Member, NAME_LIMIT};
use dl_cmd::Job;
use dl_elf::ReadAt;
use dl_open::{FileFault, FileSource};
use dl_output::Destination;
use dl_path::print_shown;
use dl_print::{Printer, WriteFault};
use dl_program::{MapMemory, Stop, work};
use dl_sections::Survey;
use std::io;
use std::io::ErrorKind;

/// What comes of a member.
#[derive(Clone, Copy)]
pub enum Step {
    /// It has no line table.
    PassedOver,
    /// The work over it ended with this status.
    Done(u8),
    /// The line before it can't be written.
    Unwritten(WriteFault),
}

/// The status of what was answered, of which a stop is told.
fn told_status<T: MemberSink>(answer: Result<Survey, Stop<'_>>, sink: &mut T) -> u8
    ensures status { result ≡ answer_status answer.entry }
    ensures told { IsTold T.tells sink.old sink.new answer.entry }
{
    match answer {
        Ok(survey) => { if survey.damaged.is_some() { 1 } else { 0 } }
        Err(stop) => {
            sink.stopped(&stop);
            stop.status()
        }
    }
}

/// Prints the line before what is printed of the file under a path.
fn print_path<W: Destination>(
    printer: &mut Printer,
    output: &mut W,
    path: &str,
) -> Result<(), WriteFault>
    ensures printed { Prints (W.contents output.old) (W.contents output.new) printer.old printer.new
        (member_line path.now) result }
    ensures blames { BlamesWriter W.fails result }
{
    print_shown(printer, output, path.as_bytes())?;
    printer.put(output, b":\n")
}

/// Writes the line before what is printed of the file under a path.
// Apart from what is done then, so that the printer takes none of its stack.
#[inline(never)]
pub fn write_path<W: Destination>(output: &mut W, path: &str) -> Result<(), WriteFault>
    ensures written { MatchResult result
        (λ _. Appends (W.contents output.old) (W.contents output.new) (member_line path.now))
        (TellsOut (W.contents output.old) (W.contents output.new) (member_line path.now)) }
    ensures blames { BlamesWriter W.fails result }
{
    let mut printer = Printer::new();
    match print_path(&mut printer, output, path) {
        Ok(()) => printer.flush(output),
        Err(lost) => Err(lost),
    }
}

/// What comes of a file under a path.
fn over_file<M: MapMemory, F: FileSource, S: ReadAt, W: Destination, T: MemberSink>(
    memory: &M,
    job: &Job<'_>,
    files: &F,
    path: &str,
    file: &S,
    output: &mut W,
    sink: &mut T,
) -> Step
    ensures step { ((t : T) → T.hears t t []) → IsStep (M.refuses memory.now) (F.held files.now) (F.fails_with files.now) W.fails
        (request_made job.now) T.hears T.tells path.now (S.all_bytes file.now) (S.fails_with file.now) (W.contents output.old)
        (W.contents output.new) sink.old sink.new result }
{
    if has_no_table(file) {
        return Step::PassedOver;
    }
    if let Err(fault) = write_path(output, path) {
        return Step::Unwritten(fault);
    }
    let files = WithMember { path, file, files };
    let mut input: &[u8] = &[];
    let answer = work(
        memory,
        job_over(job, path),
        &files,
        &mut input,
        output,
        sink,
    );
    Step::Done(told_status(answer, sink))
}

/// Tells that the file at a path can't be opened.
pub fn tell_unopened<T: MemberSink>(path: &str, error: io::Error, sink: &mut T) -> Step
    ensures step { result ≡ Done 3 }
    ensures told { T.tells sink.old sink.new (File path.entry (Open error)) }
{
    sink.stopped(&Stop::File {
        path,
        fault: FileFault::Open(error),
    });
    Step::Done(3)
}

/// What comes of a member of this name.
fn at_named<M: MapMemory, F: FileSource, S: ReadAt, W: Destination, T: MemberSink>(
    memory: &M,
    job: &Job<'_>,
    files: &F,
    path: &str,
    archive: &S,
    member: &Member,
    name: &[u8],
    output: &mut W,
    sink: &mut T,
) -> Step
    ensures step { ((t : T) → T.hears t t []) → ForBytes (S.all_bytes archive.now) (λ f. AtNamed (M.refuses memory.now) (F.held files.now)
        (F.fails_with files.now) W.fails (request_made job.now) T.hears T.tells (S.fails_with archive.now)
        (bytes_of_file S.all_bytes F.File.all_bytes) (fails_of_file S.fails_with F.File.fails_with) f path.now name.now
        (seen member.now).place (W.contents output.old) (W.contents output.new) sink.old sink.new result) }
{
    let Ok(own) = path_of_member(path, name) else {
        return tell_unopened(path, io::Error::from(ErrorKind::InvalidFilename), sink);
    };
    match file_of_member(files, path, archive, member, name) {
        Ok(file) => over_file(memory, job, files, own.as_str(), &file, output, sink),
        Err(error) => tell_unopened(own.as_str(), error, sink),
    }
}

/// What comes of a member, with which is done what a job asks for, which is `dump` or `check`.
///
/// One that isn't an ELF file with a line table is passed over. Before any other a line with its path is written: that of the archive,
/// and its name in parentheses. Where its file can't be opened, or the work over it stops, `sink` is told. The error is that of reading
/// its name.
pub fn at_member<M: MapMemory, F: FileSource, S: ReadAt, W: Destination, T: MemberSink>(
    memory: &M,
    job: &Job<'_>,
    files: &F,
    path: &str,
    archive: &S,
    member: &Member,
    output: &mut W,
    sink: &mut T,
) -> io::Result<Step>
    ensures step { ((t : T) → T.hears t t []) → ForBytes (S.all_bytes archive.now) (λ f. IfOk result (AtMember (M.refuses memory.now)
        (F.held files.now) (F.fails_with files.now) W.fails (request_made job.now) T.hears T.tells (S.fails_with archive.now)
        (bytes_of_file S.all_bytes F.File.all_bytes) (fails_of_file S.fails_with F.File.fails_with) f path.now
        (seen member.now) (W.contents output.old) (W.contents output.new) sink.old sink.new)) }
    ensures fails { IfErr result (S.fails_with archive.now) }
    ensures output { OnErr result (W.contents output.new ≡ W.contents output.old) }
    ensures sink { OnErr result (sink.new ≡ sink.old) }
{
    let mut buffer = [0; NAME_LIMIT];
    let len = member.read_name(archive, &mut buffer)?;
    let name = &buffer[..len];
    Ok(at_named(
        memory, job, files, path, archive, member, name, output, sink,
    ))
}

//! Why the program ends before its work is done.

use dl_cmd::word_status;
use dl_elf::ElfFault;
use dl_index::IndexFault;
use dl_member::MemberFault;
use dl_open::{FileFault, Shown};
use dl_program::Stop;
use dl_sections::RunFault;
use std::alloc::AllocError;
use std::io;
use std::io::Write;

/// Why the program ends before its work is done.
pub enum Ending<'a> {
    /// Help or the version was asked for, or the words were refused.
    Words(clap::Error),
    /// A word isn't UTF-8.
    NotText,
    Stop(Stop<'a>),
    /// The file at this path is an archive, whose members the command doesn't go through.
    Archive { path: &'a str },
    /// The member that this path names can't be read, or the archive at this path is damaged.
    Member { path: &'a str, fault: MemberFault },
    /// A file has no line section, and its debug information wasn't found, as the text tells.
    NotFound { text: &'a str },
    /// The index can't be written under this path.
    NotWritten { path: &'a str, error: io::Error },
    /// The file at this path isn't an index that is read.
    NoIndex { path: &'a str, fault: IndexFault },
}

impl From<AllocError> for Ending<'_> {
    ghost use Rattle.std.specs.Prelude.{◌≡◌};
    ghost use Rattle.dl_sections.specs.declared.fault.RunFault.TheVariants as fault;
    ghost use Rattle.dl_program.specs.declared.stop.Stop.TheVariants as stop;
    ghost use Rattle.dwline.specs.declared.ending.Ending.TheVariants as ending;

    ghost from_gives = { λ error given. given ≡ ending.Stop (stop.Run fault.NoMemory) };

    fn from(_error: AllocError) -> Self {
        Ending::Stop(Stop::Run(RunFault::NoMemory))
    }
}

impl From<clap::Error> for Ending<'_> {
    ghost use Rattle.std.specs.Prelude.{◌≡◌};
    ghost use Rattle.clap.specs.Words.{kind_of};
    ghost use Rattle.clap.specs.declared.error.kind.ErrorKind.TheVariants.{OutOfMemory};
    ghost use Rattle.dl_sections.specs.declared.fault.RunFault.TheVariants as fault;
    ghost use Rattle.dl_program.specs.declared.stop.Stop.TheVariants as stop;
    ghost use Rattle.dwline.specs.declared.ending.Ending.TheVariants as ending;

    /// Want of memory while the words are read is told as want of memory elsewhere is.
    ghost from_gives = { λ error given. kind_of error ≡ OutOfMemory → given ≡ ending.Stop (stop.Run fault.NoMemory) };

    fn from(error: clap::Error) -> Self {
        match error.kind() {
            clap::error::ErrorKind::OutOfMemory => Ending::from(AllocError),
            _ => Ending::Words(error),
        }
    }
}

impl<'a> From<Stop<'a>> for Ending<'a> {
    fn from(stop: Stop<'a>) -> Self {
        Ending::Stop(stop)
    }
}

impl<'a> Ending<'a> {
    /// The same; of a file that has no line section with what is told of that, where there is such a text.
    pub fn without_lines(self, lost: Option<&'a str>) -> Ending<'a> {
        match (self, lost) {
            (
                Ending::Stop(
                    Stop::File {
                        fault: FileFault::Elf(ElfFault::NoLineSection(_)),
                        ..
                    },
                ),
                Some(text),
            ) => Ending::NotFound { text },
            (ending, _) => ending,
        }
    }
}

impl<'a> Ending<'a> {
    /// The same; of the archive at this path, which is no ELF file, that its members aren't gone through.
    pub fn of_archive(self, path: &'a str) -> Ending<'a> {
        match self {
            Ending::Stop(
                Stop::File {
                    fault: FileFault::Elf(ElfFault::NotElf),
                    ..
                },
            ) => Ending::Archive { path },
            ending => ending,
        }
    }
}

/// Says why the program ended, and answers its status.
pub fn report(rt: &HostRuntime, ending: Ending<'_>) -> u8 {
    match ending {
        Ending::Words(error) => {
            let _ = error.print(rt);
            word_status(&error)
        }
        Ending::NotText => {
            let _ = writeln!(rt.stderr(), "dwline: a word isn't UTF-8");
            2
        }
        Ending::NotWritten { path, error } => {
            let _ = writeln!(
                rt.stderr(),
                "dwline: {}: cannot write: {error}",
                Shown(path)
            );
            3
        }
        Ending::NoIndex { path, fault } => {
            let _ = writeln!(rt.stderr(), "dwline: {}: {fault}", Shown(path));
            1
        }
        Ending::Archive { path } => {
            let shown = Shown(path);
            let _ = writeln!(
                rt.stderr(),
                "dwline: {shown}: an archive; its members are named {shown}(MEMBER)"
            );
            1
        }
        Ending::Member { path, fault } => {
            let _ = writeln!(rt.stderr(), "dwline: {}: {fault}", Shown(path));
            fault.status()
        }
        Ending::NotFound { text } => {
            let _ = writeln!(rt.stderr(), "dwline: {text}");
            1
        }
        Ending::Stop(stop) => {
            let _ = stop.write_line(&mut rt.stderr());
            stop.status()
        }
    }
}

/// Says why the program ended with the file at this path, and answers the status.
pub fn report_of(rt: &HostRuntime, path: &str, ending: Ending<'_>) -> u8 {
    match ending {
        Ending::Stop(stop) if !names_file(&stop) => {
            let _ = writeln!(rt.stderr(), "dwline: {}: {stop}", Shown(path));
            stop.status()
        }
        ending => report(rt, ending),
    }
}

/// Whether the line of a stop names the file.
fn names_file(stop: &Stop<'_>) -> bool {
    matches!(
        stop,
        Stop::File { .. } | Stop::Index { .. } | Stop::OtherFile { .. } | Stop::NoSection { .. }
    )
}

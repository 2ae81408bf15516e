//! What is told of an object file whose code is in several sections.

use dl_cmd::Job;
use dl_file::find_code;
use dl_memory::System;
use dl_open::{FileSource, Shown};
use dl_system::SystemFiles;
use std::io::Write;

/// Whether a job looks up addresses or lines in no section that is named.
fn names_no_section(job: &Job<'_>) -> bool {
    match job {
        Job::Find { section, .. } => section.is_none(),
        Job::Addr(words) => words.section.is_none(),
        Job::Index(words) => words.section.is_none() && !words.list,
        Job::Lines(words) => words.section.is_none(),
        Job::Dump(_) | Job::Check { .. } | Job::Copy { .. } | Job::Sources(_) | Job::Lint(_) =>
            false,
    }
}

/// Says of the object file at this path that addresses are looked up in one of its sections with code, where there are more and
/// the job names none.
pub fn tell_sections(rt: &HostRuntime, job: &Job<'_>, path: &str) {
    if !names_no_section(job) {
        return;
    }
    let Ok(file) = (SystemFiles { rt }).open(path) else {
        return;
    };
    let Ok(code) = find_code(&System::new(rt.alloc()), &file) else {
        return;
    };
    if !code.is_linked && 1 < code.ranges.len() {
        let _ = writeln!(
            rt.stderr(),
            "{}: {} sections have code; without --section addresses are those of .text, or else of the first",
            Shown(path),
            code.ranges.len()
        );
    }
}

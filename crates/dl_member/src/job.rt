//! What is done with the file of a member.
ghost use Rattle.std.specs.Prelude.{◌≡◌, option_map};
ghost use Rattle.dl_cmd.specs.Job.{request_made};
ghost use Rattle.dl_member.specs.Walking.{over};

use dl_cmd::{DumpWords, Job};

/// The same job of the file at this path; None where the job isn't `dump` or `check`, of a file.
pub fn job_over<'a>(job: &Job<'a>, path: &'a str) -> Option<Job<'a>>
    ensures { option_map request_made result ≡ over (request_made job.now) path.now }
{
    match job {
        Job::Dump(words) => Some(Job::Dump(DumpWords {
            file: Some(path),
            big: false,
            line_str: None,
            strings: None,
            ..*words
        })),
        Job::Check {
            units,
            keep_going,
            ..
        } => Some(Job::Check {
            file: Some(path),
            big: false,
            units: *units,
            keep_going: *keep_going,
        }),
        Job::Find { .. }
        | Job::Copy { .. }
        | Job::Addr(_)
        | Job::Index(_)
        | Job::Lines(_)
        | Job::Sources(_)
        | Job::Lint(_) => None,
    }
}

//! The texts and the statuses of faults that a section on standard input doesn't come to.

use arrayvec::ArrayString;
use dl_emit::EmitFault;
use dl_sections::RunFault;
use std::fmt::Write;
use std::process::Abort;
use std::test::Fail;

const FAULTS: &[(RunFault, &str, u8)] = &[
    (RunFault::NoMemory, "out of memory", 3),
    (RunFault::Read, "cannot read the input", 3),
    (RunFault::SectionTooLong, "section too long", 1),
    (RunFault::TwoSums, "two MD5 sums of one path", 1),
    (RunFault::NoUnit, "no unit at this offset", 1),
    (
        RunFault::Emit {
            unit: 11,
            fault: EmitFault::TooLong,
        },
        "cannot write unit 0xb: unit too long",
        1,
    ),
];

/// Asserts the text of a fault, and its status.
fn assert_fault(rt: &impl Abort, fault: RunFault, want: &str, status: u8) -> Result<(), Fail> {
    let mut text = ArrayString::<64>::new();
    write!(text, "{fault}")?;
    assert!(rt; text.as_str() == want && fault.status() == status, "{want}");
    Ok(())
}

#[test]
fn run_faults(rt: HostRuntime) -> Result<(), Fail> {
    for (fault, want, status) in FAULTS {
        assert_fault(&rt, *fault, want, *status)?;
    }
    Ok(())
}

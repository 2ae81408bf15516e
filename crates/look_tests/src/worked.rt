//! Worked rows with the answers that they must have.
use crate::rows::{answers, place};
use dl_look::Index;
use dl_rows::Row;
use std::alloc::{AllocError, Global};
use std::test::Fail;
use test_support::{end, row};

/// The address, op_index and line of a row, and whether it ends its sequence.
type Step = (u64, u8, u64, bool);

const LAST: u64 = u64::MAX;

/// Rows, how many probes a look-up takes at most, and places with the line that answers.
struct Case {
    name: &'static str,
    steps: &'static [Step],
    most: u128,
    lines: &'static [(u64, u8, Option<u64>)],
}

const CASES: &[Case] = &[
    Case {
        name: "no rows",
        steps: &[],
        most: 1,
        lines: &[(0, 0, None), (LAST, 255, None)],
    },
    Case {
        name: "a rising sequence with two rows in one place, one that falls, and rows without an end",
        steps: &[
            (0x10, 0, 5, false),
            (0x10, 0, 6, false),
            (0x14, 0, 7, false),
            (0x18, 0, 7, true),
            (0x30, 0, 1, false),
            (0x20, 0, 2, false),
            (0x40, 0, 2, true),
            (0x50, 0, 1, false),
            (0x60, 0, 1, false),
        ],
        most: 7,
        lines: &[
            (0x10, 0, Some(6)),
            (0x13, 0, Some(6)),
            (0x17, 0, Some(7)),
            (0x0f, 0, None),
            (0x18, 0, None),
            (0x25, 0, None),
            (0x35, 0, None),
            (0x55, 0, None),
        ],
    },
    Case {
        name: "sequences of every kind",
        steps: &[
            // Above those after it.
            (0x200, 0, 1, false),
            (0x210, 0, 1, true),
            (0x100, 0, 2, false),
            (0x108, 0, 3, false),
            (0x120, 0, 3, true),
            // Over the end of the one before it.
            (0x110, 0, 4, false),
            (0x130, 0, 4, true),
            // Falls once, over the one after it.
            (0x300, 0, 5, false),
            (0x2ff, 255, 6, false),
            (0x305, 0, 6, false),
            (0x310, 0, 6, true),
            (0x2f0, 0, 7, false),
            (0x308, 0, 7, true),
            // Its end row is below the row before it.
            (0x320, 0, 8, false),
            (0x340, 0, 8, false),
            (0x330, 0, 8, true),
            // Ends where it starts.
            (0x350, 0, 9, false),
            (0x350, 0, 9, true),
            // An end row alone.
            (0x360, 0, 10, true),
            // Within one instruction, and falling within one.
            (0x400, 1, 11, false),
            (0x400, 3, 12, false),
            (0x400, 5, 12, true),
            (0x500, 2, 13, false),
            (0x500, 1, 13, false),
            (0x510, 0, 13, true),
            // The ends of the addresses.
            (LAST, 0, 14, false),
            (LAST, 255, 14, true),
            (0, 0, 15, false),
            (1, 0, 15, true),
        ],
        most: 12 + 5 + 1,
        lines: &[
            (0x200, 0, Some(1)),
            (0x20f, 255, Some(1)),
            (0x210, 0, None),
            (0xff, 255, None),
            (0x107, 255, Some(2)),
            (0x115, 0, Some(3)),
            (0x120, 0, Some(4)),
            (0x12f, 0, Some(4)),
            (0x130, 0, None),
            (0x300, 0, Some(7)),
            (0x2ff, 255, Some(7)),
            (0x309, 0, None),
            (0x325, 0, None),
            (0x345, 0, None),
            (0x350, 0, None),
            (0x360, 0, None),
            (0x400, 0, None),
            (0x400, 1, Some(11)),
            (0x400, 2, Some(11)),
            (0x400, 4, Some(12)),
            (0x400, 5, None),
            (0x500, 2, None),
            (0x501, 0, None),
            (LAST, 0, Some(14)),
            (LAST, 254, Some(14)),
            (LAST, 255, None),
            (0, 0, Some(15)),
            (0, 255, Some(15)),
            (1, 0, None),
        ],
    },
];

/// The rows of these steps.
fn rows_of(alloc: Global, steps: &[Step]) -> Result<Vec<Row>, AllocError> {
    let mut rows = Vec::new(alloc);
    for (address, op_index, line, is_end) in steps {
        rows.push(if *is_end {
            end(*address, *op_index, *line)
        } else {
            row(*address, *op_index, *line)
        })?;
    }
    Ok(rows)
}

#[test]
fn worked_rows(rt: HostRuntime) -> Result<(), Fail> {
    for case in CASES {
        let rows = rows_of(rt.alloc(), case.steps)?;
        let rows = rows.as_slice();
        let index = Index::build(rt.alloc(), rows).ok().ok_or("memory")?;
        for (address, op_index, line) in case.lines {
            answers(
                &rt,
                &index,
                rows,
                place(*address, *op_index),
                *line,
                case.most,
            );
        }
    }
    Ok(())
}

//! Rows.
use dl_rows::Row;

/// A row of this place and line, all else as at the start of a sequence: file 1, column 0, a statement.
pub fn row(address: u64, op_index: u8, line: u64) -> Row {
    Row {
        address,
        file: 1,
        line,
        column: 0,
        isa: 0,
        discriminator: 0,
        op_index,
        is_stmt: true,
        basic_block: false,
        end_sequence: false,
        prologue_end: false,
        epilogue_begin: false,
    }
}

/// The same as an end row.
pub fn end(address: u64, op_index: u8, line: u64) -> Row {
    Row {
        end_sequence: true,
        ..row(address, op_index, line)
    }
}

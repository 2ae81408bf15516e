//! What the rules find at an operation. Sections 6.2.5.1 to 6.2.5.3.

ghost use Rattle.std.specs.Prelude.{◌≡◌, List, Some, option_to_list};
ghost use Rattle.dl_rows.specs.Items.{an_operation};
ghost use Rattle.dl_sections.specs.Section.{Visit, of_item};
ghost use Rattle.dl_field.specs.HeaderData.{HeaderData};
ghost use Rattle.dl_rows.specs.declared.operation.Operation.{Operation as Made};
ghost use Rattle.dl_operation_rules.specs.Keeping.{Knows};
ghost use Rattle.dl_operation_rules.specs.Operations.{moved_by, seen};
ghost use Rattle.dl_lint.specs.Keeping.{reached_by};
ghost use Rattle.dl_lint.specs.OperationRules.{at_operation, long_number_at, opcode_found, unknown_opcode_at, wrapped_address_at};

use crate::reached::Reached;
use dl_findings::{Finding, Found, Opcode};
use dl_head::Header;
use dl_operation_rules::{Moved, Operations, is_long, is_unknown, wraps};
use dl_rows::Operation;

/// What is found at the operation that comes next.
fn found(at: &Reached, found: Found) -> Finding
    ensures { (visits : List Visit) → at.now ≡ reached_by visits → result ≡ at_operation visits found }
{
    Finding {
        offset: at.begun,
        row: None,
        found,
    }
}

/// `long-number`
#[inline]
pub fn long_number(at: &Reached, operations: &Operations) -> Option<Finding>
    ensures { (visits : List Visit) (h : HeaderData) (o : Made) → at.now ≡ reached_by visits
        → Knows operations.now (seen visits)
        → option_to_list result ≡ long_number_at visits (of_item (an_operation h o)) }
{
    let bytes = operations.longest_number();
    if !is_long(bytes) {
        return None;
    }
    Some(found(at, Found::LongNumber { bytes }))
}

/// `wrapped-address`, at an operation that leads the registers there.
#[inline]
pub fn wrapped_address(
    at: &Reached,
    operations: &Operations,
    header: &Header,
    operation: Operation,
    moved: Moved,
) -> Option<Finding>
    ensures { (visits : List Visit) → at.now ≡ reached_by visits → Knows operations.now (seen visits)
        → moved ≡ moved_by header.now.params operations.now.place operation
        → option_to_list result ≡ wrapped_address_at visits (of_item (an_operation header.now operation)) }
{
    let params = header.params();
    if !wraps(params, operation, moved) {
        return None;
    }
    Some(found(
        at,
        Found::WrappedAddress {
            from: operations.place.address,
            size: u64::from(params.address_size),
        },
    ))
}

/// `unknown-opcode`
#[inline]
pub fn unknown_opcode(
    at: &Reached,
    operations: &Operations,
    header: &Header,
    operation: Operation,
) -> Option<Finding>
    ensures { (visits : List Visit) → at.now ≡ reached_by visits → Knows operations.now (seen visits)
        → option_to_list result ≡ unknown_opcode_at visits (of_item (an_operation header.now operation)) }
{
    match operations.passed_over(operation) {
        Some(opcode) => opcode_found(at, operations, header, opcode),
        None => None,
    }
}

/// What is found of an opcode that is passed over.
fn opcode_found(
    at: &Reached,
    operations: &Operations,
    header: &Header,
    opcode: Opcode,
) -> Option<Finding>
    ensures { (visits : List Visit) → at.now ≡ reached_by visits → Knows operations.now (seen visits)
        → option_to_list result ≡ opcode_found visits header.now.params (Some opcode) }
{
    if !is_unknown(header.params(), operations, opcode) {
        return None;
    }
    Some(found(at, Found::UnknownOpcode { opcode }))
}

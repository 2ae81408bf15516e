//! Bytes that are passed over. Sections 6.2.5.3 and 7.6.

ghost use Rattle.std.specs.Prelude.{◌≡◌, ◌≤◌, length};
ghost use Rattle.dl_object.specs.Kept.{passed_over};

/// The number of an extended opcode that no one has: the first of those that are left to users, DW_LNE_lo_user.
const UNKNOWN_OPCODE: u8 = 0x80;

/// Makes of the bytes one extended opcode that isn't known. Its length, the number 1, is spelled in as many bytes as
/// there are between the first and the last.
pub fn pass_over(bytes: &mut [u8])
    requires { 3 ≤ length bytes.old }
    ensures { bytes.new ≡ passed_over (length bytes.old) }
{
    let len = bytes.len();
    bytes.fill(UNKNOWN_OPCODE);
    bytes[0] = 0;
    bytes[1] = 0x81;
    bytes[len - 2] %= 0x80;
}

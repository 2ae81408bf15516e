//! What the rules find in the lengths of a header. Section 6.2.4.

ghost use Rattle.std.specs.Prelude.{◌≡◌, List, option_to_list};
ghost use Rattle.dl_field.specs.HeaderData.{HeaderData};
ghost use Rattle.dl_sections.specs.Section.{Visit, of_header};
ghost use Rattle.dl_lint.specs.HeaderRules.{padding_at};

use dl_findings::{Finding, Found};
use dl_head::HeaderLengths;

/// `padding`, in the header of the unit at this offset
pub fn padding(unit: u64, lengths: &HeaderLengths) -> Option<Finding>
    ensures { (visits : List Visit) (h : HeaderData) → option_to_list result ≡ padding_at visits (of_header unit lengths.now h) }
{
    if lengths.padding == 0 {
        return None;
    }
    Some(Finding {
        offset: unit,
        row: None,
        found: Found::Padding {
            bytes: lengths.padding,
        },
    })
}

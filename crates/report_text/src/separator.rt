ghost use Rattle.std.specs.Prelude.{◌≡◌, ◌++◌, OnOk, string_bytes};
ghost use Rattle.report_text.specs.Texts.{separator};

use std::alloc::AllocError;

/// What stands before the text of this number in a list: nothing before the first one.
pub fn push_separator(text: &mut String, at: usize) -> Result<(), AllocError>
    ensures { OnOk result (string_bytes text.new ≡ string_bytes text.old ++ separator at) }
{
    if at == 0 {
        return Ok(());
    }
    text.push_str(", ")
}

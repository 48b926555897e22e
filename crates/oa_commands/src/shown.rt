//! Names as they appear on standard error.
ghost use Rattle.std.specs.Prelude.{◌≡◌, ◌++◌, string_bytes, IfOk, OnOk};
ghost use Rattle.oa_commands.specs.Shown.{shown_character, shown_name as as_shown};

use std::alloc::{AllocError, Global};

/// Returns a file's name with `\u{a}` and the like for its control characters, so that the fault
/// stays one line. Err: an allocation failed.
pub(crate) fn shown_name(alloc: Global, name: &str) -> Result<String, AllocError>
    ensures { IfOk result (λ shown. string_bytes shown ≡ as_shown name.now) }
{
    let mut shown = String::new(alloc);
    for c in name.chars() {
        push_shown(&mut shown, c)?;
    }
    Ok(shown)
}

/// Appends a character, or its escape. Err: an allocation failed.
fn push_shown(shown: &mut String, c: char) -> Result<(), AllocError>
    ensures { OnOk result (string_bytes shown.new ≡ string_bytes shown.old ++ shown_character c) }
{
    if !c.is_control() {
        return shown.push(c);
    }
    for sign in c.escape_unicode() {
        shown.push(sign)?;
    }
    Ok(())
}

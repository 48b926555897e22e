//! The names that the declarations of an interface occupy.
ghost use Rattle.std.specs.Prelude.{◌≡◌, [], true, not, IfOk};
ghost use Rattle.oa_sema.specs.Taken.{is_taken, takes_reading, takes_setting, with_taken};

use crate::declaration::{Declaration, DeclarationKind};
use crate::folding::folded;
use crate::sets::FoldedNames;
use std::alloc::{AllocError, Global};

/// The folded names of declarations: those that a get must not have, and those that a put must not
/// have.
#[derive(Drop)]
pub(crate) struct Taken {
    reading: FoldedNames,
    setting: FoldedNames,
}

/// Returns whether a declaration of this kind occupies its name for reading.
fn takes_reading(kind: DeclarationKind) -> bool
    ensures { result ≡ takes_reading kind }
{
    !matches!(kind, DeclarationKind::Put)
}

/// Returns whether a declaration of this kind occupies its name for setting.
fn takes_setting(kind: DeclarationKind) -> bool
    ensures { result ≡ takes_setting kind }
{
    !matches!(kind, DeclarationKind::Get)
}

impl Taken {
    /// Makes empty sets of names.
    pub(crate) fn new(alloc: Global) -> Taken
        ensures reading { result.reading ≡ [] }
        ensures setting { result.setting ≡ [] }
    {
        Taken {
            reading: FoldedNames::new(alloc),
            setting: FoldedNames::new(alloc),
        }
    }

    /// Adds the name of a declaration. Returns whether it was free: `false` if it is occupied. Err:
    /// an allocation fails.
    pub(crate) fn take(
        &mut self,
        alloc: Global,
        declaration: &Declaration<'_>,
    ) -> Result<bool, AllocError>
        ensures free { IfOk result (λ free. free ≡ not (is_taken self.old.reading self.old.setting declaration.now)) }
        ensures reading { IfOk result (λ free. free ≡ true → self.new.reading ≡ with_taken takes_reading declaration.now self.old.reading) }
        ensures setting { IfOk result (λ free. free ≡ true → self.new.setting ≡ with_taken takes_setting declaration.now self.old.setting) }
    {
        if takes_reading(declaration.kind)
            && !self.reading.insert(folded(alloc, declaration.name)?)?
        {
            return Ok(false);
        }
        if takes_setting(declaration.kind)
            && !self.setting.insert(folded(alloc, declaration.name)?)?
        {
            return Ok(false);
        }
        Ok(true)
    }
}

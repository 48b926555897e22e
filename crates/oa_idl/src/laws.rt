//! Theorems about the definitions alone.
ghost use Rattle.std.specs.Prelude.{◌≡◌, ℕ, List};
ghost use Rattle.oa_idl.specs.promise.Trees.{TreeValue};
ghost use Rattle.oa_idl.specs.promise.IsTree.{IsTree};

/// A text has at most one tree.
pub fn one_tree()
    ensures { (text : List ℕ) (s t : TreeValue) → IsTree text s → IsTree text t → s ≡ t }
{}

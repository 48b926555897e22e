//! Theorems about the definitions alone.
ghost use Rattle.std.specs.Prelude.{ℕ, List};
ghost use Rattle.std.specs.Str.{IsUtf8};
ghost use Rattle.oa_idl.specs.promise.Trees.{TreeValue};
ghost use Rattle.oa_idl.specs.promise.IsTree.{MayBeText, IsTree};
ghost use Rattle.oa_printer.specs.promise.Canonical.{canonical};
ghost use Rattle.oa_printer.specs.promise.Marked.{marked};
ghost use Rattle.oa_printer.specs.Printable.{IsPrintable};

/// Each tree of a text is printable.
pub fn every_tree_is_printable()
    ensures { (text : List ℕ) (t : TreeValue) → IsTree text t → IsPrintable t }
{}

/// The canonical text of a printable tree is parsed as the same tree, unless it is too long for a
/// text.
pub fn canonical_is_read()
    ensures { (t : TreeValue) → IsPrintable t → MayBeText (canonical t) → IsTree (canonical t) t }
{}

/// A printable tree is also printable after one default interface has been marked in each coclass.
pub fn marked_is_printable()
    ensures { (t : TreeValue) → IsPrintable t → IsPrintable (marked t) }
{}

/// The canonical text of a text's tree with marked defaults is parsed as that tree, unless it is
/// too long for a text.
pub fn marked_is_read()
    ensures { (text : List ℕ) (t : TreeValue) → IsTree text t → MayBeText (canonical (marked t))
        → IsTree (canonical (marked t)) (marked t) }
{}

/// The canonical text of a printable tree is valid UTF-8; it is even ASCII.
pub fn canonical_is_utf8()
    ensures { (t : TreeValue) → IsPrintable t → IsUtf8 (canonical t) }
{}

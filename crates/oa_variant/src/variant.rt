//! Variants.
ghost use Rattle.std.specs.Prelude.{◌≡◌, IsOk, IfOk, None};
ghost use Rattle.oa_model.specs.declared.var_type.VarType.{VarType as AType};
ghost use Rattle.oa_model.specs.declared.var_type.ValueType.TheVariants as kinds;
ghost use Rattle.oa_variant.specs.promise.Scalars.{text_of};
ghost use Rattle.oa_variant.specs.promise.Variants.{value_type_of, fits_declared, unlocked, zero_value};
ghost use Rattle.oa_variant.specs.Variants.{HasZero};
ghost use Rattle.oa_variant.specs.declared.variant.Variant.TheVariants.{One};

use crate::Scalar;
use oa_array::{Cell, SafeArray};
use oa_model::{Bound, ValueType, VarType};
use std::alloc::{AllocError, Global};

/// A value with its type (VARIANT, MS-OAUT section 2.2.29): a scalar, or an array of scalars. Two
/// are equal if their types and contents are; the locks of an array are not compared.
#[derive(Debug, PartialEq, Eq, Drop)]
pub enum Variant {
    /// A value that is not an array.
    One(Scalar),
    /// An array. Its elements are of its type, or of any scalar type if that is VARIANT.
    Array(SafeArray<Scalar>),
}

impl Variant {
    /// Returns the type of the value.
    pub fn value_type(&self) -> ValueType
        ensures { result ≡ value_type_of self.now }
    {
        match self {
            Variant::One(scalar) => ValueType::One(scalar.var_type()),
            Variant::Array(array) => ValueType::Array(array.elem()),
        }
    }

    /// Returns whether the value can be that of a property of the declared type: it is of that
    /// type, or the type is VARIANT, which allows arrays too.
    pub fn fits(&self, declared: ValueType) -> bool
        ensures { result ≡ fits_declared self.now declared }
    {
        match (self, declared) {
            (Variant::One(scalar), ValueType::One(one)) => scalar.fits(one),
            (Variant::One(_), ValueType::Array(_)) => false,
            (Variant::Array(_), ValueType::One(one)) => one == VarType::Variant,
            (Variant::Array(array), ValueType::Array(elem)) => array.elem() == elem,
        }
    }

    /// Returns an equal value in memory of its own. The copy of an array has no locks. Err: an
    /// allocation fails; the copy of a scalar without text never fails.
    pub fn copy(&self, alloc: Global) -> Result<Variant, AllocError>
        ensures value { IfOk result (λ v. v ≡ unlocked self.now) }
        ensures no_text { (s : _) → self.now ≡ One s → text_of s ≡ None → IsOk result }
    {
        match self {
            Variant::One(scalar) => Ok(Variant::One(scalar.copy(alloc)?)),
            Variant::Array(array) => Ok(Variant::Array(array.copy(alloc)?)),
        }
    }

    /// Returns the same value, without the locks of an array.
    pub fn into_unlocked(self) -> Variant
        ensures { result ≡ unlocked self }
    {
        match self {
            Variant::One(scalar) => Variant::One(scalar),
            Variant::Array(array) => Variant::Array(array.into_unlocked()),
        }
    }

    /// Returns the zero value of a declared type, which a cell has before its first put (this
    /// project's choice). For a scalar type it is the zero value of that type. For an array type,
    /// which must have an sfType, it is the array of one dimension without indices. Err: an
    /// allocation fails; the zero value of a scalar type needs none.
    pub fn zero(alloc: Global, declared: ValueType) -> Result<Variant, AllocError>
        requires { HasZero declared }
        ensures value { IfOk result (λ v. v ≡ zero_value declared) }
        ensures no_memory { (t : AType) → declared ≡ kinds.One t → IsOk result }
    {
        match declared {
            ValueType::One(one) => Ok(Variant::One(Scalar::zero(one))),
            ValueType::Array(elem) => {
                let none = Bound { count: 0, lower: 0 };
                match SafeArray::create(alloc, elem, &[none]) {
                    Ok(array) => Ok(Variant::Array(array)),
                    Err(_) => Err(AllocError),
                }
            }
        }
    }
}

//! Prints the canonical text of a tree.
ghost use Rattle.std.specs.Prelude.{◌≡◌, ◌++◌, ℕ, List, codes, IfOk};
ghost use Rattle.std.specs.List.{flat_map};
ghost use Rattle.std.specs.Fmt.{decimal, signed_decimal};
ghost use Rattle.oa_printer.specs.promise.Canonical.{type_text, value_type_text, result_text, named_text};
ghost use Rattle.oa_printer.specs.promise.Canonical.{character_text, literal_text, mark_text, default_text};
ghost use Rattle.oa_printer.specs.promise.Canonical.{parameter_marks, parameter_text, further_text, parameters_text};
ghost use Rattle.oa_printer.specs.promise.Canonical.{id_text, readonly_text, property_text, kind_text, list_text};
ghost use Rattle.oa_printer.specs.promise.Canonical.{method_text, entry_word_text, entry_text, digits_text, guid_text};
ghost use Rattle.oa_printer.specs.promise.Canonical.{interface_line, properties_line, title_text, properties_text};
ghost use Rattle.oa_printer.specs.promise.Canonical.{methods_text, interface_text, coclass_text, item_text};
ghost use Rattle.oa_printer.specs.promise.Canonical.{version_text, canonical};

use oa_idl::{
    Coclass, Entry, Interface, Item, Literal, Method, MethodKind, Name, Parameter, Property, Tree,
    Version,
};
use oa_model::{ValueType, VarType};
use std::alloc::{AllocError, Global};
use uuid::Uuid;

/// Appends bytes. Err: an allocation fails.
fn put(out: &mut Vec<u8>, bytes: &[u8]) -> Result<(), AllocError>
    ensures { IfOk result (λ _. out.new.items ≡ out.old.items ++ bytes.now) }
{
    out.extend_from_slice(bytes)?;
    Ok(())
}

/// A part of a tree that occurs in lists.
trait Listed {
    ghost text: { Self → List ℕ };

    /// Appends the text of the part to `out`. Err: an allocation fails.
    fn put(&self, alloc: Global, out: &mut Vec<u8>) -> Result<(), AllocError>
        ensures { IfOk result (λ _. out.new.items ≡ out.old.items ++ text self.now) };
}

/// Appends the texts of a list. Err: an allocation fails.
fn put_all<T: Listed>(alloc: Global, out: &mut Vec<u8>, all: &[T]) -> Result<(), AllocError>
    ensures { IfOk result (λ _. out.new.items ≡ out.old.items ++ flat_map T.text all.now) }
{
    'texts: for one in all {
        one.put(alloc, out)?;
    }
    Ok(())
}

/// Returns the IDL name of a scalar type.
#[tactic(auto, unfolding(crate::specs::promise::Canonical::type_text))]
fn type_word(value_type: VarType) -> &'static [u8]
    ensures { result.now ≡ type_text value_type }
{
    match value_type {
        VarType::Empty | VarType::Null => b"",
        VarType::I1 => b"char",
        VarType::Ui1 => b"unsigned char",
        VarType::I2 => b"short",
        VarType::Ui2 => b"unsigned short",
        VarType::I4 => b"long",
        VarType::Ui4 => b"unsigned long",
        VarType::Int => b"int",
        VarType::Uint => b"unsigned int",
        VarType::I8 => b"hyper",
        VarType::Ui8 => b"unsigned hyper",
        VarType::Cy => b"CURRENCY",
        VarType::Bool => b"VARIANT_BOOL",
        VarType::Error => b"SCODE",
        VarType::Decimal => b"DECIMAL",
        VarType::Bstr => b"BSTR",
        VarType::Variant => b"VARIANT",
    }
}

/// Appends a type. Err: an allocation fails.
#[tactic(auto, unfolding(crate::specs::promise::Canonical::value_type_text))]
fn put_type(out: &mut Vec<u8>, value_type: ValueType) -> Result<(), AllocError>
    ensures { IfOk result (λ _. out.new.items ≡ out.old.items ++ value_type_text value_type) }
{
    match value_type {
        ValueType::One(one) => put(out, type_word(one)),
        ValueType::Array(cell) => {
            put(out, b"SAFEARRAY(")?;
            put(out, type_word(cell))?;
            put(out, b")")
        }
    }
}

/// Appends the type of a result, or `void`. Err: an allocation fails.
#[tactic(auto, unfolding(crate::specs::promise::Canonical::result_text))]
fn put_result(out: &mut Vec<u8>, value_type: Option<ValueType>) -> Result<(), AllocError>
    ensures { IfOk result (λ _. out.new.items ≡ out.old.items ++ result_text value_type) }
{
    match value_type {
        None => put(out, b"void"),
        Some(found) => put_type(out, found),
    }
}

/// Appends a part of a version. Err: an allocation fails.
fn put_unsigned(alloc: Global, out: &mut Vec<u8>, number: u16) -> Result<(), AllocError>
    ensures { IfOk result (λ _. out.new.items ≡ out.old.items ++ decimal number) }
{
    let text = format!(in alloc; "{number}")?;
    put(out, text.as_bytes())
}

/// Appends the number of an `id`. Err: an allocation fails.
fn put_id_number(alloc: Global, out: &mut Vec<u8>, number: i32) -> Result<(), AllocError>
    ensures { IfOk result (λ _. out.new.items ≡ out.old.items ++ signed_decimal number) }
{
    let text = format!(in alloc; "{number}")?;
    put(out, text.as_bytes())
}

/// Appends the number of a default. Err: an allocation fails.
fn put_amount(alloc: Global, out: &mut Vec<u8>, number: i128) -> Result<(), AllocError>
    ensures { IfOk result (λ _. out.new.items ≡ out.old.items ++ signed_decimal number) }
{
    let text = format!(in alloc; "{number}")?;
    put(out, text.as_bytes())
}

/// The text of one character of a string, with a backslash before a quote or a backslash.
impl Listed for u8 {
    ghost text = { character_text };

    #[tactic(auto, unfolding(crate::specs::promise::Canonical::character_text))]
    fn put(&self, _alloc: Global, out: &mut Vec<u8>) -> Result<(), AllocError> {
        if *self == b'"' || *self == b'\\' {
            out.push(b'\\')?;
        }
        out.push(*self)?;
        Ok(())
    }
}

/// Appends a default. Err: an allocation fails.
#[tactic(auto, unfolding(crate::specs::promise::Canonical::literal_text))]
fn put_literal(alloc: Global, out: &mut Vec<u8>, value: &Literal) -> Result<(), AllocError>
    ensures { IfOk result (λ _. out.new.items ≡ out.old.items ++ literal_text value.now) }
{
    match value {
        Literal::Number(number) => put_amount(alloc, out, *number),
        Literal::Text(text) => {
            put(out, b"\"")?;
            put_all(alloc, out, text.as_bytes())?;
            put(out, b"\"")
        }
        Literal::Bool(true) => put(out, b"TRUE"),
        Literal::Bool(false) => put(out, b"FALSE"),
    }
}

/// Appends an attribute if it is `there`, after a comma if `before` is true, otherwise after the
/// opening bracket. Err: an allocation fails.
#[tactic(auto, unfolding(crate::specs::promise::Canonical::mark_text))]
fn put_mark(out: &mut Vec<u8>, before: bool, there: bool, text: &[u8]) -> Result<(), AllocError>
    ensures { IfOk result (λ _. out.new.items ≡ out.old.items ++ mark_text before there text.now) }
{
    if !there {
        return Ok(());
    }
    put(out, if before { b", " } else { b"[" })?;
    put(out, text)
}

/// Appends a `defaultvalue` attribute, if there is one. Err: an allocation fails.
#[tactic(auto, unfolding(crate::specs::promise::Canonical::default_text))]
fn put_default(
    alloc: Global,
    out: &mut Vec<u8>,
    before: bool,
    default: &Option<Literal>,
) -> Result<(), AllocError>
    ensures { IfOk result (λ _. out.new.items ≡ out.old.items ++ default_text before default.now) }
{
    let Some(value) = default else {
        return Ok(());
    };
    put_mark(out, before, true, b"defaultvalue(")?;
    put_literal(alloc, out, value)?;
    put(out, b")")
}

/// Appends the attributes of a parameter, if it has any. Err: an allocation fails.
#[tactic(auto, unfolding(crate::specs::promise::Canonical::parameter_marks))]
fn put_marks(alloc: Global, out: &mut Vec<u8>, p: &Parameter) -> Result<(), AllocError>
    ensures { IfOk result (λ _. out.new.items ≡ out.old.items ++ parameter_marks p.now) }
{
    put_mark(out, false, p.is_in, b"in")?;
    put_mark(out, p.is_in, p.is_optional, b"optional")?;
    put_default(alloc, out, p.is_in || p.is_optional, &p.default)?;
    if p.is_in || p.is_optional || p.default.is_some() {
        put(out, b"] ")?;
    }
    Ok(())
}

/// Appends a space and a name. Err: an allocation fails.
fn put_name(out: &mut Vec<u8>, name: &Name) -> Result<(), AllocError>
    ensures { IfOk result (λ _. out.new.items ≡ out.old.items ++ codes " " ++ name.now) }
{
    put(out, b" ")?;
    put(out, name.as_bytes())
}

/// Appends a parameter. Err: an allocation fails.
#[tactic(auto, unfolding(crate::specs::promise::Canonical::parameter_text, crate::specs::promise::Canonical::named_text))]
fn put_parameter(alloc: Global, out: &mut Vec<u8>, p: &Parameter) -> Result<(), AllocError>
    ensures { IfOk result (λ _. out.new.items ≡ out.old.items ++ parameter_text p.now) }
{
    put_marks(alloc, out, p)?;
    put_type(out, p.value_type)?;
    put_name(out, &p.name)
}

/// The text of a parameter that is not the first.
impl Listed for Parameter {
    ghost text = { further_text };

    #[tactic(auto, unfolding(crate::specs::promise::Canonical::further_text))]
    fn put(&self, alloc: Global, out: &mut Vec<u8>) -> Result<(), AllocError> {
        put(out, b", ")?;
        put_parameter(alloc, out, self)
    }
}

/// Appends parameters, separated by commas. Err: an allocation fails.
#[tactic(auto, unfolding(crate::specs::promise::Canonical::parameters_text))]
fn put_parameters(alloc: Global, out: &mut Vec<u8>, all: &[Parameter]) -> Result<(), AllocError>
    ensures { IfOk result (λ _. out.new.items ≡ out.old.items ++ parameters_text all.now) }
{
    let Some((first, rest)) = all.split_first() else {
        return Ok(());
    };
    put_parameter(alloc, out, first)?;
    put_all(alloc, out, rest)
}

/// Appends an `id` attribute and the end of the list of attributes. Err: an allocation fails.
#[tactic(auto, unfolding(crate::specs::promise::Canonical::id_text))]
fn put_id(alloc: Global, out: &mut Vec<u8>, id: i32, end: &[u8]) -> Result<(), AllocError>
    ensures { IfOk result (λ _. out.new.items ≡ out.old.items ++ id_text id end.now) }
{
    put(out, b"[id(")?;
    put_id_number(alloc, out, id)?;
    put(out, end)
}

/// Returns the end of a property's attributes.
fn readonly_mark(readonly: bool) -> &'static [u8]
    ensures { result.now ≡ readonly_text readonly }
{
    if readonly { b"), readonly] " } else { b")] " }
}

impl Listed for Property {
    ghost text = { property_text };

    #[tactic(auto, unfolding(crate::specs::promise::Canonical::property_text, crate::specs::promise::Canonical::named_text))]
    fn put(&self, alloc: Global, out: &mut Vec<u8>) -> Result<(), AllocError> {
        put_id(alloc, out, self.id, readonly_mark(self.readonly))?;
        put_type(out, self.value_type)?;
        put_name(out, &self.name)?;
        put(out, b";\n")
    }
}

/// Returns the end of a method's attributes.
fn kind_mark(kind: MethodKind) -> &'static [u8]
    ensures { result.now ≡ kind_text kind }
{
    match kind {
        MethodKind::Method => b")] ",
        MethodKind::Get => b"), propget] ",
        MethodKind::Put => b"), propput] ",
    }
}

/// Appends parameters in parentheses. Err: an allocation fails.
#[tactic(auto, unfolding(crate::specs::promise::Canonical::list_text))]
fn put_list(alloc: Global, out: &mut Vec<u8>, all: &[Parameter]) -> Result<(), AllocError>
    ensures { IfOk result (λ _. out.new.items ≡ out.old.items ++ list_text all.now) }
{
    put(out, b"(")?;
    put_parameters(alloc, out, all)?;
    put(out, b");\n")
}

impl Listed for Method {
    ghost text = { method_text };

    #[tactic(auto, unfolding(crate::specs::promise::Canonical::method_text, crate::specs::promise::Canonical::named_text))]
    fn put(&self, alloc: Global, out: &mut Vec<u8>) -> Result<(), AllocError> {
        put_id(alloc, out, self.id, kind_mark(self.kind))?;
        put_result(out, self.value_type)?;
        put_name(out, &self.name)?;
        put_list(alloc, out, self.parameters.as_slice())
    }
}

/// Returns the start of an entry's line.
fn entry_word(is_default: bool) -> &'static [u8]
    ensures { result.now ≡ entry_word_text is_default }
{
    if is_default {
        b"[default] dispinterface "
    } else {
        b"dispinterface "
    }
}

impl Listed for Entry {
    ghost text = { entry_text };

    #[tactic(auto, unfolding(crate::specs::promise::Canonical::entry_text))]
    fn put(&self, _alloc: Global, out: &mut Vec<u8>) -> Result<(), AllocError> {
        put(out, entry_word(self.is_default))?;
        put(out, self.interface.as_bytes())?;
        put(out, b";\n")
    }
}

/// Appends the digits of a GUID. Err: an allocation fails.
#[tactic(auto, unfolding(crate::specs::promise::Canonical::digits_text))]
fn put_digits(alloc: Global, out: &mut Vec<u8>, guid: Uuid) -> Result<(), AllocError>
    ensures { IfOk result (λ _. out.new.items ≡ out.old.items ++ digits_text guid) }
{
    let text = format!(in alloc; "{guid}")?;
    put(out, text.as_bytes())
}

/// Appends a `uuid` attribute and its opening bracket. Err: an allocation fails.
#[tactic(auto, unfolding(crate::specs::promise::Canonical::guid_text))]
fn put_guid(alloc: Global, out: &mut Vec<u8>, guid: Uuid) -> Result<(), AllocError>
    ensures { IfOk result (λ _. out.new.items ≡ out.old.items ++ guid_text guid) }
{
    put(out, b"[uuid(")?;
    put_digits(alloc, out, guid)?;
    put(out, b")")
}

/// Returns the text between the GUID and the name of an interface.
#[tactic(auto, unfolding(crate::specs::promise::Canonical::interface_line))]
fn interface_line() -> &'static [u8]
    ensures { result.now ≡ interface_line }
{
    b"]\ndispinterface "
}

/// Returns the line of the section `properties:`.
#[tactic(auto, unfolding(crate::specs::promise::Canonical::properties_line))]
fn properties_line() -> &'static [u8]
    ensures { result.now ≡ properties_line }
{
    b"properties:\n"
}

/// Appends the section `properties:`. Err: an allocation fails.
#[tactic(auto, unfolding(crate::specs::promise::Canonical::properties_text))]
fn put_first_section(alloc: Global, out: &mut Vec<u8>, all: &[Property]) -> Result<(), AllocError>
    ensures { IfOk result (λ _. out.new.items ≡ out.old.items ++ properties_text all.now) }
{
    put(out, properties_line())?;
    put_all(alloc, out, all)
}

/// Appends the section `methods:` and the closing brace. Err: an allocation fails.
#[tactic(auto, unfolding(crate::specs::promise::Canonical::methods_text))]
fn put_second_section(alloc: Global, out: &mut Vec<u8>, all: &[Method]) -> Result<(), AllocError>
    ensures { IfOk result (λ _. out.new.items ≡ out.old.items ++ methods_text all.now) }
{
    put(out, b"methods:\n")?;
    put_all(alloc, out, all)?;
    put(out, b"}\n")
}

/// Appends the first lines of an item, up to its opening brace. Err: an allocation fails.
#[tactic(auto, unfolding(crate::specs::promise::Canonical::title_text))]
fn put_title(
    alloc: Global,
    out: &mut Vec<u8>,
    guid: Uuid,
    word: &[u8],
    name: &Name,
) -> Result<(), AllocError>
    ensures { IfOk result (λ _. out.new.items ≡ out.old.items ++ title_text guid word.now name.now) }
{
    put_guid(alloc, out, guid)?;
    put(out, word)?;
    put(out, name.as_bytes())?;
    put(out, b" {\n")
}

/// Appends an interface. Err: an allocation fails.
#[tactic(auto, unfolding(crate::specs::promise::Canonical::interface_text))]
fn put_interface(alloc: Global, out: &mut Vec<u8>, d: &Interface) -> Result<(), AllocError>
    ensures { IfOk result (λ _. out.new.items ≡ out.old.items ++ interface_text d.now) }
{
    put_title(alloc, out, d.guid, interface_line(), &d.name)?;
    put_first_section(alloc, out, d.properties.as_slice())?;
    put_second_section(alloc, out, d.methods.as_slice())
}

/// Appends a coclass. Err: an allocation fails.
#[tactic(auto, unfolding(crate::specs::promise::Canonical::coclass_text))]
fn put_coclass(alloc: Global, out: &mut Vec<u8>, c: &Coclass) -> Result<(), AllocError>
    ensures { IfOk result (λ _. out.new.items ≡ out.old.items ++ coclass_text c.now) }
{
    put_title(alloc, out, c.guid, b"]\ncoclass ", &c.name)?;
    put_all(alloc, out, c.entries.as_slice())?;
    put(out, b"}\n")
}

impl Listed for Item {
    ghost text = { item_text };

    #[tactic(auto, unfolding(crate::specs::promise::Canonical::item_text))]
    fn put(&self, alloc: Global, out: &mut Vec<u8>) -> Result<(), AllocError> {
        match self {
            Item::Interface(interface) => put_interface(alloc, out, interface),
            Item::Coclass(class) => put_coclass(alloc, out, class),
        }
    }
}

/// Appends the `version` attribute and the keyword of a library. Err: an allocation fails.
#[tactic(auto, unfolding(crate::specs::promise::Canonical::version_text))]
fn put_version(alloc: Global, out: &mut Vec<u8>, version: Version) -> Result<(), AllocError>
    ensures { IfOk result (λ _. out.new.items ≡ out.old.items ++ version_text version) }
{
    put(out, b", version(")?;
    put_unsigned(alloc, out, version.major)?;
    put(out, b".")?;
    put_unsigned(alloc, out, version.minor)?;
    put(out, b")]\nlibrary ")
}

/// Appends a whole tree. Err: an allocation fails.
#[tactic(auto, unfolding(crate::specs::promise::Canonical::canonical, crate::specs::promise::Canonical::title_text))]
fn put_tree(alloc: Global, out: &mut Vec<u8>, tree: &Tree) -> Result<(), AllocError>
    ensures { IfOk result (λ _. out.new.items ≡ out.old.items ++ canonical tree.now) }
{
    put_guid(alloc, out, tree.guid)?;
    put_version(alloc, out, tree.version)?;
    put(out, tree.name.as_bytes())?;
    put(out, b" {\n")?;
    put_all(alloc, out, tree.items.as_slice())?;
    put(out, b"}\n")
}

/// Returns the canonical text of a tree, which is one of the texts with this tree
/// (docs/reference/idl.md): a line for each member, the attributes in a fixed order, GUIDs in lower
/// case and numbers in decimal. Err: an allocation fails.
pub fn print(alloc: Global, tree: &Tree) -> Result<Vec<u8>, AllocError>
    ensures { IfOk result (λ text. text.items ≡ canonical tree.now) }
{
    let mut out = Vec::new(alloc);
    put_tree(alloc, &mut out, tree)?;
    Ok(out)
}

//! A description as the fields of a reply.
ghost use Rattle.std.specs.Prelude.{◌≡◌, ◌<◌, ◌≤◌, ◌++◌, length, IfOk, OnErr, OnOk, option_copied};
ghost use Rattle.std.specs.List.{flat_map};
ghost use Rattle.oa_record.specs.Replies.{max_fields_bytes};
ghost use Rattle.oa_record.specs.promise.Replies.{string_field};
ghost use Rattle.oa_typelib.specs.Contents.{content_of};
ghost use Rattle.oa_decision.specs.promise.DescriptionFields.{content_head, default_field, description_field};
ghost use Rattle.oa_decision.specs.promise.DescriptionFields.{description_head, entry_field, entry_fields, flag};
ghost use Rattle.oa_decision.specs.promise.DescriptionFields.{invoke_kind, member_field, member_flags, member_head};
ghost use Rattle.oa_decision.specs.promise.DescriptionFields.{parameter_field, parameter_flags, parameter_head_bytes};
ghost use Rattle.oa_decision.specs.promise.DescriptionFields.{type_number};

use oa_idl::Name;
use oa_model::{
    COCLASS_KIND, DEFAULT_FLAG, HAS_DEFAULT_FLAG, IN_FLAG, INTERFACE_KIND, INVOKE_GET,
    INVOKE_METHOD, INVOKE_PUT, OPTIONAL_FLAG, READONLY_FLAG, VT_VOID, ValueType, guid_to_wire,
};
use oa_record::{MAX_FIELDS_BYTES, scalar_field, string_field};
use oa_sema::DeclarationKind;
use oa_typelib::{Content, DescribedEntry, DescribedMember, DescribedParameter, Description};
use oa_variant::Scalar;
use std::alloc::{AllocError, Global};

/// Returns the number of a type; VT_VOID for none.
fn type_number(value_type: Option<ValueType>) -> u16
    ensures { result ≡ type_number value_type }
{
    match value_type {
        Some(value_type) => value_type.vt(),
        None => VT_VOID,
    }
}

/// Returns the INVOKEKIND of a member; 0 for one of `properties:`.
fn invoke_kind(kind: DeclarationKind) -> u16
    ensures { result ≡ invoke_kind kind }
{
    match kind {
        DeclarationKind::Property | DeclarationKind::ReadonlyProperty => 0,
        DeclarationKind::Method => INVOKE_METHOD,
        DeclarationKind::Get => INVOKE_GET,
        DeclarationKind::Put => INVOKE_PUT,
    }
}

/// Returns VARFLAG_FREADONLY, or no flag.
fn member_flags(kind: DeclarationKind) -> u16
    ensures { result ≡ member_flags kind }
{
    match kind {
        DeclarationKind::ReadonlyProperty => READONLY_FLAG,
        DeclarationKind::Property
        | DeclarationKind::Method
        | DeclarationKind::Get
        | DeclarationKind::Put => 0,
    }
}

/// Returns the flag `n` if it is set, otherwise 0.
fn flag(is_set: bool, n: u16) -> u16
    ensures { result ≡ flag is_set n }
{
    if is_set { n } else { 0 }
}

/// Returns the flags PARAMFLAG_FIN, PARAMFLAG_FOPT and PARAMFLAG_FHASDEFAULT of a parameter.
fn parameter_flags(parameter: &DescribedParameter<'_>) -> u16
    ensures { result ≡ parameter_flags parameter.now }
{
    let of_in = flag(parameter.is_in, IN_FLAG);
    let of_optional = flag(parameter.is_optional, OPTIONAL_FLAG);
    let of_default = flag(parameter.default.is_some(), HAS_DEFAULT_FLAG);
    of_in + of_optional + of_default
}

/// Returns the first 8 bytes of a parameter: type, flags, a reserved number.
#[tactic(auto, unfolding(oa_record::specs::promise::Replies::word, oa_record::specs::promise::Replies::half_word, crate::specs::promise::DescriptionFields::parameter_head_bytes))]
fn parameter_head(parameter: &DescribedParameter<'_>) -> [u8; 8]
    ensures { result ≡ parameter_head_bytes parameter.now }
{
    let [a, b] = parameter.value_type.vt().to_le_bytes();
    let [c, d] = parameter_flags(parameter).to_le_bytes();
    [a, b, c, d, 0, 0, 0, 0]
}

/// Appends a name as a string. Err: an allocation fails, or the name is too long, as in no library.
fn put_name(out: &mut Vec<u8>, name: &Name) -> Result<(), AllocError>
    ensures { OnOk result (out.new.items ≡ out.old.items ++ string_field name.now) }
{
    let alloc = *out.allocator();
    let field = string_field(alloc, name.as_bytes())?;
    out.extend_from_slice(&field)
}

/// Appends the field of a default, if there is one. Err: an allocation fails.
#[tactic(auto, unfolding(crate::specs::promise::DescriptionFields::default_field))]
fn put_default(out: &mut Vec<u8>, default: Option<&Scalar>) -> Result<(), AllocError>
    ensures { OnOk result (out.new.items ≡ out.old.items ++ default_field (option_copied default.entry)) }
{
    match default {
        Some(value) => {
            let alloc = *out.allocator();
            let field = scalar_field(alloc, value)?;
            out.extend_from_slice(&field)
        }
        None => Ok(()),
    }
}

/// Appends a parameter. Err: an allocation fails.
#[tactic(auto, unfolding(crate::specs::promise::DescriptionFields::parameter_field))]
fn put_parameter(out: &mut Vec<u8>, parameter: &DescribedParameter<'_>) -> Result<(), AllocError>
    ensures { OnOk result (out.new.items ≡ out.old.items ++ parameter_field parameter.now) }
{
    out.extend_from_slice(&parameter_head(parameter))?;
    put_name(out, parameter.name)?;
    put_default(out, parameter.default)
}

/// Appends parameters in their order. Err: an allocation fails.
fn put_parameters(
    out: &mut Vec<u8>,
    parameters: &[DescribedParameter<'_>],
) -> Result<(), AllocError>
    ensures { OnOk result (out.new.items ≡ out.old.items ++ flat_map parameter_field parameters.now) }
{
    'parameters: for parameter in parameters {
        put_parameter(out, parameter)?;
    }
    Ok(())
}

/// Returns a count as u16. Err: it is greater, as in no library.
fn count(n: usize) -> Result<u16, AllocError>
    ensures value { IfOk result (λ x. x ≡ n) }
    ensures great { OnErr result (65535 < n) }
{
    u16::try_from(n).map_err(|_| AllocError)
}

/// Returns a count as u32. Err: it is greater, as in no library.
fn wide_count(n: usize) -> Result<u32, AllocError>
    ensures value { IfOk result (λ x. x ≡ n) }
    ensures great { OnErr result (4294967295 < n) }
{
    u32::try_from(n).map_err(|_| AllocError)
}

/// Returns the first 16 bytes of a member: DISPID, kind, flags, type, the number of parameters, a
/// reserved number. Err: it has too many parameters, as in no library.
#[tactic(auto, unfolding(oa_record::specs::promise::Replies::word, oa_record::specs::promise::Replies::half_word, crate::specs::promise::DescriptionFields::member_head))]
fn member_head(member: &DescribedMember<'_>) -> Result<[u8; 16], AllocError>
    ensures { IfOk result (λ head. head ≡ member_head member.now) }
{
    let count = count(member.parameters.len())?;
    let [a, b, c, d] = member.id.to_le_bytes();
    let [e, f] = invoke_kind(member.kind).to_le_bytes();
    let [g, h] = member_flags(member.kind).to_le_bytes();
    let [i, j] = type_number(member.value_type).to_le_bytes();
    let [k, l] = count.to_le_bytes();
    Ok([a, b, c, d, e, f, g, h, i, j, k, l, 0, 0, 0, 0])
}

/// Appends a member. Err: an allocation fails.
#[tactic(auto, unfolding(crate::specs::promise::DescriptionFields::member_field))]
fn put_member(out: &mut Vec<u8>, member: &DescribedMember<'_>) -> Result<(), AllocError>
    ensures { OnOk result (out.new.items ≡ out.old.items ++ member_field member.now) }
{
    let head = member_head(member)?;
    out.extend_from_slice(&head)?;
    put_name(out, member.name)?;
    put_parameters(out, member.parameters.as_slice())
}

/// Appends members in their order. Err: an allocation fails.
fn put_members(out: &mut Vec<u8>, members: &[DescribedMember<'_>]) -> Result<(), AllocError>
    ensures { OnOk result (out.new.items ≡ out.old.items ++ flat_map member_field members.now) }
{
    'members: for member in members {
        put_member(out, member)?;
    }
    Ok(())
}

/// Returns the 8 bytes of an entry: 1 for the default interface, and the index of the interface.
#[tactic(auto, unfolding(oa_record::specs::promise::Replies::word, crate::specs::promise::DescriptionFields::entry_field))]
fn entry_field(entry: &DescribedEntry) -> [u8; 8]
    ensures { result ≡ entry_field entry.now }
{
    let [a, b] = flag(entry.is_default, DEFAULT_FLAG as u16).to_le_bytes();
    let [c, d, e, f] = entry.interface.to_le_bytes();
    [a, b, 0, 0, c, d, e, f]
}

/// Appends entries in their order. Err: an allocation fails.
fn put_entries(out: &mut Vec<u8>, entries: &[DescribedEntry]) -> Result<(), AllocError>
    ensures { OnOk result (out.new.items ≡ out.old.items ++ flat_map entry_field entries.now) }
{
    'entries: for entry in entries {
        out.extend_from_slice(&entry_field(entry))?;
    }
    Ok(())
}

/// Returns the first 8 bytes of a description: the kind, and the number of entries. Err: there are
/// too many, as in no library.
#[tactic(auto, unfolding(oa_record::specs::promise::Replies::word, crate::specs::promise::DescriptionFields::content_head))]
fn content_head(content: &Content<'_>) -> Result<[u8; 8], AllocError>
    ensures { IfOk result (λ head. head ≡ content_head (content_of content.now)) }
{
    let (kind, len) = match content {
        Content::Interface(members) => (INTERFACE_KIND, members.len()),
        Content::Coclass(entries) => (COCLASS_KIND, entries.len()),
    };
    let [a, b, c, d] = kind.to_le_bytes();
    let [e, f, g, h] = wide_count(len)?.to_le_bytes();
    Ok([a, b, c, d, e, f, g, h])
}

/// Appends the members or the entries of a description. Err: an allocation fails.
fn put_content(out: &mut Vec<u8>, content: &Content<'_>) -> Result<(), AllocError>
    ensures { OnOk result (out.new.items ≡ out.old.items ++ entry_fields (content_of content.now)) }
{
    match content {
        Content::Interface(members) => put_members(out, members.as_slice()),
        Content::Coclass(entries) => put_entries(out, entries.as_slice()),
    }
}

/// Appends the kind, the number of entries and the GUID. Err: an allocation fails.
#[tactic(auto, unfolding(crate::specs::promise::DescriptionFields::description_head))]
fn put_head(out: &mut Vec<u8>, description: &Description<'_>) -> Result<(), AllocError>
    ensures { OnOk result (out.new.items ≡ out.old.items ++ description_head description.now) }
{
    let head = content_head(&description.content)?;
    out.extend_from_slice(&head)?;
    out.extend_from_slice(&guid_to_wire(&description.guid))?;
    Ok(())
}

/// Appends a description. Err: an allocation fails.
#[tactic(auto, unfolding(crate::specs::promise::DescriptionFields::description_field))]
fn put_description(out: &mut Vec<u8>, description: &Description<'_>) -> Result<(), AllocError>
    ensures { OnOk result (out.new.items ≡ out.old.items ++ description_field description.now) }
{
    put_head(out, description)?;
    put_name(out, description.name)?;
    put_content(out, &description.content)
}

/// Returns the fields of a reply that are a description (this project's choice). The numbers are
/// those of MS-OAUT section 2.2: TYPEKIND, INVOKEKIND, VARTYPE, PARAMFLAGS, and VARFLAG_FREADONLY.
///
/// | Offset | Part of a description |
/// |---|---|
/// | 0 | u32 kind: 4 for an interface, 5 for a coclass |
/// | 4 | u32 number of entries |
/// | 8 | 16 bytes GUID, in wire order |
/// | 24 | the name, as `oa_record::string_field` writes it; then the entries |
///
/// An entry of an interface is a member:
///
/// | Offset | Part of a member |
/// |---|---|
/// | 0 | i32 DISPID |
/// | 4 | u16 kind: 0 from `properties:`, 1 a method, 2 a get, 4 a put |
/// | 6 | u16 flags: 1 for `readonly` |
/// | 8 | u16 vt: 24 (VT_VOID) for none |
/// | 10 | u16 number of parameters |
/// | 12 | u32 reserved |
/// | 16 | the name; then the parameters |
///
/// | Offset | Part of a parameter |
/// |---|---|
/// | 0 | u16 vt |
/// | 2 | u16 flags: the sum of 1 (in), 0x10 (optional) and 0x20 (has a default) |
/// | 4 | u32 reserved |
/// | 8 | the name; then its default, if any, as `oa_record::scalar_field` writes it |
///
/// An entry of a coclass has at 0 the u32 flags, 1 for the default interface, and at 4 the u32
/// index of the interface.
///
/// Err: an allocation fails, or the description has more than 4,294,967,275 bytes, as in no
/// library.
pub(crate) fn description_field(
    alloc: Global,
    description: &Description<'_>,
) -> Result<Vec<u8>, AllocError>
    ensures value { IfOk result (λ v. v.items ≡ description_field description.now) }
    ensures small { IfOk result (λ v. length v.items ≤ max_fields_bytes) }
{
    let mut out = Vec::new(alloc);
    put_description(&mut out, description)?;
    if out.len() > MAX_FIELDS_BYTES {
        return Err(AllocError);
    }
    Ok(out)
}

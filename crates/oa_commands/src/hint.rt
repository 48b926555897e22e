//! Words of automation IDL that the grammar does not have, for users with a text for another
//! compiler.

/// Words that other IDL compilers know and this grammar does not. docs/reference/idl.md has a row
/// for each with what to write instead, in the section that `TextPlace` names.
const LEFT_OUT: &str =
    "double float single DATE boolean byte small wchar_t signed int64 uint64 HRESULT IDispatch IUnknown LPSTR LPWSTR GUID \
    FILETIME const enum struct union typedef module interface import include cpp_quote midl_pragma out retval ref unique ptr string size_is \
    length_is iid_is dual oleautomation object odl local hidden restricted nonextensible pointer_default propputref source bindable \
    requestedit displaybind defaultbind immediatebind nonbrowsable uidefault vararg lcid custom defaultcollelem replaceable helpcontext \
    helpfile helpstringcontext helpstringdll appobject control licensed noncreatable aggregatable public entry";

/// Returns the word of another grammar that begins at byte `at` of a text; None if there is none.
pub(crate) fn word_left_out(text: &str, at: usize) -> Option<&'static str> {
    let rest = text.as_bytes().get(at..)?;
    for word in LEFT_OUT.split_ascii_whitespace() {
        if begins_with(rest, word.as_bytes()) {
            return Some(word);
        }
    }
    None
}

/// Returns whether bytes begin with a name that is exactly this word.
fn begins_with(bytes: &[u8], word: &[u8]) -> bool {
    match bytes.strip_prefix(word) {
        Some([next, ..]) => !next.is_ascii_alphanumeric() && *next != b'_',
        Some([]) => true,
        None => false,
    }
}

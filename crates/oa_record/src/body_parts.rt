//! The parts of a body.
use crate::raw_call::RawCall;
use crate::{ByCall, ByNumber, GetIds, Query};
use oa_array::Indices;
use oa_model::Bound;
use uuid::Uuid;

/// The parts of a body, with its values still encoded.
#[derive(Drop)]
pub(crate) enum Parts<'a> {
    Create(Uuid),
    Number(ByNumber, u32),
    GetIds(GetIds),
    Call(ByCall, RawCall<'a>),
    GetElement(RawCall<'a>, Indices),
    PutElement(RawCall<'a>, Indices, &'a [u8]),
    Redimension(RawCall<'a>, Bound),
    Query(Query),
}

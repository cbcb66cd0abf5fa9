//! Morsels.
use crate::sequence::MorselSeq;
use ps_frame::frame::DataFrame;

/// A part of the rows that go through a pipe, with its number. It shares its columns with the table that it was cut from.
#[derive(Drop)]
pub struct Morsel {
    pub df: DataFrame,
    pub seq: MorselSeq,
}

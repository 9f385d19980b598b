use policy::BookRefusal;
use thiserror::Error;

// The refusal of one record among several, with the record's number as given.
#[derive(Clone, Copy, Debug, PartialEq, Eq, Error)]
#[error("rule {number}: {refusal}")]
pub struct Fault {
    pub number: u16,
    pub refusal: BookRefusal,
}

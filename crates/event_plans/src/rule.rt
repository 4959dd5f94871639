//! The rules for requests that begin a transaction.

use plans::{CallRule, Reply};

/// What is done for a request that begins a transaction.
#[derive(Clone, Copy)]
pub(crate) enum Rule<'r> {
    /// It is answered with a final response, and it concerns no call.
    Alone(Reply),
    /// A call takes it, or begins with it.
    Call(CallRule<'r>),
}

//! Results that C gives: bytes, or a failure.
ghost use Rattle.std.specs.Prelude.{◌≡◌, IfOk, IfErr};
ghost use Rattle.c_calls.specs.Given.{CannotCopy};
ghost use Rattle.c_calls.specs.Values.{given_failure, texts_of_failure, texts_of_value, given_value};

use crate::given::{Lent, Pair, bytes_of, pairs_of, text_of};
use c_values::Status;
use std::alloc::Global;
use vm_types::{NonEmptyValue, PayloadOptions, TerminalFailure};

/// A result: bytes, or a failure.
#[repr(C)]
#[derive(Clone, Copy)]
pub struct GivenValue<'a> {
    pub is_failure: bool,
    /// The failure's code.
    pub code: u16,
    /// The bytes, or the failure's message.
    pub lent: Lent<'a>,
    /// The failure's metadata.
    pub metadata: &'a [Pair<'a>],
}

/// The failure.
#[tactic(auto, using(crate::proofs::Refusing::front_refused, crate::proofs::Refusing::behind_refused))]
fn given_failure(alloc: Global, given: &GivenValue) -> Result<TerminalFailure, Status>
    ensures ok { IfOk result (λ failure. failure ≡ given_failure given.now) }
    ensures err { IfErr result (CannotCopy (texts_of_failure given.now)) }
{
    let message = text_of(alloc, given.lent.bytes)?;
    match pairs_of(alloc, given.metadata) {
        Ok(metadata) => Ok(TerminalFailure {
            code: given.code,
            message,
            metadata,
        }),
        Err(status) => {
            drop(message);
            Err(status)
        }
    }
}

/// The result.
pub(crate) fn given_value(alloc: Global, given: &GivenValue) -> Result<NonEmptyValue, Status>
    ensures ok { IfOk result (λ value. value ≡ given_value given.now) }
    ensures err { IfErr result (CannotCopy (texts_of_value given.now)) }
{
    if given.is_failure {
        return match given_failure(alloc, given) {
            Ok(failure) => Ok(NonEmptyValue::Failure(failure)),
            Err(status) => Err(status),
        };
    }
    match bytes_of(alloc, given.lent.bytes) {
        Ok(bytes) => Ok(NonEmptyValue::Success(bytes)),
        Err(status) => Err(status),
    }
}

/// Whether replay compares the payload.
pub(crate) fn payload(unstable: bool) -> PayloadOptions
    ensures { result ≡ record { unstable_serialization = unstable } }
{
    PayloadOptions {
        unstable_serialization: unstable,
    }
}

//! Single fields, with the place of their fault.

ghost use Rattle.std.specs.Prelude.{◌≡◌, ◌<◌, ◌≤◌, IfOk};
ghost use Rattle.field_rows.specs.Rows.{Gives, read, number, within, flag, flag_set};
ghost use Rattle.sequence_header.specs.Header.{reason_of, header_fault};

use crate::parts::{HeaderFault, HeaderReason};
use bit_codes::{BitReader, CodeFault};

fn fault_at(bit: u64, fault: CodeFault) -> HeaderFault
    ensures place { result.bit ≡ bit }
    ensures reason { result.reason ≡ reason_of fault }
{
    let reason = match fault {
        CodeFault::Short => HeaderReason::Truncated,
        CodeFault::TooLarge => HeaderReason::NumberTooLarge,
    };
    HeaderFault { bit, reason }
}

/// Any number.
#[tactic(auto, using(field_rows::proofs::Reading::asking))]
pub fn number(r: &mut BitReader<'_>) -> Result<u32, HeaderFault>
    ensures { Gives (λ v. v) header_fault result r.new (read reason_of number r.old) }
{
    let bit = r.place();
    match r.uint() {
        Ok(value) => Ok(value),
        Err(fault) => Err(fault_at(bit, fault)),
    }
}

/// A number from `low` to `high`.
#[tactic(auto, using(field_rows::proofs::Reading::asking))]
pub fn number_within(
    r: &mut BitReader<'_>,
    low: u32,
    high: u32,
    reason: HeaderReason,
) -> Result<u32, HeaderFault>
    ensures read { Gives (λ v. v) header_fault result r.new
        (read reason_of (within low high reason) r.old) }
    ensures range { IfOk result (λ v. (low ≤ v) × (v ≤ high)) }
{
    let bit = r.place();
    match r.uint() {
        Ok(value) if low <= value && value <= high => Ok(value),
        Ok(_) => Err(HeaderFault { bit, reason }),
        Err(fault) => Err(fault_at(bit, fault)),
    }
}

/// Any flag.
#[tactic(auto, using(field_rows::proofs::Reading::asking))]
pub fn flag(r: &mut BitReader<'_>) -> Result<bool, HeaderFault>
    ensures { Gives (λ b. b) header_fault result r.new (read reason_of flag r.old) }
{
    let bit = r.place();
    match r.flag() {
        Ok(value) => Ok(value),
        Err(_short) => Err(HeaderFault {
            bit,
            reason: HeaderReason::Truncated,
        }),
    }
}

/// A flag that is 1.
#[tactic(auto, using(field_rows::proofs::Reading::asking))]
pub fn flag_set(r: &mut BitReader<'_>, reason: HeaderReason) -> Result<bool, HeaderFault>
    ensures { Gives (λ b. b) header_fault result r.new (read reason_of (flag_set reason) r.old) }
{
    let bit = r.place();
    match r.flag() {
        Ok(true) => Ok(true),
        Ok(false) => Err(HeaderFault { bit, reason }),
        Err(_short) => Err(HeaderFault {
            bit,
            reason: HeaderReason::Truncated,
        }),
    }
}

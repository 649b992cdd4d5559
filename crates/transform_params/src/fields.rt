//! Single fields, with the place of their fault.

ghost use Rattle.std.specs.Prelude.{◌≡◌, ◌≤◌, IfOk};
ghost use Rattle.field_rows.specs.Rows.{Gives, read, number, within, flag_set};
ghost use Rattle.transform_params.specs.Params.{reason_of, params_fault};

use crate::faults::{TransformFault, TransformReason};
use bit_codes::{BitReader, CodeFault};

fn fault_at(bit: u64, fault: CodeFault) -> TransformFault
    ensures place { result.bit ≡ bit }
    ensures reason { result.reason ≡ reason_of fault }
{
    let reason = match fault {
        CodeFault::Short => TransformReason::Truncated,
        CodeFault::TooLarge => TransformReason::NumberTooLarge,
    };
    TransformFault { bit, reason }
}

/// Any number.
#[tactic(auto, using(field_rows::proofs::Reading::asking))]
pub fn number(r: &mut BitReader<'_>) -> Result<u32, TransformFault>
    ensures { Gives (λ v. v) params_fault result r.new (read reason_of number r.old) }
{
    let bit = r.place();
    match r.uint() {
        Ok(value) => Ok(value),
        Err(fault) => Err(fault_at(bit, fault)),
    }
}

/// A number from `low` to `high`.
#[tactic(auto, using(field_rows::proofs::Reading::asking))]
pub fn number_within(
    r: &mut BitReader<'_>,
    low: u32,
    high: u32,
    reason: TransformReason,
) -> Result<u32, TransformFault>
    ensures exact { Gives (λ v. v) params_fault result r.new
        (read reason_of (within low high reason) r.old) }
    ensures range { IfOk result (λ v. (low ≤ v) × (v ≤ high)) }
{
    let bit = r.place();
    match r.uint() {
        Ok(value) if low <= value && value <= high => Ok(value),
        Ok(_) => Err(TransformFault { bit, reason }),
        Err(fault) => Err(fault_at(bit, fault)),
    }
}

/// A flag that is 1.
#[tactic(auto, using(field_rows::proofs::Reading::asking))]
pub fn flag_set(r: &mut BitReader<'_>, reason: TransformReason) -> Result<bool, TransformFault>
    ensures { Gives (λ b. b) params_fault result r.new (read reason_of (flag_set reason) r.old) }
{
    let bit = r.place();
    match r.flag() {
        Ok(true) => Ok(true),
        Ok(false) => Err(TransformFault { bit, reason }),
        Err(short) => Err(fault_at(bit, short.into())),
    }
}

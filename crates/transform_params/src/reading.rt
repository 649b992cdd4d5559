//! The transform parameters, read.

ghost use Rattle.std.specs.Prelude.{◌≡◌, ◌≤◌, ◌+◌, ◌*◌, ◌^◌, ◌/◌, take, length, IfErr, IfOk};
ghost use Rattle.bit_codes.specs.Bits.{cursor_at};
ghost use Rattle.field_rows.specs.Rows.{Gives, GivesOf, read, numbers};
ghost use Rattle.transform_params.specs.Params.{reason_of, params_fault, wavelet_index_rows, wavelet_of, wavelet_rows, slices_y_rows, denominator_rows, slicing_rows, matrix_rows, params_fields, params_rows};
ghost use Rattle.transform_params.specs.Views.{params_of};

use crate::TransformParams;
use crate::faults::{TransformFault, TransformReason};
use crate::fields::{flag_set, number, number_within};
use bit_codes::BitReader;
use lifting::Wavelet;
use quant_factors::Matrix;
use slice_geometry::Layout;

#[tactic(auto, using(field_rows::proofs::Reading::asking), unfolding(crate::specs::Params::wavelet_index_rows))]
fn wavelet_index(r: &mut BitReader<'_>) -> Result<u32, TransformFault>
    ensures { Gives (λ v. v) params_fault result r.new (read reason_of wavelet_index_rows r.old) }
{
    let bit = r.place();
    let index = number(r)?;
    if index != 1 && index != 3 && index != 4 {
        return Err(TransformFault {
            bit,
            reason: TransformReason::WaveletRefused(index),
        });
    }
    Ok(index)
}

// The wavelet of an index of the profile.
fn wavelet_of(index: u32) -> Wavelet
    ensures { result ≡ wavelet_of index }
{
    if index == 1 {
        Wavelet::LeGall
    } else if index == 3 {
        Wavelet::HaarFlat
    } else {
        Wavelet::HaarShift
    }
}

#[tactic(auto, using(field_rows::proofs::Reading::reading), unfolding(crate::specs::Params::wavelet_rows))]
fn wavelet(r: &mut BitReader<'_>) -> Result<Wavelet, TransformFault>
    ensures { Gives (λ v. v) params_fault result r.new (read reason_of wavelet_rows r.old) }
{
    let index = wavelet_index(r)?;
    Ok(wavelet_of(index))
}

#[tactic(auto, using(field_rows::proofs::Reading::asking), unfolding(crate::specs::Params::slices_y_rows))]
fn slices_y(r: &mut BitReader<'_>, slices_x: u32) -> Result<u32, TransformFault>
    requires { slices_x ≤ 8192 }
    ensures exact { Gives (λ v. v) params_fault result r.new
        (read reason_of (slices_y_rows slices_x) r.old) }
    ensures range { IfOk result (λ v. (1 ≤ v) × (v ≤ 8192) × (slices_x * v ≤ 2 ^ 20)) }
{
    let bit = r.place();
    let value = number(r)?;
    if value < 1 || value > 8192 || slices_x * value > 1 << 20 {
        return Err(TransformFault {
            bit,
            reason: TransformReason::SlicesRefused,
        });
    }
    Ok(value)
}

#[tactic(auto, using(field_rows::proofs::Reading::asking), unfolding(crate::specs::Params::denominator_rows))]
fn denominator(r: &mut BitReader<'_>, count: u32, a: u32) -> Result<u32, TransformFault>
    requires { count ≤ 2 ^ 20 }
    ensures exact { Gives (λ v. v) params_fault result r.new
        (read reason_of (denominator_rows count a) r.old) }
    ensures range { IfOk result (λ v. (1 ≤ v) × (v ≤ a) × (count * a / v ≤ 2 ^ 28)) }
{
    let place = r.place();
    let value = number(r)?;
    if value < 1 || value > a || u64::from(count) * u64::from(a) / u64::from(value) > 1 << 28 {
        return Err(TransformFault {
            bit: place,
            reason: TransformReason::ShareRefused,
        });
    }
    Ok(value)
}

// So many numbers, in the front of an array.
fn entries(r: &mut BitReader<'_>, count: usize) -> Result<[u32; 13], TransformFault>
    requires { count ≤ 13 }
    ensures { Gives (λ entries. take count entries) params_fault result r.new
        (read reason_of (numbers count) r.old) }
{
    let mut entries = [0; 13];
    for i in 0..count {
        entries[i] = number(r)?;
    }
    Ok(entries)
}

// How the picture is cut into slices.
#[tactic(auto, using(field_rows::proofs::Reading::reading), unfolding(crate::specs::Params::slicing_rows))]
fn layout(r: &mut BitReader<'_>) -> Result<Layout, TransformFault>
    ensures { Gives (λ l. l) params_fault result r.new (read reason_of slicing_rows r.old) }
{
    let depth = number_within(r, 0, 4, TransformReason::DepthRefused)?;
    let slices_x = number_within(r, 1, 8192, TransformReason::SlicesRefused)?;
    let slices_y = slices_y(r, slices_x)?;
    let a = number(r)?;
    let b = denominator(r, slices_x * slices_y, a)?;
    match Layout::check(depth, slices_x, slices_y, a, b) {
        Ok(layout) => Ok(layout),
        Err(_) => unreachable!(),
    }
}

// The quantisation matrix of a transform of this depth.
#[tactic(auto, using(field_rows::proofs::Reading::reading), unfolding(crate::specs::Params::matrix_rows))]
fn matrix(r: &mut BitReader<'_>, depth: u32) -> Result<Matrix, TransformFault>
    requires { depth ≤ 4 }
    ensures exact { Gives (λ m. m) params_fault result r.new
        (read reason_of (matrix_rows depth) r.old) }
    ensures depth { IfOk result (λ m. m.depth ≡ depth) }
{
    let _custom = flag_set(r, TransformReason::DefaultMatrix)?;
    let count = (1 + 3 * depth) as usize;
    let entries = entries(r, count)?;
    Ok(Matrix::new(depth, &entries[..count]))
}

#[tactic(auto, using(field_rows::proofs::Reading::reading), unfolding(crate::specs::Params::params_fields))]
fn params(r: &mut BitReader<'_>) -> Result<TransformParams, TransformFault>
    ensures { Gives params_of params_fault result r.new (read reason_of params_fields r.old) }
{
    let wavelet = wavelet(r)?;
    let layout = layout(r)?;
    let matrix = matrix(r, layout.depth())?;
    Ok(TransformParams {
        wavelet,
        layout,
        matrix,
    })
}

impl TransformParams {
    /// The transform parameters in front of the bytes, at most 2^40, and how many bytes they take, with the bits up to
    /// the last one's end; or the first fault in the order of the fields, which lies within the bytes.
    pub fn read(bytes: &[u8]) -> Result<(TransformParams, usize), TransformFault>
        requires { length bytes.now ≤ 2 ^ 40 }
        ensures exact { GivesOf params_of params_fault result bytes.now
            (read reason_of params_rows (cursor_at bytes.now 0)) }
        ensures within { IfErr result (λ f. f.bit ≤ 8 * length bytes.now) }
    {
        let mut r = BitReader::new(bytes);
        let found = params(&mut r)?;
        r.align();
        Ok((found, (r.place() / 8) as usize))
    }
}

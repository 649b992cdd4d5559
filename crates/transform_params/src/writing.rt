//! The transform parameters, written.

ghost use Rattle.std.specs.Prelude.{◌≡◌, ◌≤◌, ◌<◌, ◌+◌, ◌*◌, ◌^◌, ◌++◌, List, ℕ, length, Ok};
ghost use Rattle.std.specs.List.{AllByRecursion};
ghost use Rattle.bit_codes.specs.Bits.{bits_before, cursor_at};
ghost use Rattle.field_rows.specs.Rows.{read};
ghost use Rattle.field_rows.specs.Given.{value_bits};
ghost use Rattle.transform_params.specs.Params.{reason_of, params_rows};
ghost use Rattle.transform_params.specs.ParameterFields.{wavelet_index, slicing_fields, matrix_fields, entry_fields, bit_length, byte_length, unit_length, params_bytes, AreLawfulParams};
ghost use Rattle.transform_params.specs.Views.{params_of};

use crate::TransformParams;
use bit_codes::{BitWriter, uint_len};
use lifting::Wavelet;
use quant_factors::Matrix;
use slice_geometry::Layout;

// The index of a wavelet.
fn wavelet_index(wavelet: Wavelet) -> u32
    ensures { result ≡ wavelet_index wavelet }
{
    match wavelet {
        Wavelet::LeGall => 1,
        Wavelet::HaarFlat => 3,
        Wavelet::HaarShift => 4,
    }
}

// How many bits the entries have.
#[tactic(auto, using(field_rows::proofs::CodeLengths::code_short))]
fn entries_len(entries: &[u32]) -> u32
    requires { length entries.now ≤ 13 }
    ensures value { result ≡ length (value_bits (entry_fields entries.now)) }
    ensures most { result ≤ 845 }
    ensures small { AllByRecursion (λ n. n < 2 ^ 32) entries.now }
{
    let mut bits = 0;
    for entry in entries {
        bits += uint_len(*entry);
    }
    bits
}

impl TransformParams {
    /// How many bits the fields have.
    #[tactic(auto, using(field_rows::proofs::CodeLengths::code_short))]
    fn bit_len(&self) -> u32
        ensures value { result ≡ bit_length (params_of self.now) }
        ensures most { result ≤ 1240 }
        ensures lawful { AreLawfulParams (params_of self.now) }
    {
        let layout = self.layout;
        1 + uint_len(wavelet_index(self.wavelet))
            + uint_len(layout.depth())
            + uint_len(layout.slices_x())
            + uint_len(layout.slices_y())
            + uint_len(layout.a())
            + uint_len(layout.b())
            + entries_len(self.matrix.entries())
    }

    /// How many bytes the transform parameters take, at most 155.
    pub fn byte_len(&self) -> usize
        ensures value { result ≡ byte_length (params_of self.now) }
        ensures most { result ≤ 155 }
        ensures lawful { AreLawfulParams (params_of self.now) }
    {
        ((self.bit_len() + 7) / 8) as usize
    }

    /// How many bytes the unit of a picture with these parameters has: the head, the picture number, the parameters and
    /// the slices.
    pub fn unit_len(&self) -> u32
        ensures value { result ≡ unit_length (params_of self.now) }
        ensures lawful { AreLawfulParams (params_of self.now) }
    {
        17 + self.byte_len() as u32 + self.layout.total_bytes()
    }

    /// Writes the fields in their order, and zeros up to the last byte's end, into exactly `byte_len` bytes. `read` takes
    /// exactly these bytes and gives the same parameters, whatever follows.
    pub fn write(&self, bytes: &mut [u8])
        requires { length bytes.old ≡ byte_length (params_of self.now) }
        ensures bytes { bytes.new ≡ params_bytes (params_of self.now) }
        ensures read_back { (more : List ℕ)
            → read reason_of params_rows (cursor_at (bytes.new ++ more) 0)
            ≡ Ok (params_of self.now, cursor_at (bytes.new ++ more) (8 * length bytes.new)) }
    {
        prove!(self.byte_len() <= 155);
        let mut w = BitWriter::new(bytes);
        w.put_uint(wavelet_index(self.wavelet));
        put_layout(&mut w, &self.layout);
        put_matrix(&mut w, &self.matrix);
        w.align();
    }
}

#[tactic(auto, using(field_rows::proofs::Written::writing))]
fn put_layout(w: &mut BitWriter<'_>, layout: &Layout)
    requires { w.old.place + length (value_bits (slicing_fields layout.now))
        ≤ 8 * length w.old.bytes.now }
    ensures same_reference { w.new.bytes.ghost_name ≡ w.old.bytes.ghost_name }
    ensures place { w.new.place ≡ w.old.place + length (value_bits (slicing_fields layout.now)) }
    ensures written { bits_before w.new.place w.new.bytes.now
        ≡ bits_before w.old.place w.old.bytes.now ++ value_bits (slicing_fields layout.now) }
    ensures room { length w.new.bytes.now ≡ length w.old.bytes.now }
{
    w.put_uint(layout.depth());
    w.put_uint(layout.slices_x());
    w.put_uint(layout.slices_y());
    w.put_uint(layout.a());
    w.put_uint(layout.b());
}

#[tactic(auto, using(field_rows::proofs::Written::writing))]
fn put_matrix(w: &mut BitWriter<'_>, matrix: &Matrix)
    requires { w.old.place + length (value_bits (matrix_fields matrix.now))
        ≤ 8 * length w.old.bytes.now }
    ensures same_reference { w.new.bytes.ghost_name ≡ w.old.bytes.ghost_name }
    ensures place { w.new.place ≡ w.old.place + length (value_bits (matrix_fields matrix.now)) }
    ensures written { bits_before w.new.place w.new.bytes.now
        ≡ bits_before w.old.place w.old.bytes.now ++ value_bits (matrix_fields matrix.now) }
    ensures room { length w.new.bytes.now ≡ length w.old.bytes.now }
{
    w.put_flag(true);
    for entry in matrix.entries() {
        w.put_uint(*entry);
    }
}

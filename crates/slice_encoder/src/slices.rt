// Slices gathered and encoded, or tried at one index.

ghost use Rattle.std.specs.Prelude.{◌≡◌, ◌^◌, ◌≤◌, max, length};
ghost use Rattle.planes.specs.declared.Trio.{Trio};
ghost use Rattle.slice_geometry.specs.Slicing.{Slicing};
ghost use Rattle.slice_encoder.specs.TrialLaws.{IsSteepOk};
ghost use Rattle.slice_encoder.specs.Tries.{AreTried, tried_lists};
ghost use Rattle.slice_encoder.specs.Ready.{AreReadyToWrite, AreGiven};
ghost use Rattle.slice_encoder.specs.Jobs.{picture_of};
ghost use Rattle.slice_encoder.specs.Buffers.{HasListRoom, HoldsTrial};
ghost use Rattle.slice_encoder.specs.GatheredSlices.{AreAllGathered, CanHoldAll};
ghost use Rattle.slice_encoder.specs.Room.{HasHighRoom};
ghost use Rattle.slice_encoder.specs.Encoded.{IsEncoded};

use crate::gathered::{GatheredSlice, SliceLimits};
use crate::jobs::SliceJob;
use crate::search::{Trying, find_least, try_at};
use crate::writer::SliceWriter;
use planes::{ThreePlanes, Trio};
use slice_geometry::SliceHead;

/// A slice that was written, and the first index that might have fitted it.
#[derive(Clone, Copy)]
pub struct Written {
    pub first: u32,
    pub head: SliceHead,
}

/// Writes a slice that was gathered, at the least index at which it fits. That is looked for from an index near it on.
pub fn encode_gathered(
    job: SliceJob<'_>,
    gathered: &GatheredSlice,
    near: u32,
    limits: &mut SliceLimits,
    kept: &mut ThreePlanes,
    luma: &mut [i64],
    colour: &mut [i64],
    writer: &mut SliceWriter,
    bytes: &mut [u8],
) -> Written
    ghost coefficients: { Trio }
    requires some { 1 ≤ length bytes.old }
    requires most { length bytes.old ≤ 2 ^ 28 }
    requires count { job.bytes ≡ length bytes.old }
    requires ready { AreReadyToWrite (picture_of job coefficients) job.sx job.sy kept.old }
    requires gathered { AreAllGathered (picture_of job coefficients) job.sx job.sy gathered.now }
    requires near { near ≤ 127 }
    requires steep { IsSteepOk job.layout.now.depth
        (max job.shape.now.luma_depth job.shape.now.colour_depth) job.matrix.now }
    requires room { HasListRoom (picture_of job coefficients) job.sx job.sy (length luma.old)
        (length colour.old) }
    requires writer { HasHighRoom job.layout.now job.shape.now writer.old }
    ensures near { result.first ≤ 127 }
    ensures writer { (s : Slicing) → HasHighRoom s job.entry.shape.now writer.old
        → HasHighRoom s job.entry.shape.now writer.new }
    ensures slice { IsEncoded (tried_lists (picture_of job.entry coefficients) kept.old
        job.entry.sx job.entry.sy) bytes.new result.head }
    ensures kept { AreTried (picture_of job.entry coefficients) job.entry.sx job.entry.sy
        result.head.qindex kept.old kept.new }
{
    let found = find_least(job, gathered, near, limits, kept, luma, colour);
    writer.put(job, gathered, found, luma, colour, bytes);
    Written {
        first: found.first,
        head: SliceHead {
            qindex: found.index,
            luma_bits: found.trying.luma_need as u32,
        },
    }
}

/// Gathers a slice from rows, and writes it so.
pub fn encode_rows(
    job: SliceJob<'_>,
    coefficients: &Trio,
    gathered: &mut GatheredSlice,
    near: u32,
    limits: &mut SliceLimits,
    kept: &mut ThreePlanes,
    luma: &mut [i64],
    colour: &mut [i64],
    writer: &mut SliceWriter,
    bytes: &mut [u8],
) -> Written
    ghost seen: { Trio }
    requires seen { seen ≡ coefficients.now }
    requires some { 1 ≤ length bytes.old }
    requires most { length bytes.old ≤ 2 ^ 28 }
    requires count { job.bytes ≡ length bytes.old }
    requires ready { AreReadyToWrite (picture_of job seen) job.sx job.sy kept.old }
    requires given { AreGiven (picture_of job seen) }
    requires holds { CanHoldAll job.layout.now job.shape.now gathered.old }
    requires near { near ≤ 127 }
    requires steep { IsSteepOk job.layout.now.depth
        (max job.shape.now.luma_depth job.shape.now.colour_depth) job.matrix.now }
    requires room { HasListRoom (picture_of job seen) job.sx job.sy (length luma.old)
        (length colour.old) }
    requires writer { HasHighRoom job.layout.now job.shape.now writer.old }
    ensures holds { CanHoldAll job.entry.layout.now job.entry.shape.now gathered.new }
    ensures near { result.first ≤ 127 }
    ensures writer { (s : Slicing) → HasHighRoom s job.entry.shape.now writer.old
        → HasHighRoom s job.entry.shape.now writer.new }
    ensures slice { IsEncoded (tried_lists (picture_of job.entry seen) kept.old job.entry.sx
        job.entry.sy) bytes.new result.head }
    ensures kept { AreTried (picture_of job.entry seen) job.entry.sx job.entry.sy
        result.head.qindex kept.old kept.new }
{
    gathered.gather(job, coefficients);
    encode_gathered(
        job, gathered, near, limits, kept, luma, colour, writer, bytes,
    )
}

/// Gathers a slice from rows, and tries an index.
pub fn try_rows(
    job: SliceJob<'_>,
    coefficients: &Trio,
    index: u32,
    gathered: &mut GatheredSlice,
    limits: &mut SliceLimits,
    kept: &mut ThreePlanes,
    luma: &mut [i64],
    colour: &mut [i64],
) -> Trying
    ghost seen: { Trio }
    requires seen { seen ≡ coefficients.now }
    requires index { index ≤ 127 }
    requires some { 1 ≤ job.bytes }
    requires most { job.bytes ≤ 2 ^ 28 }
    requires ready { AreReadyToWrite (picture_of job seen) job.sx job.sy kept.old }
    requires given { AreGiven (picture_of job seen) }
    requires holds { CanHoldAll job.layout.now job.shape.now gathered.old }
    requires room { HasListRoom (picture_of job seen) job.sx job.sy (length luma.old)
        (length colour.old) }
    ensures can_hold { CanHoldAll job.entry.layout.now job.entry.shape.now gathered.new }
    ensures holds { HoldsTrial (picture_of job.entry seen) kept.old job.entry.sx job.entry.sy
        index job.entry.bytes result luma.new colour.new }
    ensures kept { AreTried (picture_of job.entry seen) job.entry.sx job.entry.sy index kept.old
        kept.new }
{
    gathered.gather(job, coefficients);
    let looks = gathered.looks(job.matrix, index, limits);
    try_at(job, index, gathered, looks, kept, luma, colour)
}

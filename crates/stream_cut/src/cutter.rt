//! The cutter of a stream.

ghost use Rattle.vc2_io.specs.declared.TheConstants.{INPUT_LIMIT, READ_SIZE};
ghost use Rattle.std.specs.Prelude.{◌≡◌, ◌≤◌, ◌+◌, ◌++◌, ◌∷◌, [], true, false, refl, length, IfOk, OnOk, OnErr, Ok, Err, Some, None};
ghost use Rattle.std.specs.Io.KnownBytes.{Appends};
ghost use Rattle.vc2_io.specs.Outside.{HasCause, GrewShort};
ghost use Rattle.run_theory.specs.Ran.{HaltHasCause};
ghost use Rattle.run_theory.specs.declared.Halt.TheVariants as halts;
ghost use Rattle.run_theory.specs.Runs.{change, Runs, WritesText};
ghost use Rattle.parse_info.specs.declared.TheConstants.{HEAD_SIZE};
ghost use Rattle.parse_info.specs.Head.{head_bytes};
ghost use Rattle.parse_info.specs.declared.ParseInfo.{ParseInfo};
ghost use Rattle.unit_reader.specs.Soon.{Soon};
ghost use Rattle.stream_rows.specs.Units.{nothing_yet};
ghost use Rattle.stream_writer.specs.EncodedStream.{end_unit};
ghost use Rattle.stream_cut.specs.Cut.{Frames, CutSoFar, is_in, frames_so_far, cut_header_unit, empty_cut, no_cut, cutting, cut_machine};
ghost use Rattle.stream_cut.specs.Cutter.{IsNewCutter, IsCutToTheEnd, MayGoOn, KeepsCut, run_of};

use crate::table::{SkimItem, SkimTable};
use parse_info::{Code, ParseInfo};
use planes::NoMemory;
use run_theory::Halt;
use slice_geometry::{UnitShape, UnitShapes};
use std::alloc::Global;
use std::marker::Model;
use std::mem;
use stream_reader::{Earlier, First};
use stream_rows::{Reason, Refusal};
use unit_reader::{Reader, UnitCommand, run_units};
use vc2_io::{Failed, Sink, Source, write_whole};

/// Why a cut stopped.
#[derive(Clone, Copy, Debug, PartialEq, Eq)]
pub enum CutStop {
    /// The input is refused.
    Refused(Refusal),
    /// A read failed.
    ReadFault,
    /// A write failed.
    OutFault,
    /// No memory was found.
    NoMemory,
}

// The whole frames of a sequence so far.
fn frames_so_far(earlier: &Earlier) -> u64
    ensures { result ≡ frames_so_far earlier.now }
{
    match earlier.first() {
        Some(first) if first.header().parts().coding == 1 => earlier.pictures() / 2,
        _ => earlier.pictures(),
    }
}

// Writes a unit with new offsets.
fn put<K: Sink>(
    out: &mut K,
    code: Code,
    next: u32,
    previous: u32,
    payload: &[u8],
) -> Result<(), Failed>
    ensures ok { OnOk result (Appends (K.written out.old) (K.written out.new)
        (head_bytes (record { code = code; next = next; previous = previous }) ++ payload.now)) }
    ensures err { OnErr result (GrewShort (K.written out.old) (K.written out.new)
        (head_bytes (record { code = code; next = next; previous = previous }) ++ payload.now)) }
    ensures cause { HasCause (K.faults out.old) (K.faults out.new) result }
{
    let mut head = [0; 13];
    let info = ParseInfo {
        code,
        next,
        previous,
    };
    info.write(&mut head);
    write_whole(out, &head)?;
    write_whole(out, payload)
}

// Writes the first unit of a sequence.
fn put_header<K: Sink>(out: &mut K, payload: &[u8]) -> Result<u32, Failed>
    requires { length payload.now ≤ 512 }
    ensures ok { OnOk result (Appends (K.written out.old) (K.written out.new)
        (cut_header_unit payload.now)) }
    ensures length { IfOk result (λ length'. length' ≡ HEAD_SIZE + length payload.now) }
    ensures err { OnErr result (GrewShort (K.written out.old) (K.written out.new)
        (cut_header_unit payload.now)) }
    ensures cause { HasCause (K.faults out.old) (K.faults out.new) result }
{
    let size = 13 + payload.len() as u32;
    put(out, Code::SequenceHeader, size, 0, payload)?;
    Ok(size)
}

// Writes the end of a sequence.
fn put_end<K: Sink>(out: &mut K, previous: u32) -> Result<(), Failed>
    ensures ok { OnOk result (Appends (K.written out.old) (K.written out.new)
        (end_unit previous)) }
    ensures err { OnErr result (GrewShort (K.written out.old) (K.written out.new)
        (end_unit previous)) }
    ensures cause { HasCause (K.faults out.old) (K.faults out.new) result }
{
    put(out, Code::EndOfSequence, 0, previous, &[])
}

// Counts a unit without slices.
fn count(shapes: &mut UnitShapes, length: u32)
    requires room { 1 ≤ shapes.old.spare }
    requires most { shapes.old.total + length ≤ INPUT_LIMIT }
    ensures units { shapes.new.units
        ≡ shapes.old.units ++ record {
          start = shapes.old.total;
          head = length;
          slices = 0;
          a = 1;
          b = 1;
        } ∷ [] }
    ensures total { shapes.new.total ≡ shapes.old.total + length }
    ensures room { shapes.new.spare + 1 ≡ shapes.old.spare }
{
    let start = shapes.total();
    shapes.push(UnitShape {
        start,
        head: u64::from(length),
        slices: 0,
        a: 1,
        b: 1,
    });
}

/// How a cut ends: the units that were written, and the refusal of the input, if there is one.
#[derive(Drop)]
pub(crate) struct CutEnding {
    shapes: UnitShapes,
    refusal: Option<Refusal>,
}

impl Model for CutEnding {
    ghost use Rattle.stream_cut.specs.Cut.{CutEnd};
    ghost use Rattle.stream_cut.specs.Cutter.{end_of_cut};

    ghost Value = { CutEnd };

    ghost view = { λ e. end_of_cut e.shapes.units e.shapes.total e.refusal };
}

/// What the units so far leave to a cut: the frames of the sequences that are over and those of this one, the stream's first
/// header, the length of the unit that was written last where the sequence has a chosen picture, and the units that were written.
#[derive(Drop)]
pub(crate) struct CutRun {
    alloc: Global,
    from: u32,
    to: u32,
    frames: u64,
    so_far: u64,
    first: Option<First>,
    previous: Option<u32>,
    shapes: UnitShapes,
}

impl CutRun {
    ghost use Rattle.std.specs.Prelude.{◌≡◌, ◌≢◌, ◌≤◌, ◌<◌, ◌+◌, ◌++◌, ◌∷◌, ◌^◌, drop, [], length, OnOk, Some, None};
    ghost use Rattle.slice_geometry.specs.UnitLengths.{IsUnitAllowed, shape_length};
    ghost use Rattle.stream_rows.specs.Units.{First};
    ghost use Rattle.stream_cut.specs.Cut.{header_due, length_ahead, cut_picture_unit, end_due, or_else_some, header_shapes, end_shapes, closing, closing_shapes};
    ghost use Rattle.stream_cut.specs.Cutter.{own_of, pending};

    // The frame is chosen.
    fn is_chosen(&self, frame: u64) -> bool
        ensures { result ≡ is_in (record { from = self.now.from; to = self.now.to }) frame }
    {
        u64::from(self.from) <= frame && frame < u64::from(self.to)
    }

    // Makes room for the shapes of so many units.
    fn reserve(&mut self, n: usize) -> Result<(), Halt>
        requires some { 1 ≤ n }
        requires most { n ≤ 3 }
        ensures own { own_of self.new ≡ own_of self.old }
        ensures so_far { self.new.so_far ≡ self.old.so_far }
        ensures room { OnOk result (n ≤ self.new.shapes.spare) }
        ensures err { OnErr result (result ≡ Err halts.NoMemory) }
    {
        match self.shapes.reserve(n) {
            Ok(()) => Ok(()),
            Err(_) => Err(Halt::NoMemory),
        }
    }

    // Keeps the stream's first header.
    fn keep_first(&mut self, table: &SkimTable) -> Result<(), Halt>
        ensures ok { (first : First) → table.now.past.first ≡ Some first
            → OnOk result (self.new
            ≡ record self.old { first = or_else_some self.old.first first }) }
        ensures err { OnErr result (result ≡ Err halts.NoMemory) }
    {
        if self.first.is_some() {
            return Ok(());
        }
        let first = match table.earlier().first() {
            Some(first) => first,
            None => return Ok(()),
        };
        let mut payload = Vec::new(self.alloc);
        match payload.extend_from_slice(first.payload()) {
            Ok(()) => {}
            Err(_) => return Err(Halt::NoMemory),
        }
        self.first = Some(First::new(*first.header(), payload));
        Ok(())
    }

    // Writes the header of the sequence, before the first picture that is chosen of it; gives the length of the unit that was
    // written last.
    fn begin<K: Sink>(&mut self, table: &SkimTable, out: &mut K) -> Result<u32, Halt>
        requires first { table.now.past.first ≢ None }
        requires room { 2 ≤ self.old.shapes.spare }
        requires most { self.old.shapes.total + pending table.now.past.first self.old.previous
            ≤ INPUT_LIMIT }
        ensures wrote { WritesText (header_due table.now.past self.old.previous)
            (K.written out.old) (K.written out.new) result }
        ensures previous { IfOk result (λ previous. previous
            ≡ length_ahead table.now.past self.old.previous) }
        ensures units { OnOk result (self.new.shapes.units
            ≡ self.old.shapes.units ++ header_shapes table.now.past self.old.shapes.total
            self.old.previous) }
        ensures total { OnOk result (self.new.shapes.total
            ≡ self.old.shapes.total + pending table.now.past.first self.old.previous) }
        ensures room { OnOk result (1 ≤ self.new.shapes.spare) }
        ensures others { OnOk result (self.new ≡ record self.old { shapes = self.new.shapes }) }
        ensures cause { HaltHasCause 0 0 (K.faults out.old) (K.faults out.new) result }
    {
        if let Some(previous) = self.previous {
            return Ok(previous);
        }
        let first = match table.earlier().first() {
            Some(first) => first,
            None => unreachable!(),
        };
        match put_header(out, first.payload()) {
            Ok(size) => {
                count(&mut self.shapes, size);
                Ok(size)
            }
            Err(_) => Err(Halt::OutFault),
        }
    }

    // Writes the picture that was read last, with the header before it where it is the first that is chosen of its sequence.
    fn picture<K: Sink>(&mut self, table: &SkimTable, out: &mut K) -> Result<(), Halt>
        requires first { table.now.past.first ≢ None }
        requires long { HEAD_SIZE ≤ length table.now.unit }
        requires short { length table.now.unit < 2 ^ 32 }
        requires allowed { IsUnitAllowed table.now.shape }
        requires shape { shape_length table.now.shape ≡ length table.now.unit }
        requires most { self.old.shapes.total + pending table.now.past.first self.old.previous
            + length table.now.unit ≤ INPUT_LIMIT }
        ensures wrote { WritesText (header_due table.now.past self.old.previous
            ++ cut_picture_unit (length_ahead table.now.past self.old.previous)
            (drop HEAD_SIZE table.now.unit)) (K.written out.old) (K.written out.new) result }
        ensures units { OnOk result (self.new.shapes.units
            ≡ self.old.shapes.units ++ (header_shapes table.now.past self.old.shapes.total
            self.old.previous ++ record table.now.shape {
              start = self.old.shapes.total
                  + pending table.now.past.first self.old.previous;
            } ∷ [])) }
        ensures total { OnOk result (self.new.shapes.total
            ≡ self.old.shapes.total + pending table.now.past.first self.old.previous
            + length table.now.unit) }
        ensures others { OnOk result (self.new
            ≡ record self.old {
              shapes = self.new.shapes;
              previous = Some (length table.now.unit);
            }) }
        ensures cause { HaltHasCause 0 0 (K.faults out.old) (K.faults out.new) result }
    {
        self.reserve(2)?;
        let previous = self.begin(table, out)?;
        let unit = table.unit();
        let length = unit.len() as u32;
        match put(out, Code::LowDelayPicture, length, previous, &unit[13..]) {
            Ok(()) => {}
            Err(_) => return Err(Halt::OutFault),
        }
        let start = self.shapes.total();
        self.shapes.push(UnitShape {
            start,
            ..table.shape()
        });
        self.previous = Some(length);
        Ok(())
    }

    // Writes the end of the sequence, where it has a chosen picture.
    fn end<K: Sink>(&mut self, out: &mut K) -> Result<(), Halt>
        requires most { self.old.shapes.total + HEAD_SIZE ≤ INPUT_LIMIT }
        ensures wrote { WritesText (end_due self.old.previous) (K.written out.old)
            (K.written out.new) result }
        ensures units { OnOk result (self.new.shapes.units
            ≡ self.old.shapes.units ++ end_shapes self.old.shapes.total self.old.previous) }
        ensures total { OnOk result (self.new.shapes.total
            ≡ self.old.shapes.total + length (end_due self.old.previous)) }
        ensures others { OnOk result (self.new
            ≡ record self.old { shapes = self.new.shapes; previous = None }) }
        ensures cause { HaltHasCause 0 0 (K.faults out.old) (K.faults out.new) result }
    {
        let previous = match self.previous {
            Some(previous) => previous,
            None => return Ok(()),
        };
        self.reserve(1)?;
        match put_end(out, previous) {
            Ok(()) => {}
            Err(_) => return Err(Halt::OutFault),
        }
        count(&mut self.shapes, 13);
        self.previous = None;
        Ok(())
    }

    // Writes the stream of which no picture is chosen.
    fn empty<K: Sink>(&mut self, out: &mut K) -> Result<(), Halt>
        requires none { self.old.previous ≡ None }
        requires total { self.old.shapes.total ≡ 0 }
        ensures wrote { WritesText (closing (own_of self.old).cut) (K.written out.old)
            (K.written out.new) result }
        ensures units { OnOk result (self.new.shapes.units
            ≡ self.old.shapes.units ++ closing_shapes (own_of self.old).cut) }
        ensures total { OnOk result (self.new.shapes.total
            ≡ self.old.shapes.total + length (closing (own_of self.old).cut)) }
        ensures cause { HaltHasCause 0 0 (K.faults out.old) (K.faults out.new) result }
    {
        self.reserve(2)?;
        let first = match &self.first {
            Some(first) => first,
            None => return Ok(()),
        };
        let size = match put_header(out, first.payload()) {
            Ok(size) => size,
            Err(_) => return Err(Halt::OutFault),
        };
        match put_end(out, size) {
            Ok(()) => {}
            Err(_) => return Err(Halt::OutFault),
        }
        count(&mut self.shapes, size);
        count(&mut self.shapes, 13);
        Ok(())
    }

    // Writes what stands behind the last unit.
    fn close<K: Sink>(&mut self, out: &mut K) -> Result<(), Halt>
        requires most { self.old.shapes.total + HEAD_SIZE ≤ INPUT_LIMIT }
        ensures wrote { WritesText (closing (own_of self.old).cut) (K.written out.old)
            (K.written out.new) result }
        ensures units { OnOk result (self.new.shapes.units
            ≡ self.old.shapes.units ++ closing_shapes (own_of self.old).cut) }
        ensures total { OnOk result (self.new.shapes.total
            ≡ self.old.shapes.total + length (closing (own_of self.old).cut)) }
        ensures cause { HaltHasCause 0 0 (K.faults out.old) (K.faults out.new) result }
    {
        if self.previous.is_none() && self.shapes.total() == 0 {
            return self.empty(out);
        }
        self.end(out)
    }
}

impl UnitCommand<SkimTable> for CutRun {
    ghost use Rattle.std.specs.Prelude.{refl};
    ghost use Rattle.stream_rows.specs.Units.{nothing_yet};
    ghost use Rattle.stream_cut.specs.Cut.{CutSoFar, no_cut, cutting};
    ghost use Rattle.stream_cut.specs.Cutter.{IsCutToTheEnd, MayGoOn, KeepsCut, own_of};

    type Ending = CutEnding;

    ghost Own = { CutSoFar };

    ghost command = { cutting (record { from = 0; to = 0 }) };

    ghost first = { nothing_yet };

    ghost own = { λ c t. own_of c };

    ghost start = { λ c. no_cut (record { from = c.from; to = c.to }) };

    ghost keeps = { λ c t. KeepsCut c.so_far (own_of c) t };

    ghost is_done = { IsCutToTheEnd };

    ghost refused_is_no_end = { λ z w fault done. done };

    ghost may_go_on = { MayGoOn };

    fn open<K: Sink>(&mut self, _out: &mut K) -> Result<(), Halt> {
        Ok(())
    }

    fn turn<K: Sink>(
        &mut self,
        table: &SkimTable,
        item: SkimItem,
        out: &mut K,
    ) -> Result<(), Halt> {
        let frame = self.frames + self.so_far;
        self.so_far = frames_so_far(table.earlier());
        match item {
            SkimItem::Sequence => self.keep_first(table),
            SkimItem::Repeated | SkimItem::Skipped => Ok(()),
            SkimItem::Picture => {
                if self.is_chosen(frame) {
                    self.picture(table, out)
                } else {
                    Ok(())
                }
            }
            SkimItem::SequenceEnd | SkimItem::End => {
                self.frames = frame;
                self.end(out)
            }
        }
    }

    fn finish<K: Sink>(
        &mut self,
        _table: &SkimTable,
        _item: SkimItem,
        out: &mut K,
    ) -> Result<CutEnding, Halt> {
        match self.close(out) {
            Ok(()) => {}
            Err(halt) => return Err(halt),
        }
        Ok(CutEnding {
            shapes: mem::replace(&mut self.shapes, UnitShapes::new(self.alloc)),
            refusal: None,
        })
    }

    fn rest<K: Sink>(&mut self, _table: &SkimTable, _out: &mut K) -> Result<CutEnding, Halt> {
        // A stream ends with a unit, so this never comes.
        Ok(CutEnding {
            shapes: UnitShapes::new(self.alloc),
            refusal: None,
        })
    }

    fn refuse<K: Sink>(
        &mut self,
        _table: &SkimTable,
        place: u64,
        reason: Reason,
        _out: &mut K,
    ) -> Result<CutEnding, Halt> {
        Ok(CutEnding {
            shapes: UnitShapes::new(self.alloc),
            refusal: Some(Refusal { place, reason }),
        })
    }

    ghost begins = { refl };

    ghost opens = { record { finished = λ z w unit bytes. tt; rested = λ z w. tt; refused = λ z w fault short. short } };
}

/// Cuts some frames out of a stream, from one up to another, which itself isn't one of them. Contracts see the frames, the
/// units that were written, and whether it has cut.
#[derive(Drop)]
pub struct Cutter {
    alloc: Global,
    from: u32,
    to: u32,
    shapes: UnitShapes,
    has_cut: bool,
}

impl Model for Cutter {
    ghost use Rattle.stream_cut.specs.Cutter.{CutterSeen};

    ghost Value = { CutterSeen };

    ghost view = { λ a. record { frames = record { from = a.from; to = a.to }; shapes = a.shapes.units; total = a.shapes.total; has_cut = a.has_cut } };
}

impl Cutter {
    /// A cutter of the frames from one up to another, which hasn't cut yet. Where the other isn't above it, no frame is chosen.
    pub fn new(alloc: Global, from: u32, to: u32) -> Result<Cutter, NoMemory>
        ensures new { IfOk result (IsNewCutter (record { from = from; to = to })) }
        ensures once { IfOk result (λ cutter. cutter.has_cut ≡ false) }
    {
        // Each cut has two units at least.
        let mut shapes = UnitShapes::new(alloc);
        shapes.reserve(2)?;
        Ok(Cutter {
            alloc,
            from,
            to,
            shapes,
            has_cut: false,
        })
    }

    // Runs over the units of a new reader.
    fn run<S: Source, K: Sink>(&self, src: &mut S, out: &mut K) -> Result<CutEnding, Halt>
        ensures runs { Runs (cut_machine self.now.frames) IsCutToTheEnd
            (change S.rest S.faults src.old src.new)
            (change K.written K.faults out.old out.new) result }
        ensures soon { Soon MayGoOn (cut_machine self.now.frames) READ_SIZE (S.rest src.old)
            (S.rest src.new) result }
    {
        match Reader::made(self.alloc, SkimTable::new(self.alloc)) {
            Ok(mut reader) => {
                let mut command = CutRun {
                    alloc: self.alloc,
                    from: self.from,
                    to: self.to,
                    frames: 0,
                    so_far: 0,
                    first: None,
                    previous: None,
                    shapes: UnitShapes::new(self.alloc),
                };
                let result = run_units(&mut reader, &mut command, src, out);
                drop(reader);
                drop(command);
                result
            }
            Err(_) => Err(Halt::NoMemory),
        }
    }

    /// Reads the stream to its end, and writes its cut: each chosen picture once its unit stands whole. The units that were
    /// written are kept where all is done; where it stops, they are those of before the call.
    pub fn cut<S: Source, K: Sink>(&mut self, src: &mut S, out: &mut K) -> Result<(), CutStop>
        requires { self.old.has_cut ≡ false }
        ensures runs { Runs (cut_machine self.old.frames) IsCutToTheEnd
            (change S.rest S.faults src.old src.new) (change K.written K.faults out.old out.new)
            (run_of self.new.shapes self.new.total result) }
        ensures soon { Soon MayGoOn (cut_machine self.old.frames) READ_SIZE (S.rest src.old)
            (S.rest src.new) (run_of self.new.shapes self.new.total result) }
        ensures kept { OnErr result ((self.new.shapes ≡ self.old.shapes)
            × (self.new.total ≡ self.old.total)) }
        ensures once { self.new.has_cut ≡ true }
        ensures frames { self.new.frames ≡ self.old.frames }
    {
        self.has_cut = true;
        let ending = match self.run(src, out) {
            Ok(ending) => ending,
            Err(Halt::ReadFault) => return Err(CutStop::ReadFault),
            Err(Halt::OutFault) => return Err(CutStop::OutFault),
            Err(Halt::NoMemory) => return Err(CutStop::NoMemory),
        };
        match ending.refusal {
            None => {
                self.shapes = ending.shapes;
                Ok(())
            }
            Some(refusal) => Err(CutStop::Refused(refusal)),
        }
    }

    /// The units that were written by a cut that is done; none before it and where it stopped.
    pub fn shapes(&self) -> &UnitShapes
        ensures units { result.now.units ≡ self.now.shapes }
        ensures total { result.now.total ≡ self.now.total }
    {
        &self.shapes
    }
}

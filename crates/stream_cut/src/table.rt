//! The table of the units of a stream that is skimmed.

ghost use Rattle.vc2_io.specs.declared.TheConstants.{INPUT_LIMIT, READ_SIZE};
ghost use Rattle.std.specs.Prelude.{◌≡◌, ◌+◌, ◌≤◌, ◌<◌, IfOk, refl, ℕ, List, Option, length};
ghost use Rattle.run_theory.specs.Begun.{Begun};
ghost use Rattle.unit_reader.specs.Stops.{StopCause};
ghost use Rattle.unit_reader.specs.Reading.{UnitOver};
ghost use Rattle.stream_cut.specs.Opening.{OpenOver, Opens};
ghost use Rattle.stream_cut.specs.declared.opening.Opening.TheVariants as openings;
ghost use Rattle.unit_reader.specs.Asking.{HaltCause};
ghost use Rattle.unit_reader.proofs.FewHeld.{few_held};
ghost use Rattle.stream_cut.specs.Keeping.{Kept, IsCutSlice};
ghost use Rattle.slice_geometry.specs.Slicing.{total_bytes};
ghost use Rattle.stream_rows.specs.declared.reason.Reason.TheVariants as reasons;
ghost use Rattle.stream_rows.proofs.Answering.{after-place};
ghost use Rattle.stream_cut.specs.Skim.{skim_grammar, skim_rows};
ghost use Rattle.stream_cut.specs.SkimGrammar.{skimmed_laws};
ghost use Rattle.stream_cut.specs.SkimTable.{first_shape, IsSkimFoundBy, TellsSkimUnit, KeepsSkimHeader};

use crate::opening::{Opening, PictureOpening, read_opening};
use sequence_header::SequenceHeader;
use slice_geometry::{Layout, UnitShape};
use std::alloc::Global;
use std::marker::Model;
use stream_reader::{Earlier, First, leads_behind};
use stream_rows::Reason;
use unit_reader::{After, Halt, ReadStop, Table, Units, Window, read_on, refused, stop_of};
use vc2_io::Source;

/// Names what earlier units of a stream leave, for contracts alone: none is made.
pub struct SkimPast {}

impl Model for SkimPast {
    ghost use Rattle.stream_rows.specs.Units.{Past, nothing_yet};

    ghost Value = { Past };

    ghost view = { λ a. nothing_yet };
}

/// Names what the rows of a unit make, for contracts alone: none is made.
pub struct SkimUnit {}

impl Model for SkimUnit {
    ghost use Rattle.stream_rows.specs.Units.{DataUnit, End};

    ghost Value = { DataUnit };

    ghost view = { λ a. End };
}

/// A unit that stands.
#[derive(Drop)]
pub(crate) enum Found {
    Sequence(First),
    Repeated,
    Picture(PictureFound),
    Skipped,
    End,
}

/// A picture that stands: its number, the bytes before the first slice, the slices, and the bytes of one as the fraction a / b.
#[derive(Clone, Copy, Drop)]
pub(crate) struct PictureFound {
    pub number: u32,
    pub head: u32,
    pub slices: u32,
    pub a: u32,
    pub b: u32,
}

/// A unit as it is told.
#[derive(Clone, Copy, Debug, PartialEq, Eq, Drop)]
pub enum SkimItem {
    /// The first header of a sequence.
    Sequence,
    /// The same header once more.
    Repeated,
    /// A picture.
    Picture,
    /// Auxiliary data or padding.
    Skipped,
    /// The end of a sequence, behind which another one follows.
    SequenceEnd,
    /// The end of the last sequence, behind which nothing is left.
    End,
}

// Moves so many bytes behind those that are kept, in pieces; says whether they were there. The memory grows with the bytes.
pub(crate) fn keep<S: Source>(
    window: &mut Window,
    src: &mut S,
    count: u64,
    kept: &mut Vec<u8>,
) -> Result<bool, Halt>
    ensures moved { Kept count window.old window.new (S.rest src.old)
        (S.rest src.new) kept.old.items kept.new.items result }
    ensures few { length window.old.held ≤ 8192 → length window.new.held ≤ 8192 }
    ensures cause { HaltCause (S.faults src.old) (S.faults src.new) result }
{
    let mut left = count;
    while (window.len() as u64) < left {
        let piece = window.len();
        match kept.extend_from_slice(window.front(piece)) {
            Ok(()) => {}
            Err(_) => return Err(Halt::NoMemory),
        }
        window.advance(piece);
        left -= piece as u64;
        match window.hold(src, 1) {
            Ok(true) => {}
            Ok(false) => return Ok(false),
            Err(halt) => return Err(halt),
        }
    }
    match kept.extend_from_slice(window.front(left as usize)) {
        Ok(()) => {}
        Err(_) => return Err(Halt::NoMemory),
    }
    window.advance(left as usize);
    Ok(true)
}

// The place in the slices where the first slice begins that isn't whole in so many of their bytes.
fn cut_slice(layout: &Layout, there: u64) -> u64
    requires { there < total_bytes layout.now }
    ensures { IsCutSlice layout.now there result }
{
    let mut at = 0;
    for n in 0..layout.count() {
        let next = at + u64::from(layout.share(n));
        if next > there {
            return at;
        }
        at = next;
    }
    at
}

// Reads until the beginning of the unit stands in front of the bytes that are held, and gives it with its length.
fn open<S: Source>(
    window: &mut Window,
    src: &mut S,
    earlier: &Earlier,
) -> Result<(Opening, usize), ReadStop<Reason>>
    requires place { earlier.now.place + length window.old.held + window.old.room ≡ INPUT_LIMIT }
    requires few { length window.old.held ≤ READ_SIZE }
    ensures unit { (held0 : List ℕ) (rest0 : Option (List ℕ))
        → Begun skim_grammar earlier.now held0 rest0
        (S.rest src.old) earlier.now.place window.old.held
        (skim_rows earlier.now)
        → OpenOver earlier.now held0 rest0 (S.rest src.new) window.new result }
    ensures opened { IfOk result (λ x. Opens earlier.now window.new.held x.0 x.1) }
    ensures room { length window.new.held + window.new.room
        ≡ length window.old.held + window.old.room }
    ensures few { length window.new.held ≤ 8192 }
    ensures cause { StopCause (S.faults src.old) (S.faults src.new) result }
{
    loop {
        let held = window.len();
        let refusal = match read_opening(earlier, window.front(held)) {
            Ok(read) => return Ok(read),
            Err(refusal) => refusal,
        };
        if !refusal.reason.is_truncated() {
            return Err(ReadStop::Refused(refusal));
        }
        match read_on::<SkimTable, S>(window, src, refusal) {
            Ok(()) => {}
            Err(stop) => return Err(stop),
        }
    }
}

/// What the units of a stream so far leave, the header that was read last, the last header's or picture's unit, and the
/// shape of the last picture.
#[derive(Drop)]
pub(crate) struct SkimTable {
    alloc: Global,
    earlier: Earlier,
    header: Option<SequenceHeader>,
    unit: Vec<u8>,
    shape: UnitShape,
}

impl Model for SkimTable {
    ghost use Rattle.stream_cut.specs.SkimTable.{SkimTableSeen};

    ghost Value = { SkimTableSeen };

    ghost view = { λ a. record { past = a.earlier; header = a.header; unit = a.unit.items; shape = a.shape } };
}

impl SkimTable {
    ghost use Rattle.std.specs.Prelude.{◌≡◌, ◌↔◌, OnOk, OnErr, Err, take, drop, IfSome, IsNone, Some, None, []};
    ghost use Rattle.unit_reader.specs.declared.stop.ReadStop.{ReadStop};
    ghost use Rattle.unit_reader.specs.declared.stop.ReadStop.TheVariants as stops;
    ghost use Rattle.stream_rows.specs.declared.reason.Reason.{Reason};
    ghost use Rattle.stream_rows.specs.Units.{nothing_yet};

    /// Before the first unit.
    pub fn new(alloc: Global) -> SkimTable
        ensures past { result.past ≡ nothing_yet }
        ensures header { result.header ≡ None }
        ensures unit { result.unit ≡ [] }
        ensures shape { result.shape ≡ first_shape }
    {
        SkimTable {
            alloc,
            earlier: Earlier::new(),
            header: None,
            unit: Vec::new(alloc),
            shape: UnitShape {
                start: 0,
                head: 0,
                slices: 0,
                a: 1,
                b: 1,
            },
        }
    }

    pub fn earlier(&self) -> &Earlier
        ensures { result.now ≡ self.now.past }
    {
        &self.earlier
    }

    pub fn header(&self) -> Option<&SequenceHeader>
        ensures some { IfSome result (λ header. self.now.header ≡ Some header.now) }
        ensures none { IsNone result ↔ (self.now.header ≡ None) }
    {
        self.header.as_ref()
    }

    pub fn unit(&self) -> &[u8]
        ensures { result.now ≡ self.now.unit }
    {
        self.unit.as_slice()
    }

    pub fn shape(&self) -> UnitShape
        ensures { result ≡ self.now.shape }
    {
        self.shape
    }

    // Keeps the first bytes that are held, and no others.
    fn keep_front(&mut self, window: &mut Window, size: usize) -> Result<(), ReadStop<Reason>>
        requires { size ≤ length window.old.held }
        ensures past { self.new.past ≡ self.old.past }
        ensures header { self.new.header ≡ self.old.header }
        ensures shape { self.new.shape ≡ self.old.shape }
        ensures room { window.new.room ≡ window.old.room }
        ensures ok { OnOk result ((self.new.unit ≡ take size window.old.held)
            × (window.new.held ≡ drop size window.old.held)) }
        ensures err { OnErr result (window.new.held ≡ window.old.held) }
        ensures stop { (stop : ReadStop Reason) → result ≡ Err stop → stop ≡ stops.NoMemory }
    {
        self.unit.clear();
        match self.unit.extend_from_slice(window.front(size)) {
            Ok(()) => {}
            Err(_) => return Err(ReadStop::NoMemory),
        }
        window.advance(size);
        Ok(())
    }

    // The first header of a sequence, which is kept with its payload.
    fn first(
        &mut self,
        window: &mut Window,
        header: SequenceHeader,
        size: usize,
    ) -> Result<Found, ReadStop<Reason>>
        requires opened { Opens self.old.past window.old.held (openings.Sequence header) size }
        requires least { 13 ≤ size }
        requires most { size ≤ 525 }
        requires inside { size ≤ length window.old.held }
        requires few { length window.old.held ≤ 8192 }
        requires place { self.old.past.place + length window.old.held + window.old.room
            ≡ INPUT_LIMIT }
        ensures unit { (held0 : List ℕ) (rest0 rest1 : Option (List ℕ))
            → Begun skim_grammar self.old.past held0 rest0 rest1 self.old.past.place window.old.held
            (skim_rows self.old.past)
            → UnitOver skim_grammar (IsSkimFoundBy self.old self.new)
            (λ held0 rest0 held stop. KeepsSkimHeader self.old self.new held) self.old.past held0
            rest0 rest1 window.new result }
        ensures past { self.new.past ≡ self.old.past }
        ensures stop { (stop : ReadStop Reason) → result ≡ Err stop → stop ≡ stops.NoMemory }
    {
        let mut payload = Vec::new(self.alloc);
        match payload.extend_from_slice(&window.front(size)[13..]) {
            Ok(()) => {}
            Err(_) => return Err(ReadStop::NoMemory),
        }
        self.keep_front(window, size)?;
        Ok(Found::Sequence(First::new(header, payload)))
    }

    // The slices of a picture, and the check behind them.
    fn picture<S: Source>(
        &mut self,
        window: &mut Window,
        src: &mut S,
        picture: PictureOpening,
        size: usize,
    ) -> Result<Found, ReadStop<Reason>>
        requires opened { Opens self.old.past window.old.held (openings.Picture picture) size }
        requires few { length window.old.held ≤ 8192 }
        requires place { self.old.past.place + length window.old.held + window.old.room
            ≡ INPUT_LIMIT }
        ensures unit { (held0 : List ℕ) (rest0 : Option (List ℕ))
            → Begun skim_grammar self.old.past held0 rest0
            (S.rest src.old) self.old.past.place window.old.held (skim_rows self.old.past)
            → UnitOver skim_grammar (IsSkimFoundBy self.old self.new)
            (λ held0 rest0 held stop. KeepsSkimHeader self.old self.new held) self.old.past held0
            rest0 (S.rest src.new) window.new result }
        ensures past { self.new.past ≡ self.old.past }
        ensures cause { StopCause (S.faults src.old) (S.faults src.new) result }
    {
        self.keep_front(window, size)?;
        let place = self.earlier.place();
        let layout = picture.params.layout;
        let slices = layout.count();
        let total = layout.total_bytes();
        match keep(window, src, u64::from(total), &mut self.unit) {
            Ok(true) => {}
            Ok(false) => {
                let there = (self.unit.len() - size) as u64;
                let at = place + size as u64 + cut_slice(&layout, there);
                return Err(refused(at, Reason::Truncated));
            }
            Err(halt) => return Err(stop_of(halt)),
        }
        if !leads_behind(picture.next, size as u64 + u64::from(total)) {
            return Err(refused(place + 5, Reason::OffsetWrong));
        }
        Ok(Found::Picture(PictureFound {
            number: picture.number,
            head: size as u32,
            slices,
            a: layout.a(),
            b: layout.b(),
        }))
    }

    // The payload of auxiliary data or padding, which isn't kept.
    fn skipped<S: Source>(
        &self,
        window: &mut Window,
        src: &mut S,
        next: u32,
        size: usize,
    ) -> Result<Found, ReadStop<Reason>>
        requires opened { Opens self.now.past window.old.held (openings.Skipped next) size }
        requires place { self.now.past.place + length window.old.held + window.old.room
            ≡ INPUT_LIMIT }
        ensures unit { (held0 : List ℕ) (rest0 : Option (List ℕ))
            → Begun skim_grammar self.now.past held0 rest0
            (S.rest src.old) self.now.past.place window.old.held (skim_rows self.now.past)
            → UnitOver skim_grammar (IsSkimFoundBy self.now self.now)
            (λ held0 rest0 held stop. KeepsSkimHeader self.now self.now held) self.now.past held0
            rest0 (S.rest src.new) window.new result }
        ensures cause { StopCause (S.faults src.old) (S.faults src.new) result }
    {
        window.advance(size);
        match window.skip(src, next.saturating_sub(13) as u64) {
            Ok(true) => Ok(Found::Skipped),
            Ok(false) => Err(refused(self.earlier.place() + 13, Reason::Truncated)),
            Err(halt) => Err(stop_of(halt)),
        }
    }
}

impl Units for SkimTable {
    type Reason = Reason;

    type Past = SkimPast;

    type Made = SkimUnit;

    ghost grammar = { skim_grammar };

    ghost past = { λ table. table.past };

    ghost beyond = { reasons.StreamTooLong };

    fn is_short(reason: Reason) -> bool {
        reason.is_truncated()
    }

    fn too_long() -> Reason {
        Reason::StreamTooLong
    }

    ghost laws = { skimmed_laws };

    ghost along = { after-place };
}

impl Table for SkimTable {
    type Found = Found;

    type Item = SkimItem;

    ghost is_found = { IsSkimFoundBy };

    ghost tells = { TellsSkimUnit };

    ghost stopped = { λ before now held0 rest0 held stop. KeepsSkimHeader before now held };

    ghost stops_before = { λ table held0 rest0 held stop few. record { header = refl; shape = refl; few = few_held held few } };

    ghost stops_otherwise = { λ before now held0 rest0 held refusal stop h. h };

    ghost stops_behind = { λ before now found unit bytes held0 rest0 held stop is final few. record { header = is.header; shape = is.shape; few = few_held held few } };

    fn place(&self) -> u64 {
        self.earlier.place()
    }

    fn rests(&self) -> bool {
        false
    }

    fn behind(&self, found: &Found) -> After {
        match found {
            Found::End => After::Final,
            _ => After::Inner,
        }
    }

    fn unit<S: Source>(
        &mut self,
        window: &mut Window,
        src: &mut S,
    ) -> Result<Found, ReadStop<Reason>> {
        let (opening, size) = open(window, src, &self.earlier)?;
        match opening {
            Opening::Sequence(header) => self.first(window, header, size),
            Opening::Repeated => {
                self.keep_front(window, size)?;
                Ok(Found::Repeated)
            }
            Opening::Picture(picture) => self.picture(window, src, picture, size),
            Opening::Skipped(next) => self.skipped(window, src, next, size),
            Opening::End => {
                window.advance(size);
                Ok(Found::End)
            }
        }
    }

    fn step(&mut self, found: Found, size: u64) -> SkimItem {
        let size = size as u32;
        match found {
            Found::Sequence(first) => {
                self.header = Some(*first.header());
                self.earlier.step_first(first, size);
                SkimItem::Sequence
            }
            Found::Repeated => {
                self.earlier.step(size);
                SkimItem::Repeated
            }
            Found::Picture(picture) => {
                self.shape = UnitShape {
                    start: self.earlier.place(),
                    head: u64::from(picture.head),
                    slices: picture.slices,
                    a: picture.a,
                    b: picture.b,
                };
                self.earlier.step_picture(picture.number, size);
                SkimItem::Picture
            }
            Found::Skipped => {
                self.earlier.step(size);
                SkimItem::Skipped
            }
            Found::End => {
                self.earlier.step_end(size);
                SkimItem::SequenceEnd
            }
        }
    }
}

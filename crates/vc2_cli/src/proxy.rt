// The command `proxy`.
ghost use Rattle.vc2_io.specs.declared.TheConstants.{READ_SIZE};
ghost use Rattle.std.specs.Prelude.{◌≡◌, ◌≤◌, ℕ, Some, List, refl, OnOk, OnErr, IfOk};
ghost use Rattle.std.specs.Io.KnownBytes.{Appends};
ghost use Rattle.vc2_io.specs.Outside.{HasCause, GrewShort};
ghost use Rattle.run_theory.specs.Ran.{HaltHasCause};
ghost use Rattle.slice_geometry.specs.Frames.{frame_of};
ghost use Rattle.transform_params.specs.Views.{params_of};
ghost use Rattle.picture_codec.specs.Decoding.{AllCanSynthesise, HoldUnit};
ghost use Rattle.raw_video.specs.RawText.{raw_text};
ghost use Rattle.stream_rows.specs.Units.{DataUnit, nothing_yet};
ghost use Rattle.stream_reader.specs.Turns.{HasAllSlices};
ghost use Rattle.stream_reader.specs.Reader.{IsTakerOf};
ghost use Rattle.proxy_picture.specs.Proxy.{proxy_frame, proxy_picture};
ghost use Rattle.proxy_picture.specs.Making.{reduced_picture};
ghost use Rattle.run_theory.specs.Runs.{change, Runs, WritesText};
ghost use Rattle.vc2_cli.specs.Endings.{IsDone, MayEndOtherwise};
ghost use Rattle.unit_reader.specs.Soon.{Soon};
ghost use Rattle.vc2_cli.specs.Proxy.{Proxied, nothing_proxied, proxying_any, proxy_machine, proxy_text, KeepsWhole, MakesProxiesOf};

use crate::decode::{decoder_of, write_shown};
use crate::status::{Ending, Note};
use picture_codec::{DecodedBands, PictureDecoder};
use planes::NoMemory;
use proxy_picture::ProxyDecoder;
use raw_video::write_picture;
use run_theory::Halt;
use slice_geometry::PictureShape;
use std::alloc::Global;
use stream_units::{Item, Reason, Refusal, StreamTable};
use transform_params::TransformParams;
use unit_reader::{Reader, UnitCommand, run_units};
use vc2_io::{Failed, Sink, Source};

// A maker of the proxies of pictures of this shape and with these parameters: the one that is kept, or else a new one.
fn ready(
    alloc: Global,
    kept: &mut Option<ProxyDecoder>,
    shape: &PictureShape,
    params: &TransformParams,
    level: u32,
) -> Result<ProxyDecoder, NoMemory>
    ensures { IfOk result (MakesProxiesOf shape.now (params_of params.now) level) }
{
    if let Some(maker) = kept.take() {
        if *maker.shape() == *shape && *maker.params() == *params && maker.level() == level {
            return Ok(maker);
        }
        drop(maker);
    }
    ProxyDecoder::new(alloc, shape, params, level)
}

// Makes a proxy of these bands, and writes its raw text.
fn write_made<K: Sink>(
    out: &mut K,
    maker: &mut ProxyDecoder,
    bands: &DecodedBands,
) -> Result<(), Failed>
    requires { AllCanSynthesise maker.old.params.slicing maker.old.shape bands.now }
    ensures ok { OnOk result (Appends (K.written out.old) (K.written out.new)
        (raw_text (proxy_frame (frame_of maker.old.shape) maker.old.params maker.old.level)
        (reduced_picture maker.old bands.now))) }
    ensures err { OnErr result (GrewShort (K.written out.old) (K.written out.new)
        (raw_text (proxy_frame (frame_of maker.old.shape) maker.old.params maker.old.level)
        (reduced_picture maker.old bands.now))) }
    ensures cause { HasCause (K.faults out.old) (K.faults out.new) result }
    ensures unit { (slices : List (List ℕ))
        → HoldUnit (frame_of maker.old.shape) maker.old.params slices bands.now
        → reduced_picture maker.old bands.now
        ≡ proxy_picture (frame_of maker.old.shape) maker.old.params maker.old.level slices }
{
    write_picture(out, maker.make(bands))
}

// Writes the raw text of the proxy of the picture that the decoder took.
fn write_proxy<K: Sink>(
    alloc: Global,
    out: &mut K,
    kept: &mut Option<ProxyDecoder>,
    level: u32,
    decoder: &PictureDecoder,
) -> Result<(), Halt>
    requires { HasAllSlices decoder.now }
    ensures wrote { (unit : DataUnit) → IsTakerOf unit (Some decoder.now)
        → WritesText (proxy_text level unit) (K.written out.old) (K.written out.new) result }
    ensures cause { HaltHasCause 0 0 (K.faults out.old) (K.faults out.new) result }
{
    let mut maker = match ready(alloc, kept, decoder.shape(), decoder.params(), level) {
        Ok(maker) => maker,
        Err(_) => return Err(Halt::NoMemory),
    };
    let result = write_made(out, &mut maker, decoder.bands());
    drop(kept.replace(maker));
    match result {
        Ok(()) => Ok(()),
        Err(_) => Err(Halt::OutFault),
    }
}

/// The level that is asked for, the maker of proxies, and how many pictures there were.
#[derive(Drop)]
struct Proxying {
    alloc: Global,
    level: u32,
    maker: Option<ProxyDecoder>,
    pictures: u64,
}

impl UnitCommand<StreamTable> for Proxying {
    type Ending = Ending;

    ghost Own = { Proxied };

    ghost command = { proxying_any };

    ghost first = { nothing_yet };

    ghost own = { λ c t. record { level = c.level; pictures = c.pictures } };

    ghost start = { λ c. nothing_proxied c.level };

    ghost keeps = { λ c t. c.pictures ≤ t.past.place };

    ghost is_done = { IsDone };

    ghost refused_is_no_end = { λ z w fault done. done };

    ghost may_go_on = { MayEndOtherwise };

    fn open<K: Sink>(&mut self, _out: &mut K) -> Result<(), Halt> {
        Ok(())
    }

    fn turn<K: Sink>(&mut self, table: &StreamTable, item: Item, out: &mut K) -> Result<(), Halt> {
        let decoder = match decoder_of(table, item) {
            Some(decoder) => decoder,
            None => return Ok(()),
        };
        match write_proxy(self.alloc, out, &mut self.maker, self.level, decoder) {
            Ok(()) => {}
            Err(halt) => return Err(halt),
        }
        self.pictures += 1;
        Ok(())
    }

    fn finish<K: Sink>(
        &mut self,
        table: &StreamTable,
        _item: Item,
        _out: &mut K,
    ) -> Result<Ending, Halt> {
        Ok(Ending::Done(Note::Decoded {
            pictures: self.pictures,
            bytes: table.earlier().place(),
        }))
    }

    fn rest<K: Sink>(&mut self, _table: &StreamTable, _out: &mut K) -> Result<Ending, Halt> {
        // A stream ends with a unit, so this never comes.
        Ok(Ending::Done(Note::Nothing))
    }

    fn refuse<K: Sink>(
        &mut self,
        _table: &StreamTable,
        place: u64,
        reason: Reason,
        _out: &mut K,
    ) -> Result<Ending, Halt> {
        Ok(Ending::Refused(Refusal { place, reason }))
    }

    ghost begins = { refl };

    ghost opens = { record { finished = λ z w unit bytes. tt; rested = λ z w. tt; refused = λ z w fault short. short } };
}

// The proxies of pictures that may have more levels than are asked for.
fn lower_proxies<S: Source, K: Sink>(
    alloc: Global,
    level: u32,
    src: &mut S,
    out: &mut K,
) -> Result<Ending, Halt>
    ensures runs { Runs (proxy_machine level) IsDone (change S.rest S.faults src.old src.new)
        (change K.written K.faults out.old out.new) result }
    ensures soon { Soon MayEndOtherwise (proxy_machine level) READ_SIZE (S.rest src.old)
        (S.rest src.new) result }
{
    match Reader::made(alloc, StreamTable::new(alloc, false)) {
        Ok(mut reader) => {
            let mut command = Proxying {
                alloc,
                level,
                maker: None,
                pictures: 0,
            };
            let result = run_units(&mut reader, &mut command, src, out);
            drop(reader);
            drop(command);
            result
        }
        Err(_) => Err(Halt::NoMemory),
    }
}

/// The level that is asked for, which no picture passes, and how many pictures there were.
#[derive(Drop)]
struct WholeProxying {
    level: u32,
    pictures: u64,
}

impl UnitCommand<StreamTable> for WholeProxying {
    type Ending = Ending;

    ghost Own = { Proxied };

    ghost command = { proxying_any };

    ghost first = { nothing_yet };

    ghost own = { λ c t. record { level = c.level; pictures = c.pictures } };

    ghost start = { λ c. nothing_proxied c.level };

    ghost keeps = { λ c t. KeepsWhole c.level c.pictures t };

    ghost is_done = { IsDone };

    ghost refused_is_no_end = { λ z w fault done. done };

    ghost may_go_on = { MayEndOtherwise };

    fn open<K: Sink>(&mut self, _out: &mut K) -> Result<(), Halt> {
        Ok(())
    }

    fn turn<K: Sink>(&mut self, table: &StreamTable, item: Item, out: &mut K) -> Result<(), Halt> {
        let decoder = match decoder_of(table, item) {
            Some(decoder) => decoder,
            None => return Ok(()),
        };
        // The picture is its own proxy where all its levels are asked for.
        match write_shown(out, decoder) {
            Ok(()) => {}
            Err(_) => return Err(Halt::OutFault),
        }
        self.pictures += 1;
        Ok(())
    }

    fn finish<K: Sink>(
        &mut self,
        table: &StreamTable,
        _item: Item,
        _out: &mut K,
    ) -> Result<Ending, Halt> {
        Ok(Ending::Done(Note::Decoded {
            pictures: self.pictures,
            bytes: table.earlier().place(),
        }))
    }

    fn rest<K: Sink>(&mut self, _table: &StreamTable, _out: &mut K) -> Result<Ending, Halt> {
        // A stream ends with a unit, so this never comes.
        Ok(Ending::Done(Note::Nothing))
    }

    fn refuse<K: Sink>(
        &mut self,
        _table: &StreamTable,
        place: u64,
        reason: Reason,
        _out: &mut K,
    ) -> Result<Ending, Halt> {
        Ok(Ending::Refused(Refusal { place, reason }))
    }

    ghost begins = { refl };

    ghost opens = { record { finished = λ z w unit bytes. tt; rested = λ z w. tt; refused = λ z w fault short. short } };
}

// The proxies of pictures that have no more levels than are asked for: the table makes the pictures whole, as for `decode`.
fn whole_proxies<S: Source, K: Sink>(
    alloc: Global,
    level: u32,
    src: &mut S,
    out: &mut K,
) -> Result<Ending, Halt>
    requires { 4 ≤ level }
    ensures runs { Runs (proxy_machine level) IsDone (change S.rest S.faults src.old src.new)
        (change K.written K.faults out.old out.new) result }
    ensures soon { Soon MayEndOtherwise (proxy_machine level) READ_SIZE (S.rest src.old)
        (S.rest src.new) result }
{
    match Reader::made(alloc, StreamTable::new(alloc, true)) {
        Ok(mut reader) => {
            let mut command = WholeProxying { level, pictures: 0 };
            let result = run_units(&mut reader, &mut command, src, out);
            drop(reader);
            result
        }
        Err(_) => Err(Halt::NoMemory),
    }
}

/// Writes the raw text of the proxy of each picture, once its unit is accepted whole.
pub(crate) fn proxy<S: Source, K: Sink>(
    alloc: Global,
    level: u32,
    src: &mut S,
    out: &mut K,
) -> Result<Ending, Halt>
    ensures runs { Runs (proxy_machine level) IsDone (change S.rest S.faults src.old src.new)
        (change K.written K.faults out.old out.new) result }
    ensures soon { Soon MayEndOtherwise (proxy_machine level) READ_SIZE (S.rest src.old)
        (S.rest src.new) result }
{
    // No picture has more than four levels.
    if level >= 4 {
        whole_proxies(alloc, level, src, out)
    } else {
        lower_proxies(alloc, level, src, out)
    }
}

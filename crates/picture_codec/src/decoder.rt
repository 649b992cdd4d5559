//! The decoder of pictures.

ghost use Rattle.std.specs.Prelude.{◌≡◌, ◌≢◌, ℕ, List, length, IfOk, MatchResult, false, None, Some};
ghost use Rattle.transform_params.specs.Views.{params_of};
ghost use Rattle.slice_geometry.specs.Frames.{frame_of};
ghost use Rattle.picture_codec.specs.Samples.{picture_of};
ghost use Rattle.picture_codec.specs.Decoding.{IsNewDecoder, IsTaken, IsSliceRefused, HasTaken, AllCanSynthesise, HoldUnit, synthesised_picture, wanted_of};

use crate::decoded_bands::DecodedBands;
use crate::picture::Picture;
use crate::workspace::SynthesisRooms;
use planes::NoMemory;
use slice_decoder::SliceFault;
use slice_geometry::{Component, PictureShape};
use std::alloc::Global;
use std::marker::Model;
use transform_params::TransformParams;

/// Makes pictures of slices, which come to it in order. Contracts see its bands, the number of its next slice, whether
/// it refused a slice, and the picture that it finished.
///
/// All memory is taken in `new`: about 14 bytes a sample for the subbands in 16, 32 and 64 bits, 2 for rows that slices of 16
/// bits are gathered in, 11 for the rooms of synthesis in these widths, and 2 for the picture. C1 and C2 share their rooms. What
/// serves 32 or 64 bits alone isn't touched before a slice needs it.
#[derive(Drop)]
pub struct PictureDecoder {
    params: TransformParams,
    bands: DecodedBands,
    rooms: SynthesisRooms,
    picture: Picture,
    next: u32,
    refused: bool,
    finished: bool,
}

impl Model for PictureDecoder {
    ghost use Rattle.std.specs.Prelude.{if◌then◌else◌, None, Some};
    ghost use Rattle.transform_params.specs.Views.{params_of};
    ghost use Rattle.picture_codec.specs.Decoding.{PictureDecoderSeen, IsDecoderSound};

    ghost Value = { PictureDecoderSeen };

    ghost view = { λ d. record {
      shape = d.picture.shape;
      params = params_of d.params;
      bands = d.bands;
      next = d.next;
      refused = d.refused;
      picture = if d.finished then Some d.picture.samples else None;
    } };

    ghost invariant = { λ d. IsDecoderSound d.params.layout d.picture.shape d.next d.bands d.rooms };
}

impl PictureDecoder {
    ghost use Rattle.std.specs.Prelude.{⊤};
    ghost use Rattle.std.specs.Borrow.{sem, follows_so};
    ghost use mathlib.Core.Option.{none};
    ghost use Rattle.picture_codec.specs.contracts.decoder.PictureDecoder.{the_row};

    /// A decoder of pictures of this shape. It has no bands but zeros.
    pub fn new(
        alloc: Global,
        shape: &PictureShape,
        params: &TransformParams,
    ) -> Result<PictureDecoder, NoMemory>
        ensures { IfOk result (IsNewDecoder shape.now (params_of params.now)) }
    {
        let layout = &params.layout;
        let picture = Picture::new(alloc, shape)?;
        let bands = DecodedBands::new(alloc, layout, shape)?;
        match SynthesisRooms::new(alloc, layout, shape) {
            Ok(rooms) => Ok(PictureDecoder {
                params: *params,
                bands,
                rooms,
                picture,
                next: 0,
                refused: false,
                finished: false,
            }),
            Err(NoMemory) => {
                // By name, since the proof would else take them apart field by field.
                drop(bands);
                drop(picture);
                Err(NoMemory)
            }
        }
    }

    /// The shape of its pictures.
    pub fn shape(&self) -> &PictureShape
        ensures { result.now ≡ self.now.shape }
    {
        self.picture.shape()
    }

    /// The transform parameters of its pictures.
    pub fn params(&self) -> &TransformParams
        ensures { params_of result.now ≡ self.now.params }
    {
        &self.params
    }

    /// The bytes of the next slice, and none exactly after the last.
    pub fn wanted(&self) -> Option<u32>
        requires { self.now.refused ≡ false }
        ensures { result ≡ wanted_of self.now }
    {
        if self.next < self.params.layout.count() {
            Some(self.params.layout.share(self.next))
        } else {
            None
        }
    }

    /// Takes the next slice, whose length is the wanted one. After a refusal only `restart` may be called.
    pub fn slice(&mut self, bytes: &[u8]) -> Result<(), SliceFault>
        requires unrefused { self.old.refused ≡ false }
        requires wanted { Some (length bytes.now) ≡ wanted_of self.old }
        ensures { MatchResult result (λ _. IsTaken bytes.now self.old self.new)
            (λ fault. IsSliceRefused bytes.now fault self.old self.new) }
    {
        let (params, shape) = (self.params, *self.picture.shape());
        let across = params.layout.slices_x();
        let (sx, sy) = (self.next % across, self.next / across);
        match self.bands.decode(&params, &shape, sx, sy, bytes) {
            Ok(_) => {
                self.next += 1;
                Ok(())
            }
            Err(fault) => {
                self.refused = true;
                Err(fault)
            }
        }
    }

    /// The bands of the slices, all of which were taken, before `finish` and behind it.
    pub fn bands(&self) -> &DecodedBands
        requires unrefused { self.now.refused ≡ false }
        requires whole { wanted_of self.now ≡ None }
        ensures value { result.now ≡ self.now.bands }
        ensures ready { AllCanSynthesise self.now.params.slicing self.now.shape result.now }
        ensures unit { (slices : List (List ℕ)) → HasTaken slices self.now
            → HoldUnit (frame_of self.now.shape) self.now.params slices result.now }
    {
        // The rules of a layout.
        let _ = self.params.layout.depth();
        &self.bands
    }

    // Makes the picture of the slices, all of which were taken.
    fn synthesise(&mut self)
        requires unrefused { self.old.refused ≡ false }
        requires whole { wanted_of self.old ≡ None }
        ensures state { self.new ≡ record self.old
            { picture = Some (synthesised_picture self.old) } }
        ensures unit { (slices : List (List ℕ)) → HasTaken slices self.old
            → synthesised_picture self.old
            ≡ picture_of (frame_of self.old.shape) self.old.params slices }
    {
        let params = self.params;
        self.bands.show(
            Component::Luma,
            &params,
            &mut self.rooms.luma,
            &mut self.picture,
        );
        self.bands.show(
            Component::C1,
            &params,
            &mut self.rooms.colour,
            &mut self.picture,
        );
        self.bands.show(
            Component::C2,
            &params,
            &mut self.rooms.colour,
            &mut self.picture,
        );
        self.finished = true;
    }

    /// Makes the picture of the slices, all of which were taken, and lends it.
    pub fn finish(&mut self) -> &Picture
        requires unrefused { self.old.refused ≡ false }
        requires whole { wanted_of self.old ≡ None }
        ensures shape { result.now.shape ≡ self.old.shape }
        ensures samples { result.now.samples ≡ synthesised_picture self.old }
        ensures* after { sem 𝓛 (follows_so the_row the_row self.entry.ghost_name none (λ _ _. ⊤)
            (λ v. v ≡ record self.old { picture = Some result.now.samples })) }
        ensures unit { (slices : List (List ℕ)) → HasTaken slices self.old
            → synthesised_picture self.old
            ≡ picture_of (frame_of self.old.shape) self.old.params slices }
    {
        self.synthesise();
        &self.picture
    }

    /// The picture that `finish` gave since the decoder was made or last restarted.
    pub fn picture(&self) -> &Picture
        requires { self.now.picture ≢ None }
        ensures shape { result.now.shape ≡ self.now.shape }
        ensures samples { Some result.now.samples ≡ self.now.picture }
    {
        &self.picture
    }

    /// Makes the first slice the next one, and leaves the bands.
    pub fn restart(&mut self)
        ensures { self.new ≡ record self.old { next = 0; refused = false; picture = None } }
    {
        self.bands.settle();
        self.next = 0;
        self.refused = false;
        self.finished = false;
    }
}

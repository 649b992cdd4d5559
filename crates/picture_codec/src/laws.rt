//! Laws of pictures.

ghost use Rattle.std.specs.Prelude.{◌≡◌, ◌<◌, ℕ, List, [], ◌∷◌, ◌++◌};
ghost use Rattle.slice_geometry.specs.Slicing.{IsAllowed, slice_count};
ghost use Rattle.picture_codec.specs.Decoding.{PictureDecoderSeen, HasTaken, IsTaken};
ghost use Rattle.picture_codec.specs.LeastIndices.{EachHasOneChoice, EachIsGiven};

/// A decoder whose first slice is the next one, whatever its bands hold, has taken no slice; and one more slice is taken
/// behind those so far. So, by the last clause of `finish`, a decoder that took all slices of a unit in order makes the
/// picture of the unit.
pub fn slices_in_order()
    ensures start { (d : PictureDecoderSeen) → d.next ≡ 0 → HasTaken [] d }
    ensures step { (slices : List (List ℕ)) (bytes : List ℕ) (old new : PictureDecoderSeen)
        → IsAllowed old.params.slicing
        → old.next < slice_count old.params.slicing → HasTaken slices old → IsTaken bytes old new
        → HasTaken (slices ++ bytes ∷ []) new }
{}

/// Where the parameters pass, each slice of a picture takes the least index at which it fits after the slices before it, and no
/// other indices are so.
pub fn each_has_one_choice()
    ensures { EachHasOneChoice }
{}

/// Where the parameters pass, the coefficients of a picture have the sizes and the magnitudes that writing its slices asks
/// for.
pub fn each_is_given()
    ensures { EachIsGiven }
{}

//! Laws of the definitions. Each function does nothing; its contract is the law.

ghost use Rattle.slice_geometry.specs.SliceLaws.{SharesSumToTheWhole, EachShareIsAtLeastOne, EachPlaceIsHeld, NoPlaceIsShared};

/// The bytes of the slices sum to the whole, and each slice has at least one.
pub fn shares_sum_to_the_whole()
    ensures whole { SharesSumToTheWhole }
    ensures some { EachShareIsAtLeastOne }
{}

/// Each place of a subband lies in the rectangle of exactly one slice.
pub fn each_place_lies_in_one_slice()
    ensures held { EachPlaceIsHeld }
    ensures alone { NoPlaceIsShared }
{}

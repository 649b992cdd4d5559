//! Laws of the definitions. Each function does nothing; its contract is the law.

ghost use Rattle.std.specs.Prelude.{◌≡◌, ℕ};
ghost use Rattle.planes.specs.Raster.{Grid};
ghost use Rattle.slice_encoder.specs.Loop.{PlaceRule, IsMade, made};
ghost use Rattle.slice_encoder.specs.Tries.{TrialsGoOn};
ghost use Rattle.slice_encoder.specs.Ready.{NextIsReady};
ghost use Rattle.slice_encoder.specs.Trials.{Lists};
ghost use Rattle.slice_encoder.specs.TrialLaws.{EarlierIndicesAlone, RestoredStaysNear, CoarsestFits, HasOneLeast};
ghost use Rattle.slice_encoder.specs.LowNeeds.{LowerIsNoGreater, LowerFalls, MayNotFit};

/// Each rule makes exactly one band.
pub fn one_band_is_made()
    ensures one { (f : PlaceRule) → IsMade f (made f) }
    ensures no_other { (f : PlaceRule) (g : Grid) → IsMade f g → (y x : ℕ) → g y x ≡ made f y x }
{}

/// What is restored in a slice depends on its index and those before it alone.
pub fn earlier_indices_alone()
    ensures { EarlierIndicesAlone }
{}

/// Restored values and residuals stay in a range that doesn't grow from place to place.
pub fn restored_stays_near()
    ensures { RestoredStaysNear }
{}

/// The coarsest index fits each slice after whatever indices.
pub fn coarsest_fits()
    ensures { CoarsestFits }
{}

/// A trial of the next slice goes on from the values that trials of the slices before it left.
pub fn trials_go_on()
    ensures { TrialsGoOn }
{}

/// Where the values of all slices before are kept, the next slice can be encoded.
pub fn next_is_ready()
    ensures { NextIsReady }
{}

/// Where the coarsest index fits, a slice has exactly one least index at which it fits.
pub fn one_least_index()
    ensures { (bytes : ℕ) (at_index : ℕ → Lists) → HasOneLeast bytes at_index }
{}

/// What is counted of a slice outside its lowest subbands is no more than it needs, whatever is restored, and doesn't
/// rise with the index. So an index that may not fit doesn't fit, and neither does any below it.
pub fn low_needs_are_lower()
    ensures no_greater { LowerIsNoGreater }
    ensures falls { LowerFalls }
    ensures refutes { MayNotFit }
{}

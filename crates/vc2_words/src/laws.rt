//! A law of the definitions.

ghost use Rattle.std.specs.Prelude.{◌≡◌, ℕ, List, Ok, Some};
ghost use Rattle.channel_schedule.specs.declared.schedule.Schedule.{Schedule};
ghost use Rattle.vc2_words.specs.declared.words.TrialPart.{TrialPart};
ghost use Rattle.vc2_words.specs.declared.settings.CutSettings.{CutSettings};
ghost use Rattle.vc2_words.specs.declared.settings.FieldVideo.{FieldVideo};
ghost use Rattle.vc2_words.specs.Settings.{Asked};
ghost use Rattle.vc2_words.specs.Commands.{asked_by, check, encode, trial, weave, split, cut};
ghost use Rattle.vc2_words.specs.Lawful.{AreLawfulWords, IsAskedSchedule, IsTrial, IsFieldVideo, IsCutSettings};
ghost use Rattle.vc2_words.specs.Order.{FirstFaultIsTold, OrderIsFree};

/// The settings that words ask for are lawful: their header and parameters pass the rules, each number is one that its field
/// holds, the first picture's number is even with field coding, the rate is one of 32 bit numbers, a sequence has a picture
/// and with field coding an even number of them, and at most 2^20 slots are idle behind a picture. A trial has 1 to 1000
/// pictures, with field coding an even number of them, and their stream has at most 2^28 bytes.
pub fn settings_are_lawful()
    ensures encode { (words : List (List ℕ)) (s : Asked) → asked_by words ≡ Ok (encode s)
        → AreLawfulWords s }
    ensures trial { (words : List (List ℕ)) (s : Asked) (part : TrialPart)
        → asked_by words ≡ Ok (trial s part) → IsTrial s part }
{}

/// The schedule that words ask for is one: its rate's numbers are at least 1, its delay is at most 2^72, and at most 2^20
/// slots are idle behind a picture.
pub fn schedules_are_lawful()
    ensures { (words : List (List ℕ)) (s : Schedule) → asked_by words ≡ Ok (check (Some s))
        → IsAskedSchedule s }
{}

/// The fields that words ask for are lawful: their header passes the rules, and is one of fields.
pub fn fields_are_lawful()
    ensures weave { (words : List (List ℕ)) (video : FieldVideo)
        → asked_by words ≡ Ok (weave video) → IsFieldVideo video }
    ensures split { (words : List (List ℕ)) (video : FieldVideo)
        → asked_by words ≡ Ok (split video) → IsFieldVideo video }
{}

/// The cut that words ask for is lawful: its first frame is before the first one behind it, its rate is one of 32 bit numbers
/// that are at least 1, and at most 2^20 slots are idle behind a picture.
pub fn cuts_are_lawful()
    ensures { (words : List (List ℕ)) (c : CutSettings) → asked_by words ≡ Ok (cut c)
        → IsCutSettings c }
{}

/// The fault that is told of operands is that of the first word that is refused, and of no other.
pub fn the_first_fault_is_told()
    ensures { FirstFaultIsTold }
{}

/// Operands that ask for a command ask for the same one in any order.
pub fn the_order_is_free()
    ensures { OrderIsFree }
{}

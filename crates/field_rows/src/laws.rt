//! What holds of every table of rows, whatever it makes (`A`) and whatever its reasons are (`R`). Each
//! law is the contract of a function with nothing to do.

ghost use Rattle.std.specs.Prelude.{◌≡◌, ℕ, List, Bool};
ghost use Rattle.bit_codes.specs.declared.CodeFault.{CodeFault};
ghost use Rattle.bit_codes.specs.Bits.{Cursor};
ghost use Rattle.field_rows.specs.Rows.{Rows, Value};
ghost use Rattle.field_rows.specs.Pieces.{EndsWithAByte};
ghost use Rattle.field_rows.specs.Moved.{IsMovable};
ghost use Rattle.field_rows.specs.RowLaws.{ReadsWhatStands, HasOneRowAnswer, IgnoresMore, ReadsTheSameMoved, ReadsTheSameRenamed, IsReadAgain, HasFaultWithin};

/// Reading is the two relations: a value exactly where fields stand, a fault exactly where they are refused.
pub fn reading_is_what_stands<R, A>()
    ensures { (reason_of : CodeFault → R) (rows : Rows R A) (c : Cursor)
        → ReadsWhatStands reason_of rows c }
{}

/// Every table has exactly one answer on every list of bits.
pub fn each_table_has_one_answer<R, A>()
    ensures { (reason_of : CodeFault → R) (rows : Rows R A) (c : Cursor)
        → HasOneRowAnswer reason_of rows c }
{}

/// Bits behind what was read change nothing.
pub fn more_bits_change_nothing<R, A>()
    ensures { (reason_of : CodeFault → R) (rows : Rows R A) (c : Cursor) (bits : List Bool)
        → EndsWithAByte c → IgnoresMore reason_of rows c bits }
{}

/// Rows behind a head of so many bytes are read as rows at the front.
pub fn rows_are_read_behind_a_head<R, A>()
    ensures { (reason_of : CodeFault → R) (rows : Rows R A) (bytes : ℕ) (c : Cursor)
        → IsMovable rows → ReadsTheSameMoved reason_of rows bytes c }
{}

/// Rows under other names of reasons give the same, the reasons renamed.
pub fn rows_are_read_under_other_reasons<R, S, A>()
    ensures { (name : R → S) (reason_of : CodeFault → R) (others : CodeFault → S) (rows : Rows R A)
        (c : Cursor) → ((e : CodeFault) → others e ≡ name (reason_of e))
        → ReadsTheSameRenamed name reason_of others rows c }
{}

/// What passes the check and is written is read again, whatever follows.
pub fn written_is_read_again<R, A>()
    ensures { (reason_of : CodeFault → R) (rows : Rows R A) (vs : List Value) (a : A) (place : ℕ)
        (rest : List Bool) → IsReadAgain reason_of rows vs a place rest }
{}

/// The place of a fault lies within the bits.
pub fn faults_lie_within_the_bits<R, A>()
    ensures { (reason_of : CodeFault → R) (rows : Rows R A) (c : Cursor) → IsMovable rows
        → HasFaultWithin reason_of rows c }
{}

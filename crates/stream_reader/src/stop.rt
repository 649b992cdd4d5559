//! What reading a unit answers.

ghost use Rattle.std.specs.Prelude.{◌≡◌};
ghost use Rattle.stream_reader.specs.Reader.{is_end_item};

use stream_rows::Reason;

/// A unit that stands.
#[derive(Clone, Copy, Debug, PartialEq, Eq)]
pub enum Item {
    /// The first header of a sequence.
    Sequence,
    /// The same header once more.
    Repeated,
    /// A picture, by its number.
    Picture(u32),
    /// Auxiliary data or padding.
    Skipped,
    /// The end of a sequence, behind which another one follows.
    SequenceEnd,
    /// The end of the last sequence, behind which nothing is left.
    End,
}

impl Item {
    /// The stream is over with this item.
    pub fn is_end(self) -> bool
        ensures { result ≡ is_end_item self }
    {
        matches!(self, Item::End)
    }
}

/// Why reading stopped: `Refused` where the stream is refused, `ReadFault` where a read failed, `NoMemory` where no memory was
/// found.
pub type ReadStop = unit_reader::ReadStop<Reason>;

//! Reads streams, and compares what is told of them.

use crate::told::bytes_of;
use picture_codec::Picture;
use slice_geometry::Component;
use std::alloc::{AllocError, Global};
use std::fmt::Debug;
use std::process::Abort;
use std::test::Fail;
use stream_units::{
    HeadReader, Item, ReadStop, Refusal, StreamChecker, StreamReader, Verdict, judge,
};
use vc2_io::MemSource;

/// Asserts that a value is the one that is wanted.
pub(crate) fn assert_same<T: Copy + Debug + PartialEq>(rt: &impl Abort, found: T, wanted: T) {
    assert_eq!(rt; found, wanted);
}

/// Tells why reading stopped.
fn tell_stop(text: &mut String, stop: ReadStop) -> Result<(), AllocError> {
    match stop {
        ReadStop::Refused(Refusal { place, reason }) => write!(text, " {place} {reason:?}"),
        _ => write!(text, " {stop:?}"),
    }
}

/// Tells an answer, and whether another may follow.
fn tell_answer(text: &mut String, answer: Result<Item, ReadStop>) -> Result<bool, AllocError> {
    match answer {
        Ok(item) => {
            write!(text, " {item:?}")?;
            Ok(!item.is_end())
        }
        Err(stop) => {
            tell_stop(text, stop)?;
            Ok(false)
        }
    }
}

/// Tells the samples of a component, those behind one another that are the same as one and their count.
fn tell_samples(text: &mut String, samples: &[u16]) -> Result<(), AllocError> {
    write!(text, " :")?;
    for run in samples.chunk_by(|a, b| a == b) {
        let first = run.first().copied().unwrap_or(0);
        write!(text, " {first}")?;
        if run.len() > 1 {
            write!(text, "*{}", run.len())?;
        }
    }
    Ok(())
}

/// Tells the samples of a picture.
fn tell_picture(text: &mut String, picture: &Picture) -> Result<(), AllocError> {
    for c in [Component::Luma, Component::C1, Component::C2] {
        tell_samples(text, picture.samples(c))?;
    }
    Ok(())
}

/// What a test asks of a reader of units. A function over any of them has a short proof, which doesn't look into what a reader
/// owns.
pub(crate) trait Units: Sized {
    fn made(alloc: Global) -> Result<Self, Fail>;

    /// Tells the next answer, with the samples of its picture where they are wanted, and whether another may follow.
    fn tell_next(
        &mut self,
        src: &mut MemSource,
        has_samples: bool,
        text: &mut String,
    ) -> Result<bool, AllocError>;

    fn held(&self) -> usize;
}

impl Units for StreamReader {
    fn made(alloc: Global) -> Result<StreamReader, Fail> {
        Ok(StreamReader::new(alloc)?)
    }

    fn tell_next(
        &mut self,
        src: &mut MemSource,
        has_samples: bool,
        text: &mut String,
    ) -> Result<bool, AllocError> {
        let goes_on = tell_answer(text, self.next(src))?;
        match self.picture() {
            Some(picture) if has_samples => tell_picture(text, picture)?,
            _ => {}
        }
        Ok(goes_on)
    }

    fn held(&self) -> usize {
        StreamReader::held(self)
    }
}

impl Units for StreamChecker {
    fn made(alloc: Global) -> Result<StreamChecker, Fail> {
        Ok(StreamChecker::new(alloc)?)
    }

    fn tell_next(
        &mut self,
        src: &mut MemSource,
        _has_samples: bool,
        text: &mut String,
    ) -> Result<bool, AllocError> {
        tell_answer(text, self.next(src))
    }

    fn held(&self) -> usize {
        StreamChecker::held(self)
    }
}

impl Units for HeadReader {
    fn made(alloc: Global) -> Result<HeadReader, Fail> {
        Ok(HeadReader::new(alloc))
    }

    fn tell_next(
        &mut self,
        src: &mut MemSource,
        _has_samples: bool,
        text: &mut String,
    ) -> Result<bool, AllocError> {
        let place = self.place();
        match self.next(src) {
            Ok(Some(info)) => {
                write!(
                    text,
                    " {place} {:?} {} {}",
                    info.code, info.next, info.previous
                )?;
                Ok(true)
            }
            Ok(None) => {
                write!(text, " End")?;
                Ok(false)
            }
            Err(stop) => {
                tell_stop(text, stop)?;
                Ok(false)
            }
        }
    }

    fn held(&self) -> usize {
        0
    }
}

/// What is wanted: what is told, whether it is told of samples too, and how many bytes are held at most.
pub(crate) type Want<'a> = (&'a str, bool, usize);

/// Tells what a reader answers up to the end or a stop, nine answers at most.
fn tell_all<R: Units>(
    rt: &impl Abort,
    reader: &mut R,
    src: &mut MemSource,
    want: Want,
    text: &mut String,
) -> Result<(), AllocError> {
    let (_, has_samples, held) = want;
    for _ in 0..9 {
        let goes_on = reader.tell_next(src, has_samples, text)?;
        assert!(rt; reader.held() <= held);
        if !goes_on {
            break;
        }
    }
    Ok(())
}

/// What a new reader tells.
fn told<R: Units + Drop>(
    rt: &impl Abort,
    alloc: Global,
    src: &mut MemSource,
    want: Want,
    text: &mut String,
) -> Result<(), Fail> {
    let mut reader = R::made(alloc)?;
    let done = tell_all(rt, &mut reader, src, want, text);
    drop(reader);
    Ok(done?)
}

/// A new reader tells what is wanted.
fn expect_told<R: Units + Drop>(
    rt: &impl Abort,
    alloc: Global,
    src: &mut MemSource,
    want: Want,
) -> Result<(), Fail> {
    let mut text = String::new(alloc);
    told::<R>(rt, alloc, src, want, &mut text)?;
    assert_same(rt, text.as_str(), want.0);
    Ok(())
}

/// The same of so many bytes a read, or of all that there are where that is 0; this call of the source fails.
pub(crate) fn expect_piece<R: Units + Drop>(
    rt: &impl Abort,
    alloc: Global,
    bytes: &[u8],
    piece: usize,
    failing: u64,
    want: Want,
) -> Result<(), Fail> {
    let pieces = vec![in alloc; piece; bytes.len()]?;
    let failing = [failing];
    let mut src = MemSource::new(bytes, pieces.as_slice(), &failing);
    expect_told::<R>(rt, alloc, &mut src, want)
}

/// The same by reads of each of these sizes, of which none fails.
fn expect_pieces<R: Units + Drop>(
    rt: &impl Abort,
    alloc: Global,
    bytes: &[u8],
    pieces: &[usize],
    want: Want,
) -> Result<(), Fail> {
    for piece in pieces {
        expect_piece::<R>(rt, alloc, bytes, *piece, u64::MAX, want)?;
    }
    Ok(())
}

/// The verdict of the judge of bytes in memory is that of the last answer.
fn expect_verdict(rt: &impl Abort, alloc: Global, bytes: &[u8], told: &str) -> Result<(), Fail> {
    let answer = match judge(alloc, bytes)? {
        Verdict::Stream => Ok(Item::End),
        Verdict::Refused(refusal) => Err(ReadStop::Refused(refusal)),
    };
    let mut text = String::new(alloc);
    tell_answer(&mut text, answer)?;
    assert_same(rt, (told, told.ends_with(text.as_str())), (told, true));
    Ok(())
}

/// Who tells what stands in a row.
pub(crate) enum By<'a> {
    /// The readers with pictures and without, and the judge of bytes in memory.
    Items,
    /// The reader with pictures, by reads of these sizes; whether it tells of samples, and how many bytes it holds at most.
    Pictures(&'a [usize], bool, usize),
    /// The reader of heads.
    Heads,
}

/// Bytes come to what is told of them.
pub(crate) fn expect_bytes(
    rt: &impl Abort,
    alloc: Global,
    bytes: &[u8],
    told: &str,
    by: &By,
) -> Result<(), Fail> {
    let want = (told, false, 4096);
    match by {
        By::Items => {
            expect_pieces::<StreamReader>(rt, alloc, bytes, &[0, 1], want)?;
            expect_pieces::<StreamChecker>(rt, alloc, bytes, &[0, 1], want)?;
            expect_verdict(rt, alloc, bytes, told)
        }
        By::Pictures(pieces, has_samples, held) => {
            let want = (told, *has_samples, *held);
            expect_pieces::<StreamReader>(rt, alloc, bytes, pieces, want)
        }
        By::Heads => expect_pieces::<HeadReader>(rt, alloc, bytes, &[0, 1], want),
    }
}

/// The words of a row come to what stands behind its sign.
fn expect_row(rt: &impl Abort, alloc: Global, row: &str, by: &By) -> Result<(), Fail> {
    let (words, told) = row.split_once(" =").expect(rt, "a row");
    let bytes = bytes_of(alloc, words)?;
    expect_bytes(rt, alloc, bytes.as_slice(), told, by)
}

/// Each line is such a row.
pub(crate) fn expect_rows(rt: &impl Abort, alloc: Global, rows: &str, by: &By) -> Result<(), Fail> {
    for row in rows.lines() {
        expect_row(rt, alloc, row, by)?;
    }
    Ok(())
}

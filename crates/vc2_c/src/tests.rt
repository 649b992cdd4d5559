use crate::vc2_run;
use std::alloc::Global;
use std::process::Abort;
use std::test::Fail;

// The smallest stream: one picture of one sample.
const STREAM: &[u8; 51] = b"BBCD\x00\x00\x00\x00\x11\x00\x00\x00\x00\x3F\x27\x42\x4A\
BBCD\xC8\x00\x00\x00\x15\x00\x00\x00\x11\x00\x00\x00\x00\x0C\x92\x70\x01\
BBCD\x10\x00\x00\x00\x00\x00\x00\x00\x15";

#[test]
fn a_stream_is_checked(rt: HostRuntime) -> Result<(), Fail> {
    let mut out = [0u8; 100];
    let mut note = [0u8; 100];
    let (mut out_len, mut note_len) = (7, 7);
    let code = vc2_run(
        rt.alloc(),
        b"check",
        STREAM,
        &mut out,
        &mut out_len,
        &mut note,
        &mut note_len,
    );
    assert_eq!(&rt; (code, note_len), (0, 0));
    assert_eq!(&rt;
        &out[..out_len],
        b"accepted pictures 1 slices 1 bytes 51\n".as_slice()
    );
    Ok(())
}

#[test]
fn a_room_is_full_where_it_is_too_small(rt: HostRuntime) -> Result<(), Fail> {
    let mut out = [0u8; 8];
    let mut note = [0u8; 100];
    let (mut out_len, mut note_len) = (7, 7);
    let code = vc2_run(
        rt.alloc(),
        b"check",
        STREAM,
        &mut out,
        &mut out_len,
        &mut note,
        &mut note_len,
    );
    assert_eq!(&rt; (code, note_len), (4, 0));
    assert_eq!(&rt; &out[..out_len], b"accepted".as_slice());
    Ok(())
}

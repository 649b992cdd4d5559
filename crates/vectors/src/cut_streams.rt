// Runs of `decode` over the first bytes of the smallest stream, of each number.
use crate::runs::{BY_BYTES, Ends, Outcome, PICTURE, SMALLEST, WHOLE, check_run};
use std::alloc::Global;
use std::process::Abort;
use std::test::Fail;
use vc2_cli::{Reason, Refusal, Status};

// Where the first bytes of the smallest stream are refused, by their number.
const PLACES: [u64; 51] = [
    0, 0, 0, 0, 4, 5, 5, 5, 5, 9, 9, 9, 9, 13, 14, 15, 16, 17, 17, 17, 17, 21, 22, 22, 22, 22, 26,
    26, 26, 26, 30, 30, 30, 30, 34, 34, 35, 37, 38, 38, 38, 38, 42, 43, 43, 43, 43, 47, 47, 47, 47,
];

fn check_cut(
    rt: &impl Abort,
    alloc: Global,
    ends: &Ends,
    input: &[u8],
    place: u64,
) -> Result<(), Fail> {
    let note = format!(in alloc; "refused at {place}: Truncated\n")?;
    let outcome = Outcome {
        status: Status::Refused(Refusal {
            place,
            reason: Reason::Truncated,
        }),
        out: if input.len() < 38 { b"" } else { PICTURE },
        note: note.as_bytes(),
    };
    check_run(rt, alloc, "decode", input, ends, &outcome)
}

#[test]
fn cut_streams_are_truncated(rt: HostRuntime) -> Result<(), Fail> {
    for count in 0..51 {
        check_cut(&rt, rt.alloc(), &WHOLE, &SMALLEST[..count], PLACES[count])?;
        check_cut(
            &rt,
            rt.alloc(),
            &BY_BYTES,
            &SMALLEST[..count],
            PLACES[count],
        )?;
    }
    Ok(())
}

// The exit code of each status.
use vc2_cli::{Reason, Refusal, ScheduleFault, Status, WordFault, exit_code};

const TRUNCATED: Refusal = Refusal {
    place: 0,
    reason: Reason::Truncated,
};

const LATE: ScheduleFault = ScheduleFault::Late {
    slot: 1,
    have: 21,
    need: 38,
};

#[test]
fn each_status_has_its_exit(rt: HostRuntime) {
    let table = [
        (Status::Done, 0),
        (Status::Refused(TRUNCATED), 1),
        (Status::Schedule(LATE), 1),
        (Status::Usage(WordFault::NoCommand), 2),
        (Status::ReadFault, 3),
        (Status::OutFault, 4),
        (Status::NoteFault, 4),
        (Status::NoMemory, 5),
    ];
    for (status, code) in table {
        assert_eq!(rt; exit_code(&status), code);
    }
}

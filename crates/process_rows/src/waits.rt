//! Worked cases of waits: whom they ask, in which order, and what they answer.
ghost use Rattle.std.specs.Prelude.{◌≡◌};

use crate::checking::{note_end, set_filter};
use ek_types::Chars;
use process_table::{Filter, Processes, Status};
use std::alloc::Global;
use std::process::Abort;
use wait_loop::{Step, Wait};

/// A wait, over so many processes that run, and what it shows.
#[derive(Clone, Copy)]
struct Case {
    shows: &'static str,
    processes: u32,
    target: Option<u32>,
    rounds: u32,
    just: bool,
    room: u32,
}

/// What the wait is to do next, or what happens meanwhile.
#[derive(Clone, Copy)]
enum Event {
    /// The wait asks this process.
    Asks(u32),
    /// The wait is over, with this answer.
    Done(bool),
    /// A read of this process gave bytes, or none.
    Reads(u32, bool),
    /// This process ends.
    Ends(u32, Status),
    /// One process more starts.
    Starts,
    /// The filter of this process is turned off.
    IsOff(u32),
}

use Event::{Asks, Done, Ends, IsOff, Reads, Starts};

/// A process that just started.
fn start(rt: &impl Abort, alloc: Global, table: &mut Processes) {
    let name = table.free_name(&Chars::new(alloc)).expect(rt, "a name");
    let child = table.count();
    assert!(rt; child < 256);
    table.add(&name, child, None, 0).expect(rt, "a process");
}

/// Processes that run, as many as are asked for.
fn table_of(rt: &impl Abort, alloc: Global, count: u32) -> Processes {
    let mut table = Processes::new(alloc);
    for _ in 0..count {
        start(rt, alloc, &mut table);
    }
    table
}

/// What a wait does next, which has room for so many processes.
fn next(rt: &impl Abort, wait: &mut Wait, table: &Processes, room: u32) -> Step
    requires { wait.old.room ≡ room }
    ensures { wait.new.room ≡ room }
{
    assert!(rt; table.count() <= room);
    wait.next(table)
}

/// What a wait does next is this.
fn is_next(rt: &impl Abort, shows: &str, found: Step, expected: Step) {
    assert_eq!(rt; found, expected, "{shows}");
}

/// An event comes to pass.
fn pass(
    rt: &impl Abort,
    alloc: Global,
    shows: &str,
    wait: &mut Wait,
    table: &mut Processes,
    room: u32,
    event: Event,
)
    requires { wait.old.room ≡ room }
    ensures { wait.new.room ≡ room }
{
    match event {
        Asks(p) => is_next(rt, shows, next(rt, wait, table, room), Step::Ask(p)),
        Done(bytes) => is_next(rt, shows, next(rt, wait, table, room), Step::Done(bytes)),
        Reads(p, bytes) => wait.note(p, bytes),
        Ends(p, status) => note_end(rt, table, p, status),
        Starts => start(rt, alloc, table),
        IsOff(p) => set_filter(rt, table, p, Filter::Off),
    }
}

/// A wait takes this course.
fn goes(rt: &impl Abort, alloc: Global, case: Case, course: &[Event]) {
    let mut table = table_of(rt, alloc, case.processes);
    let wait = Wait::new(alloc, case.target, case.rounds, case.just, case.room);
    let mut wait = wait.expect(rt, "memory");
    for event in course {
        pass(
            rt, alloc, case.shows, &mut wait, &mut table, case.room, *event,
        );
    }
}

/// A wait, and the course that it takes.
struct Course {
    case: Case,
    events: &'static [Event],
}

const COURSES: [Course; 9] = [
    Course {
        case: Case {
            shows: "a wait for just one process asks no other",
            processes: 2,
            target: Some(0),
            rounds: 3,
            just: true,
            room: 256,
        },
        events: &[Asks(0), Asks(0), Asks(0), Done(false)],
    },
    Course {
        case: Case {
            shows: "a wait for a process asks the others too",
            processes: 2,
            target: Some(0),
            rounds: 2,
            just: false,
            room: 256,
        },
        events: &[Asks(0), Asks(1), Asks(0), Asks(1), Done(false)],
    },
    Course {
        case: Case {
            shows: "the target is asked first",
            processes: 4,
            target: Some(2),
            rounds: 1,
            just: false,
            room: 4,
        },
        events: &[Asks(2), Asks(0), Asks(1), Asks(3), Done(false)],
    },
    Course {
        case: Case {
            shows: "a process that ends in the middle of a round is passed over",
            processes: 3,
            target: None,
            rounds: 2,
            just: false,
            room: 256,
        },
        events: &[
            Asks(0),
            Ends(1, Status::Exit(0)),
            Asks(2),
            Asks(0),
            Asks(2),
            Done(false),
        ],
    },
    Course {
        case: Case {
            shows: "a process that starts in the middle of a round joins the next",
            processes: 2,
            target: None,
            rounds: 2,
            just: false,
            room: 256,
        },
        events: &[
            Asks(0),
            Starts,
            Asks(1),
            Asks(0),
            Asks(1),
            Asks(2),
            Done(false),
        ],
    },
    Course {
        case: Case {
            shows: "bytes of the target end a wait for it",
            processes: 2,
            target: Some(1),
            rounds: 1000,
            just: false,
            room: 256,
        },
        events: &[
            Reads(0, true),
            Reads(1, false),
            Asks(1),
            Reads(1, true),
            Ends(1, Status::Signal),
            Done(true),
        ],
    },
    Course {
        case: Case {
            shows: "bytes of any process end a wait for none",
            processes: 2,
            target: None,
            rounds: 1000,
            just: true,
            room: 256,
        },
        events: &[Asks(0), Asks(1), Reads(1, true), Done(true)],
    },
    Course {
        case: Case {
            shows: "a wait for a process that is not heard is over",
            processes: 2,
            target: Some(0),
            rounds: 1000,
            just: false,
            room: 256,
        },
        events: &[IsOff(0), Done(false)],
    },
    Course {
        case: Case {
            shows: "a process that is not heard is passed over",
            processes: 2,
            target: None,
            rounds: 1,
            just: false,
            room: 256,
        },
        events: &[IsOff(0), Asks(1), Done(false)],
    },
];

#[test]
fn each_wait_takes_its_course(rt: HostRuntime) {
    for course in &COURSES {
        goes(&rt, rt.alloc(), course.case, course.events);
    }
}

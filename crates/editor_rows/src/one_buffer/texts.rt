//! Texts, accessible portions and groups of records.

use super::scene::Scene;
use crate::checking::is;
use std::alloc::Global;
use std::process::Abort;

/// The text is this.
fn shows(rt: &impl Abort, scene: &Scene, text: &str) {
    is(rt, scene.shown(rt).as_str(), text);
}

#[test]
fn an_empty_text_stays_empty_and_unmodified(rt: HostRuntime) {
    let mut scene = Scene::new(rt.alloc());
    scene.insert(&rt, 0, "");
    scene.delete(&rt, 0, 0);
    scene.narrow(&rt, 0, 0);
    scene.go(7);
    scene.boundary(&rt);
    scene.start(&rt);
    is(&rt, scene.paint(&rt, 0, 0, 1), false);
    is(&rt, scene.undo(&rt, 1), false);
    is(&rt, scene.bounds(), (0, 0, 0));
    is(&rt, (scene.is_modified(), scene.records()), (false, 0));
    shows(&rt, &scene, "");
    is(&rt, scene.release(), 0);
}

/// A change: these letters in the place of a part.
struct Change {
    from: usize,
    to: usize,
    text: &'static str,
}

/// A part is deleted where there are no letters, and else they are put in at its start.
fn make(rt: &impl Abort, scene: &mut Scene, change: &Change) {
    if change.text.is_empty() {
        scene.delete(rt, change.from, change.to);
    } else {
        scene.insert(rt, change.from, change.text);
    }
}

/// A change, and the text that it leaves.
struct AtTheGap {
    change: Change,
    text: &'static str,
}

const AT_THE_GAP: [AtTheGap; 12] = [
    AtTheGap {
        change: Change {
            from: 0,
            to: 0,
            text: "abcdef",
        },
        text: "abcdef",
    },
    AtTheGap {
        change: Change {
            from: 6,
            to: 6,
            text: "g",
        },
        text: "abcdefg",
    },
    AtTheGap {
        change: Change {
            from: 0,
            to: 0,
            text: "z",
        },
        text: "zabcdefg",
    },
    AtTheGap {
        change: Change {
            from: 7,
            to: 8,
            text: "",
        },
        text: "zabcdef",
    },
    AtTheGap {
        change: Change {
            from: 0,
            to: 1,
            text: "",
        },
        text: "abcdef",
    },
    AtTheGap {
        change: Change {
            from: 3,
            to: 3,
            text: "x",
        },
        text: "abcxdef",
    },
    AtTheGap {
        change: Change {
            from: 3,
            to: 4,
            text: "",
        },
        text: "abcdef",
    },
    AtTheGap {
        change: Change {
            from: 2,
            to: 3,
            text: "",
        },
        text: "abdef",
    },
    AtTheGap {
        change: Change {
            from: 2,
            to: 2,
            text: "c",
        },
        text: "abcdef",
    },
    AtTheGap {
        change: Change {
            from: 0,
            to: 3,
            text: "",
        },
        text: "def",
    },
    AtTheGap {
        change: Change {
            from: 0,
            to: 3,
            text: "",
        },
        text: "",
    },
    AtTheGap {
        change: Change {
            from: 0,
            to: 0,
            text: "h",
        },
        text: "h",
    },
];

/// The gap stands where the change before was made: at the start, at the end, in the middle, and it is all there is.
#[test]
fn changes_on_both_sides_of_the_gap_leave_their_texts(rt: HostRuntime) {
    let mut scene = Scene::new(rt.alloc());
    for row in &AT_THE_GAP {
        make(&rt, &mut scene, &row.change);
        shows(&rt, &scene, row.text);
    }
    is(&rt, scene.release(), 0);
}

/// The start and the end of the accessible portion, and point.
type Places = (usize, usize, usize);

/// A change of six characters, of which those from place 2 to 4 are accessible with point at 3, and what that leaves: the
/// start and the end of the accessible portion, and point.
struct Narrowed {
    change: Change,
    bounds: Places,
}

const NARROWED: [Narrowed; 14] = [
    Narrowed {
        change: Change {
            from: 1,
            to: 1,
            text: "xy",
        },
        bounds: (4, 6, 5),
    },
    Narrowed {
        change: Change {
            from: 2,
            to: 2,
            text: "xy",
        },
        bounds: (2, 6, 5),
    },
    Narrowed {
        change: Change {
            from: 3,
            to: 3,
            text: "xy",
        },
        bounds: (2, 6, 5),
    },
    Narrowed {
        change: Change {
            from: 4,
            to: 4,
            text: "xy",
        },
        bounds: (2, 6, 3),
    },
    Narrowed {
        change: Change {
            from: 5,
            to: 5,
            text: "xy",
        },
        bounds: (2, 4, 3),
    },
    Narrowed {
        change: Change {
            from: 0,
            to: 2,
            text: "",
        },
        bounds: (0, 2, 1),
    },
    Narrowed {
        change: Change {
            from: 1,
            to: 3,
            text: "",
        },
        bounds: (1, 2, 1),
    },
    Narrowed {
        change: Change {
            from: 2,
            to: 3,
            text: "",
        },
        bounds: (2, 3, 2),
    },
    Narrowed {
        change: Change {
            from: 2,
            to: 4,
            text: "",
        },
        bounds: (2, 2, 2),
    },
    Narrowed {
        change: Change {
            from: 3,
            to: 4,
            text: "",
        },
        bounds: (2, 3, 3),
    },
    Narrowed {
        change: Change {
            from: 3,
            to: 5,
            text: "",
        },
        bounds: (2, 3, 3),
    },
    Narrowed {
        change: Change {
            from: 4,
            to: 6,
            text: "",
        },
        bounds: (2, 4, 3),
    },
    Narrowed {
        change: Change {
            from: 1,
            to: 5,
            text: "",
        },
        bounds: (1, 1, 1),
    },
    Narrowed {
        change: Change {
            from: 0,
            to: 6,
            text: "",
        },
        bounds: (0, 0, 0),
    },
];

/// Compares the bounds behind a change with those that are expected.
fn stands_at(rt: &impl Abort, change: &Change, found: Places, expected: Places) {
    let of = (change.from, change.to, change.text);
    is(rt, (of, found), (of, expected));
}

fn check_narrowed(rt: &impl Abort, alloc: Global, row: &Narrowed) {
    let mut scene = Scene::new(alloc);
    scene.insert(rt, 0, "abcdef");
    scene.narrow(rt, 2, 4);
    scene.go(3);
    make(rt, &mut scene, &row.change);
    stands_at(rt, &row.change, scene.bounds(), row.bounds);
    scene.release();
}

#[test]
fn a_change_moves_the_bounds_of_a_narrowing_and_point(rt: HostRuntime) {
    for row in &NARROWED {
        check_narrowed(&rt, rt.alloc(), row);
    }
}

#[test]
fn properties_are_changed_and_come_back(rt: HostRuntime) {
    let mut scene = Scene::new(rt.alloc());
    scene.insert(&rt, 0, "abcd");
    scene.boundary(&rt);
    is(&rt, scene.paint(&rt, 1, 3, 1), true);
    is(&rt, scene.paint(&rt, 1, 2, 1), false);
    is(&rt, scene.paint(&rt, 0, 2, 2), true);
    shows(&rt, &scene, "a2b2c1d");
    scene.boundary(&rt);
    scene.delete(&rt, 1, 3);
    scene.insert(&rt, 1, "x");
    shows(&rt, &scene, "a2xd");
    scene.start(&rt);
    is(&rt, scene.undo(&rt, 1), true);
    shows(&rt, &scene, "a2b2c1d");
    is(&rt, scene.undo(&rt, 1), true);
    shows(&rt, &scene, "abcd");
    is(&rt, scene.undo(&rt, 9), true);
    is(&rt, (scene.is_modified(), scene.size()), (false, 0));
    is(&rt, scene.undo(&rt, 1), false);
    scene.release();
}

//! Undo records at their limits: 65,536 records, and 1,048,576 deleted characters.

use super::scene::{Scene, letters};
use crate::checking::is;
use std::alloc::Global;
use std::process::Abort;

/// The most records.
const RECORDS: usize = 65_536;

/// The most deleted characters that are kept.
const KEPT: usize = 1_048_576;

/// The first change makes two records: that of the flag, and its own.
#[test]
fn one_record_beyond_the_limit_empties_a_single_group(rt: HostRuntime) {
    let mut scene = Scene::new(rt.alloc());
    let letter = letters(&rt, rt.alloc(), 1);
    for _ in 1..RECORDS {
        scene.put(&rt, 0, &letter);
    }
    is(&rt, scene.records(), RECORDS);
    scene.put(&rt, 0, &letter);
    is(&rt, scene.records(), 0);
    is(&rt, (scene.is_modified(), scene.size()), (true, RECORDS));
    scene.start(&rt);
    is(&rt, scene.undo(&rt, 1), false);
    scene.release();
}

/// The oldest group has two records and a boundary behind it. What is left is undone at once.
#[test]
fn one_record_beyond_the_limit_drops_the_oldest_group(rt: HostRuntime) {
    let mut scene = Scene::new(rt.alloc());
    let letter = letters(&rt, rt.alloc(), 1);
    scene.put(&rt, 0, &letter);
    scene.boundary(&rt);
    for _ in 3..RECORDS {
        scene.put(&rt, 0, &letter);
    }
    is(&rt, scene.records(), RECORDS);
    scene.put(&rt, 0, &letter);
    is(&rt, scene.records(), RECORDS - 2);
    scene.start(&rt);
    is(&rt, scene.undo(&rt, 1), true);
    is(&rt, (scene.is_modified(), scene.size()), (true, 1));
    scene.release();
}

/// Deletions of so many characters each, a boundary between any two, and how many records are left at the end: there
/// are two for the insertion, a boundary and one for each deletion at the start of the text, with point there.
struct Deletions {
    counts: &'static [usize],
    left: usize,
}

const DELETIONS: [Deletions; 6] = [
    Deletions {
        counts: &[KEPT],
        left: 4,
    },
    Deletions {
        counts: &[KEPT + 1],
        left: 0,
    },
    Deletions {
        counts: &[KEPT, 1],
        left: 1,
    },
    Deletions {
        counts: &[KEPT / 2, KEPT / 2],
        left: 6,
    },
    Deletions {
        counts: &[KEPT / 2, KEPT / 2, 1],
        left: 3,
    },
    Deletions {
        counts: &[1, KEPT / 2, KEPT / 2],
        left: 3,
    },
];

fn check_deletions(rt: &impl Abort, alloc: Global, counts: &[usize], left: usize) {
    let mut scene = Scene::new(alloc);
    scene.put(rt, 0, &letters(rt, alloc, KEPT + 1));
    scene.go(0);
    for count in counts {
        scene.boundary(rt);
        scene.delete(rt, 0, *count);
    }
    is(rt, scene.records(), left);
    scene.release();
}

#[test]
fn deletions_beyond_the_limit_drop_the_oldest_groups(rt: HostRuntime) {
    for deletions in &DELETIONS {
        check_deletions(&rt, rt.alloc(), deletions.counts, deletions.left);
    }
}

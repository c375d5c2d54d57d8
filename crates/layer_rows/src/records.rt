//! Worked cases of records, limits and plans. Where a serial number is expected, it is counted by hand.
use crate::checking::is;
use crate::pieces::bare_text;
use ek_types::{Copied, PropVal, Sym};
use std::alloc::Global;
use std::process::Abort;
use undo_list::{Rec, Refused, Undo};

fn put(rt: &impl Abort, undo: &mut Undo, rec: Rec) {
    match rec {
        Rec::Boundary => undo.boundary().expect(rt, "a boundary"),
        _ => undo.push(rec).expect(rt, "a record"),
    }
}

/// A deletion of so many characters, recorded.
fn put_deletion(rt: &impl Abort, alloc: Global, undo: &mut Undo, n: usize, place: usize) {
    put(rt, undo, Rec::Deleted(bare_text(rt, alloc, n), place));
}

/// How many records a copied part has, and the ends of its newest, if that is an insertion.
fn part(rt: &impl Abort, undo: &Undo, from: usize, to: usize) -> (usize, Option<(usize, usize)>) {
    assert!(rt; from <= to && to <= undo.len());
    let part = undo.part(from, to).expect(rt, "a copy");
    (part.len(), inserted(&part))
}

/// Copies of these records, all pending.
fn started(rt: &impl Abort, alloc: Global, records: &[Rec]) -> Undo {
    let mut undo = Undo::new(alloc);
    for rec in records {
        put(rt, &mut undo, rec.copy().expect(rt, "a copy"));
    }
    is(rt, undo.start(), Ok(()));
    undo
}

/// The serial numbers of the newest and of the oldest record, and how many records there are.
fn serials(undo: &Undo) -> Option<(u64, u64, usize)> {
    let len = undo.len();
    if len == 0 {
        return None;
    }
    Some((undo.at(0).1, undo.at(len - 1).1, len))
}

/// The newest record's ends, if it is an insertion.
fn inserted(undo: &Undo) -> Option<(usize, usize)> {
    if undo.len() == 0 {
        return None;
    }
    match undo.at(0).0 {
        Rec::Inserted(from, to) => Some((*from, *to)),
        _ => None,
    }
}

/// The plan of so many groups in these bounds: its first and its last serial number, and its count.
fn planned(
    rt: &impl Abort,
    undo: &Undo,
    groups: u32,
    min: usize,
    max: usize,
) -> Result<(u64, u64, usize), Refused> {
    assert!(rt; groups > 0);
    let plan = undo.plan(groups, min, max).expect(rt, "a plan")?;
    Ok((plan.first, plan.last, plan.count))
}

/// So many groups in these bounds, and their plan.
struct Trial {
    groups: u32,
    min: usize,
    max: usize,
    plan: Result<(u64, u64, usize), Refused>,
}

fn are_planned(rt: &impl Abort, undo: &Undo, rows: &[Trial]) {
    for row in rows {
        is(
            rt,
            planned(rt, undo, row.groups, row.min, row.max),
            row.plan,
        );
    }
}

/// The next group passed, and how many of its records aren't boundaries.
fn passed(rt: &impl Abort, undo: &mut Undo) -> Result<usize, Refused> {
    let plan = undo.plan(1, 0, 9).expect(rt, "a plan")?;
    undo.pass(&plan);
    Ok(plan.count)
}

#[test]
fn an_insertion_goes_on_where_the_newest_ended(rt: HostRuntime) {
    let mut undo = started(
        &rt,
        rt.alloc(),
        &[Rec::First, Rec::Inserted(0, 2), Rec::Inserted(2, 3)],
    );
    is(&rt, inserted(&undo), Some((0, 3)));
    is(&rt, serials(&undo), Some((1, 0, 2)));
    put(&rt, &mut undo, Rec::Inserted(0, 1));
    is(&rt, inserted(&undo), Some((0, 1)));
    is(&rt, serials(&undo), Some((2, 0, 3)));
}

#[test]
fn no_insertion_goes_on_across_a_boundary(rt: HostRuntime) {
    let undo = started(
        &rt,
        rt.alloc(),
        &[
            Rec::Inserted(0, 1),
            Rec::Boundary,
            Rec::Boundary,
            Rec::Inserted(1, 2),
        ],
    );
    is(&rt, inserted(&undo), Some((1, 2)));
    is(&rt, serials(&undo), Some((2, 0, 3)));
}

#[test]
fn there_is_no_undo_without_a_start(rt: HostRuntime) {
    let mut undo = Undo::new(rt.alloc());
    put(&rt, &mut undo, Rec::Inserted(0, 2));
    is(&rt, planned(&rt, &undo, 1, 0, 2), Err(Refused::Nothing));
    is(&rt, undo.start(), Ok(()));
    undo.drop_pending();
    is(&rt, planned(&rt, &undo, 1, 0, 2), Err(Refused::Nothing));
}

#[test]
fn nothing_is_recorded_where_recording_is_off(rt: HostRuntime) {
    let mut undo = started(&rt, rt.alloc(), &[Rec::Inserted(0, 2)]);
    undo.disable();
    put(&rt, &mut undo, Rec::Inserted(0, 2));
    put(&rt, &mut undo, Rec::Boundary);
    is(&rt, serials(&undo), None);
    is(&rt, undo.start(), Err(Refused::Disabled));
    is(&rt, planned(&rt, &undo, 1, 0, 2), Err(Refused::Disabled));
    undo.enable();
    put(&rt, &mut undo, Rec::Inserted(0, 2));
    is(&rt, serials(&undo), Some((1, 1, 1)));
}

#[test]
fn an_empty_group_passes_its_boundary_alone(rt: HostRuntime) {
    let mut undo = started(
        &rt,
        rt.alloc(),
        &[
            Rec::First,
            Rec::Inserted(0, 2),
            Rec::Boundary,
            Rec::Inserted(2, 3),
            Rec::Boundary,
        ],
    );
    is(&rt, planned(&rt, &undo, 1, 0, 3), Ok((4, 4, 0)));
    is(&rt, passed(&rt, &mut undo), Ok(0));
    is(&rt, planned(&rt, &undo, 1, 0, 3), Ok((3, 2, 1)));
    is(&rt, passed(&rt, &mut undo), Ok(1));
    put(&rt, &mut undo, Rec::Point(2));
    is(&rt, planned(&rt, &undo, 9, 0, 2), Ok((1, 0, 2)));
    is(&rt, passed(&rt, &mut undo), Ok(2));
    is(&rt, passed(&rt, &mut undo), Err(Refused::Nothing));
}

const TRIALS: [Trial; 5] = [
    Trial {
        groups: 2,
        min: 0,
        max: 4,
        plan: Ok((6, 2, 3)),
    },
    Trial {
        groups: 2,
        min: 0,
        max: 3,
        plan: Err(Refused::Outside(3)),
    },
    Trial {
        groups: 2,
        min: 1,
        max: 4,
        plan: Err(Refused::Outside(4)),
    },
    Trial {
        groups: 2,
        min: 2,
        max: 4,
        plan: Err(Refused::Outside(5)),
    },
    Trial {
        groups: 2,
        min: 0,
        max: usize::MAX,
        plan: Ok((6, 2, 3)),
    },
];

#[test]
fn the_text_of_a_deletion_comes_back_in_a_trial(rt: HostRuntime) {
    let mut undo = started(
        &rt,
        rt.alloc(),
        &[
            Rec::First,
            Rec::Inserted(0, 4),
            Rec::Boundary,
            Rec::Inserted(4, 6),
            Rec::Prop(Sym(14), None, 0, 2),
        ],
    );
    put_deletion(&rt, rt.alloc(), &mut undo, 2, 1);
    put(&rt, &mut undo, Rec::Boundary);
    is(&rt, undo.start(), Ok(()));
    are_planned(&rt, &undo, &TRIALS);
}

#[test]
fn an_undo_outside_the_bounds_is_refused(rt: HostRuntime) {
    let undo = started(&rt, rt.alloc(), &[Rec::First, Rec::Inserted(0, 4)]);
    is(&rt, planned(&rt, &undo, 1, 0, 1), Err(Refused::Outside(1)));
    let undo = started(&rt, rt.alloc(), &[Rec::Point(5), Rec::Moved(0, -1)]);
    is(&rt, planned(&rt, &undo, 1, 0, 4), Err(Refused::Outside(0)));
}

/// An insertion behind a change of a property.
fn with_a_property(rt: &impl Abort, alloc: Global) -> Undo {
    started(
        rt,
        alloc,
        &[
            Rec::Prop(Sym(14), Some(PropVal::Truth), 0, 1),
            Rec::Inserted(0, 2),
        ],
    )
}

fn is_with_a_property(rt: &impl Abort, undo: &Undo) {
    is(rt, inserted(undo), Some((0, 2)));
    is(rt, planned(rt, undo, 1, 0, 2), Err(Refused::Outside(0)));
    is(rt, part(rt, undo, 1, 2), (1, None));
    is(rt, part(rt, undo, 1, 1).0, 0);
}

#[test]
fn a_copy_is_another_list(rt: HostRuntime) {
    let mut undo = with_a_property(&rt, rt.alloc());
    let copy = undo.copy().expect(&rt, "a copy");
    undo.disable();
    is_with_a_property(&rt, &copy);
}

/// So many records in one group, each point at its number.
fn long_group(rt: &impl Abort, alloc: Global, n: usize) -> Undo {
    let mut undo = Undo::new(alloc);
    undo.reserve(n).expect(rt, "room");
    for place in 0..n {
        put(rt, &mut undo, Rec::Point(place));
    }
    undo
}

#[test]
fn one_record_past_the_limit_empties_a_single_group(rt: HostRuntime) {
    let mut undo = long_group(&rt, rt.alloc(), 65_536);
    is(&rt, serials(&undo), Some((65_535, 0, 65_536)));
    put(&rt, &mut undo, Rec::Point(0));
    is(&rt, serials(&undo), None);
    put(&rt, &mut undo, Rec::Point(0));
    is(&rt, serials(&undo), Some((65_537, 65_537, 1)));
}

#[test]
fn the_oldest_group_goes_with_the_boundary_next_to_it(rt: HostRuntime) {
    let mut undo = started(&rt, rt.alloc(), &[Rec::First, Rec::Point(0), Rec::Boundary]);
    for place in 3..65_536 {
        put(&rt, &mut undo, Rec::Point(place));
    }
    is(&rt, serials(&undo), Some((65_535, 0, 65_536)));
    put(&rt, &mut undo, Rec::Point(0));
    is(&rt, serials(&undo), Some((65_536, 3, 65_534)));
    is(
        &rt,
        planned(&rt, &undo, 1, 0, 65_536),
        Err(Refused::Nothing),
    );
}

#[test]
fn deleted_characters_are_limited(rt: HostRuntime) {
    let mut undo = Undo::new(rt.alloc());
    put_deletion(&rt, rt.alloc(), &mut undo, 1_048_575, 0);
    put(&rt, &mut undo, Rec::Boundary);
    put_deletion(&rt, rt.alloc(), &mut undo, 1, 0);
    is(&rt, serials(&undo), Some((2, 0, 3)));
    put_deletion(&rt, rt.alloc(), &mut undo, 1, 0);
    is(&rt, serials(&undo), Some((3, 2, 2)));
    put_deletion(&rt, rt.alloc(), &mut undo, 1_048_575, 0);
    is(&rt, serials(&undo), None);
}

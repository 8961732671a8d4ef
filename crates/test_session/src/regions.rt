//! Regions.

use test_rows::asks::Ask;
use test_rows::begun::SHM;
use test_rows::events::Event;
use test_rows::rows::{Case, REGISTRY, Row, first_missed_case};

/// The region 6.
const REGION: &[Row] = &[Row::Sends(Ask::CreateRegion(3, 6))];

/// 512 changes, by turns wl_region.add and wl_region.subtract.
const CHANGES: &[Row] = &[Row::Changes(
    256,
    Ask::RegionAdd(6, 0, 0, 4, 4),
    Ask::RegionSubtract(6, 0, 0, 4, 4),
)];

const CHANGE_513: &[Row] = &[
    Row::Silent(1),
    Row::Errs(Ask::RegionAdd(6, 0, 0, 4, 4), 1, 3),
    Row::ErrorTold(1, 3, b"implementation"),
];

const DESTROYED: &[Row] = &[
    Row::Sends(Ask::RegionDestroy(6)),
    Row::Told(&[Event::DeleteId(6)]),
    Row::Errs(Ask::RegionAdd(6, 0, 0, 4, 4), 1, 0),
];

const CASES: &[Case] = &[
    (
        "a destroyed region gives its id back",
        &[REGISTRY, SHM, REGION, DESTROYED],
    ),
    (
        "a region takes 512 changes",
        &[REGISTRY, SHM, REGION, CHANGES, CHANGE_513],
    ),
];

#[test]
fn regions_are_as_worked(rt: HostRuntime) {
    assert_eq!(rt; first_missed_case(rt.alloc(), &[], CASES), None);
}

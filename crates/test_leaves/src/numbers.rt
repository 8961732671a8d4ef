use wl_store::{LayoutError, StoreError};
use wl_surface::SurfaceError;
use wl_table::TableError;

const STORES: [u8; 7] = [
    StoreError::BadSize as u8,
    StoreError::Shrinks as u8,
    StoreError::NoStore as u8,
    StoreError::OutOfRange as u8,
    StoreError::TooMany as u8,
    StoreError::TooLarge as u8,
    StoreError::Memory as u8,
];

const SURFACES: [u8; 9] = [
    SurfaceError::Role as u8,
    SurfaceError::BadParent as u8,
    SurfaceError::NotSibling as u8,
    SurfaceError::TooDeep as u8,
    SurfaceError::TooMany as u8,
    SurfaceError::Transform as u8,
    SurfaceError::Memory as u8,
    SurfaceError::Scale as u8,
    SurfaceError::Size as u8,
];

const TABLES: [u8; 4] = [
    TableError::BadId as u8,
    TableError::InUse as u8,
    TableError::TooMany as u8,
    TableError::Memory as u8,
];

#[test]
fn errors_have_their_numbers(rt: HostRuntime) {
    assert!(rt; STORES == [1, 2, 3, 4, 5, 6, 7]);
    assert!(rt; SURFACES == [1, 2, 3, 4, 5, 6, 7, 8, 9]);
    assert!(rt; TABLES == [1, 2, 3, 4]);
    assert!(rt; LayoutError::Stride as u8 == 1 && LayoutError::Format as u8 == 2);
}

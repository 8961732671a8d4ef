use wl_geom::Rect;
use wl_shell::{Placed, Positioner, ShellError};

const OUTPUT: Rect = Rect {
    x: 0,
    y: 0,
    w: 640,
    h: 480,
};

const NEAR_THE_EDGE: Rect = Rect {
    x: 600,
    y: 10,
    w: 20,
    h: 20,
};

const NO_RECT: Rect = Rect {
    x: 3,
    y: 4,
    w: 0,
    h: 0,
};

const THIN: Rect = Rect {
    x: 3,
    y: 4,
    w: 0,
    h: 5,
};

const INSIDE_OUT: Rect = Rect {
    x: 3,
    y: 4,
    w: 5,
    h: -1,
};

const REFUSED: Result<(), ShellError> = Err(ShellError::InvalidInput);

// Sets a positioner to put popups below and to the right of a rectangle near the right edge of the
// output.
fn is_set(positioner: &mut Positioner, w: i32, adjustment: u32) -> bool {
    positioner.set_adjustment(adjustment);
    positioner.set_size(w, 50) == Ok(())
        && positioner.set_anchor_rect(NEAR_THE_EDGE) == Ok(())
        && positioner.set_anchor(8) == Ok(())
        && positioner.set_gravity(8) == Ok(())
        && positioner.is_complete()
}

// Whether a popup of this width and the height 50 gets this x and this width, at the y 30.
fn places(w: i32, adjustment: u32, x: i32, placed: i32) -> bool {
    let mut positioner = Positioner::new();
    let wanted = Placed {
        x,
        y: 30,
        w: placed,
        h: 50,
    };
    is_set(&mut positioner, w, adjustment)
        && positioner.is_complete()
        && positioner.place(OUTPUT, (0, 0)) == wanted
}

#[test]
fn popups_are_flipped_slid_and_cut(rt: HostRuntime) {
    assert!(rt; places(100, 0, 620, 100));
    assert!(rt; places(100, 4, 500, 100));
    assert!(rt; places(100, 1, 540, 100));
    assert!(rt; places(700, 21, 0, 640));
}

#[test]
fn bounds_are_seen_from_the_parent(rt: HostRuntime) {
    let mut positioner = Positioner::new();
    positioner.set_offset(-8, 8);
    let wanted = Placed {
        x: 440,
        y: 38,
        w: 100,
        h: 50,
    };
    assert!(rt; is_set(&mut positioner, 100, 1));
    assert!(rt; positioner.is_complete() && positioner.place(OUTPUT, (100, 0)) == wanted);
}

// Each is refused, and what was set stays.
fn refuses(positioner: &mut Positioner) -> bool {
    positioner.set_size(0, 5) == REFUSED
        && positioner.set_size(5, -1) == REFUSED
        && positioner.set_anchor_rect(INSIDE_OUT) == REFUSED
        && positioner.set_anchor(9) == REFUSED
        && positioner.set_gravity(9) == REFUSED
        && positioner.is_complete()
}

#[test]
fn what_a_positioner_refuses_changes_nothing(rt: HostRuntime) {
    let mut positioner = Positioner::new();
    assert!(rt; !positioner.is_complete());
    assert!(rt; is_set(&mut positioner, 100, 0));
    assert!(rt; refuses(&mut positioner));
}

#[test]
fn a_rectangle_without_sides_counts_as_none(rt: HostRuntime) {
    let mut positioner = Positioner::new();
    assert!(rt; is_set(&mut positioner, 100, 0));
    assert!(rt; positioner.set_anchor_rect(NO_RECT) == Ok(()) && !positioner.is_complete());
    assert!(rt; positioner.set_anchor_rect(THIN) == Ok(()) && positioner.is_complete());
}

// What says how the parent will be, and when to place a popup by itself, with any numbers.
fn looks_ahead(positioner: &mut Positioner) {
    positioner.set_reactive();
    positioner.set_parent_size(-1, i32::MIN);
    positioner.set_parent_configure(u32::MAX);
}

#[test]
fn what_a_parent_will_be_changes_nothing(rt: HostRuntime) {
    let mut positioner = Positioner::new();
    looks_ahead(&mut positioner);
    assert!(rt; !positioner.is_complete());
    assert!(rt; is_set(&mut positioner, 100, 1));
    looks_ahead(&mut positioner);
    let wanted = Placed {
        x: 540,
        y: 30,
        w: 100,
        h: 50,
    };
    assert!(rt; positioner.is_complete() && positioner.place(OUTPUT, (0, 0)) == wanted);
}

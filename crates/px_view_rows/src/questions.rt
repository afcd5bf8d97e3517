use crate::reader::Reader;
use px_views::StridedView;

/// What a word of the row asks of the view.
pub fn asked(view: &StridedView, word: &str, reader: &mut Reader) {
    match word {
        "cells" => cells(view, reader),
        "facts" => facts(view, reader),
        "empty" => {
            if view.extent().is_some() {
                reader.agrees = false;
            }
        }
        "at" => place(view, reader),
        "" => (),
        _ => reader.agrees = false,
    }
}

/// The extents, and the places of all cells in row-major order.
fn cells(view: &StridedView, reader: &mut Reader) {
    let second = if view.rank > 1 { view.shape[1] } else { 1 };
    let third = if view.rank > 2 { view.shape[2] } else { 1 };
    reader.expect(u64::from(view.rank));
    reader.expect(view.shape[0]);
    reader.expect(second);
    reader.expect(third);
    if view.extent().is_none() {
        return;
    }
    for i in 0..view.shape[0] {
        for j in 0..second {
            for k in 0..third {
                cell(view, [i as i128, j as i128, k as i128], reader);
            }
        }
    }
}

/// The place of a cell.
fn cell(view: &StridedView, at: [i128; 3], reader: &mut Reader) {
    match view.place(at, false) {
        Ok(place) => reader.expect(place),
        Err(_) => reader.agrees = false,
    }
}

/// The least and the greatest place, the step, and whether the view is contiguous in either order.
fn facts(view: &StridedView, reader: &mut Reader) {
    match view.extent() {
        Some((least, greatest)) => {
            reader.expect(least);
            reader.expect(greatest);
        }
        None => reader.agrees = false,
    }
    reader.expect(view.step());
    if reader.yes() != view.is_c() || reader.yes() != view.is_fortran() {
        reader.agrees = false;
    }
}

/// The fault of an index on each axis, and without one the place.
fn place(view: &StridedView, reader: &mut Reader) {
    let at = [reader.index(), reader.index(), reader.index()];
    let wraparound = reader.yes();
    match view.place(at, wraparound) {
        Ok(place) => {
            reader.expect(0);
            reader.expect(place);
        }
        Err(fault) => reader.expect_fault(fault),
    }
}

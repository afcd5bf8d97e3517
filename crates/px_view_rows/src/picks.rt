ghost use Rattle.std.specs.Prelude.{◌≡◌, ◌≤◌, IfSome, take};
ghost use Rattle.px_model.specs.Views.{cell_count};

use crate::questions::asked;
use crate::reader::Reader;
use px_base::CType;
use px_views::StridedView;

/// The view of the array that the row begins with, where it is within the limits.
pub fn array(reader: &mut Reader) -> Option<StridedView> {
    let fortran = reader.word() == "fortran";
    let rank = reader.axis();
    let shape = [reader.count(), reader.count(), reader.count()];
    if rank < 1 || rank > 3 || cells_of(rank, shape)? > 67_108_864 {
        return None;
    }
    Some(StridedView::whole(1, CType::Long, rank, shape, fortran))
}

/// How many cells an array has.
fn cells_of(rank: u8, shape: [u64; 3]) -> Option<u64>
    requires some { 1 ≤ rank }
    requires few { rank ≤ 3 }
    ensures { IfSome result (λ count. count ≡ cell_count (take rank shape)) }
{
    match rank {
        1 => Some(shape[0]),
        2 => shape[0].checked_mul(shape[1]),
        _ => shape[0].checked_mul(shape[1].checked_mul(shape[2])?),
    }
}

/// What the next words of the row make of the view.
pub fn changed(view: &StridedView, reader: &mut Reader) -> StridedView {
    match reader.word() {
        "turn" => view.transpose(),
        "axis" => widened(view, reader),
        "slice" => sliced(view, reader),
        "index" => picked(view, reader),
        word => {
            asked(view, word, reader);
            *view
        }
    }
}

fn widened(view: &StridedView, reader: &mut Reader) -> StridedView {
    let axis = reader.axis();
    if view.rank < 3 && axis <= view.rank {
        view.new_axis(axis)
    } else {
        reader.agrees = false;
        *view
    }
}

fn sliced(view: &StridedView, reader: &mut Reader) -> StridedView {
    let axis = reader.axis();
    let from = reader.bound();
    let to = reader.bound();
    let step = reader.bound();
    if axis >= view.rank {
        reader.agrees = false;
        return *view;
    }
    match view.slice(axis, from, to, step) {
        Ok(slice) => {
            reader.expect(0);
            slice
        }
        Err(fault) => {
            reader.expect_fault(fault);
            *view
        }
    }
}

fn picked(view: &StridedView, reader: &mut Reader) -> StridedView {
    let axis = reader.axis();
    let at = reader.index();
    let wraparound = reader.yes();
    if view.rank < 2 || axis >= view.rank {
        reader.agrees = false;
        return *view;
    }
    match view.pick(axis, at, wraparound) {
        Ok(part) => {
            reader.expect(0);
            part
        }
        Err(fault) => {
            reader.expect_fault(fault);
            *view
        }
    }
}

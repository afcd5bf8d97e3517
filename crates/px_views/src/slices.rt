ghost use Rattle.std.specs.Prelude.{◌≡◌, ◌≢◌, ℕ, ◌<◌, ◌≤◌, pos, ◌+ℤ◌, ◌*ℤ◌, ◌≤ℤ◌, length, slice_index};
ghost use Rattle.px_model.specs.Sequences.{clipped, from_end, highest, lowest, slice_distance, slice_indices, slice_start, slice_stop};

/// Which items along an axis a slice picks: the first one, and how many, a step apart.
#[derive(Clone, Copy)]
pub struct Cut {
    pub first: u64,
    pub count: u64,
}

/// The items that a slice picks.
pub fn cut_of(extent: u64, from: Option<i128>, to: Option<i128>, step: i128) -> Cut
    requires { step ≢ pos 0 }
    ensures count { result.count ≡ length (slice_indices extent from to step) }
    ensures items { (m : ℕ) → m < result.count → pos (slice_index (slice_indices extent from to step) m) ≡ pos result.first +ℤ pos m *ℤ step }
{
    let up = step > 0;
    let start = start_of(extent, up, from);
    let stop = stop_of(extent, up, to);
    let far = distance(extent, up, start, stop);
    Cut {
        first: if start < 0 { 0 } else { start as u64 },
        count: (far as u128).div_ceil(step.unsigned_abs()) as u64,
    }
}

fn start_of(extent: u64, up: bool, from: Option<i128>) -> i128
    ensures { result ≡ slice_start extent up from }
{
    match from {
        Some(bound) => clip(extent, up, bound),
        None => if up {
            lowest_of(up)
        } else {
            highest_of(extent, up)
        },
    }
}

fn stop_of(extent: u64, up: bool, to: Option<i128>) -> i128
    ensures { result ≡ slice_stop extent up to }
{
    match to {
        Some(bound) => clip(extent, up, bound),
        None => if up {
            highest_of(extent, up)
        } else {
            lowest_of(up)
        },
    }
}

fn clip(extent: u64, up: bool, bound: i128) -> i128
    ensures { result ≡ clipped extent up bound }
{
    lowest_of(up).max(highest_of(extent, up).min(end_or(extent, bound)))
}

fn lowest_of(up: bool) -> i128
    ensures { result ≡ lowest up }
{
    if up { 0 } else { -1 }
}

fn highest_of(extent: u64, up: bool) -> i128
    ensures { result ≡ highest extent up }
{
    if up {
        extent as i128
    } else {
        extent as i128 - 1
    }
}

/// A bound, which is relative to the end where it is below 0.
fn end_or(extent: u64, bound: i128) -> i128
    ensures { result ≡ from_end extent bound }
{
    if bound < 0 {
        extent as i128 + bound
    } else {
        bound
    }
}

fn distance(extent: u64, up: bool, start: i128, stop: i128) -> u64
    requires start_low { lowest up ≤ℤ start }
    requires start_high { start ≤ℤ highest extent up }
    requires stop_low { lowest up ≤ℤ stop }
    requires stop_high { stop ≤ℤ highest extent up }
    ensures { result ≡ slice_distance up start stop }
{
    let far = if up { stop - start } else { start - stop };
    if far < 0 { 0 } else { far as u64 }
}

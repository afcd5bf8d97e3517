//! What holds of the table of chunks, each as the contract of a function that does nothing.
ghost use Rattle.std.specs.Prelude.{◌≡◌, ◌≢◌, ℕ, ◌<◌, ◌≤◌, ◌+◌, ◌-◌, length, min, slice_index, unwrap_or, IsSomeAnd, Some, None};
ghost use Rattle.std.specs.Int.{div_ceil};
ghost use Rattle.std.specs.List.{range_with_len};
ghost use Rattle.std.specs.Option.{ForSome};
ghost use Rattle.px_base.specs.declared.c_types.Schedule.TheVariants.{Static, Dynamic, Guided};
ghost use Rattle.px_model.specs.Chunks.{chunk_owner, chunk_table, first_place, guided_block, places_held};
ghost use Rattle.px_model.specs.Partition.{partition};

use px_base::Schedule;

/// The chunks of a loop hold each place below its number of iterations once, in order.
pub fn chunks_hold_each_place_once(n: u64, members: u32, schedule: Schedule, size: Option<u64>)
    requires some_members { 1 ≤ members }
    requires some_size { ForSome size (λ s. 1 ≤ s) }
    ensures { places_held (chunk_table (partition n members schedule size)) ≡ range_with_len 0 n }
{}

/// How many chunks there are, none of which is empty.
pub fn number_of_chunks(n: u64, members: u32, schedule: Schedule, size: Option<u64>)
    requires some_members { 1 ≤ members }
    requires some_size { ForSome size (λ s. 1 ≤ s) }
    ensures even { schedule ≡ Static → size ≡ None → length (chunk_table (partition n members schedule size)) ≡ min n members }
    ensures sized { schedule ≡ Static → size ≢ None → length (chunk_table (partition n members schedule size)) ≡ div_ceil n (unwrap_or size 1) }
    ensures dynamic { schedule ≡ Dynamic → length (chunk_table (partition n members schedule size)) ≡ div_ceil n (unwrap_or size 1) }
    ensures guided { schedule ≡ Guided → length (chunk_table (partition n members schedule size)) ≤ div_ceil n (unwrap_or size 1) }
    ensures nonempty { (k : ℕ) → k < length (chunk_table (partition n members schedule size)) → 1 ≤ slice_index (chunk_table (partition n members schedule size)) k }
{}

/// A chunk of a static schedule has one owner, a member of the team.
pub fn static_chunks_have_one_owner(n: u64, members: u32, size: Option<u64>, k: u64)
    requires some_members { 1 ≤ members }
    requires within { k < length (chunk_table (partition n members Static size)) }
    ensures { IsSomeAnd (chunk_owner (partition n members Static size) k) (λ member. member < members) }
{}

/// A chunk of a guided schedule is a member's share of what the chunks before it leave, but of the size at least.
pub fn guided_chunks_are_shares(n: u64, members: u32, size: Option<u64>, k: u64)
    requires some_size { ForSome size (λ s. 1 ≤ s) }
    requires within { k < length (chunk_table (partition n members Guided size)) }
    ensures { let table = chunk_table (partition n members Guided size) in slice_index table k ≡ guided_block members (unwrap_or size 1) (n - first_place table k) }
{}

/// A chunk of a guided schedule is never larger than the one before it.
pub fn guided_chunks_never_grow(n: u64, members: u32, size: Option<u64>, k: u64)
    requires some_members { 1 ≤ members }
    requires some_size { ForSome size (λ s. 1 ≤ s) }
    requires within { k + 1 < length (chunk_table (partition n members Guided size)) }
    ensures { let table = chunk_table (partition n members Guided size) in slice_index table (k + 1) ≤ slice_index table k }
{}

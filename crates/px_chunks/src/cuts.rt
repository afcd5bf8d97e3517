ghost use Rattle.std.specs.Prelude.{◌≡◌, ◌<◌, ◌≤◌, ◌+◌, ◌-◌, ◌%◌, ◌^◌, length, nat_lt, slice_index, if◌then◌else◌, unwrap_or, IfOk};
ghost use Rattle.std.specs.Option.{ForSome};
ghost use Rattle.px_model.specs.Chunks.{blocks_of, chunk_at, even_blocks, guided_block, guided_blocks};
ghost use Rattle.px_chunks.specs.Starts.{starts_from};

use std::alloc::{AllocError, Global};

/// The number of chunks where each member has one.
pub fn even_count(n: u64, members: u64) -> u64
    requires { 1 ≤ members }
    ensures { result ≡ length (even_blocks n members) }
{
    n.min(members)
}

/// A chunk where each member has one.
pub fn even_chunk(n: u64, members: u64, k: u64) -> (u64, u64)
    requires members { 1 ≤ members }
    requires limit { n < 2 ^ 64 - 1 }
    requires within { k < length (even_blocks n members) }
    ensures { result ≡ chunk_at (even_blocks n members) k }
{
    let share = n / members;
    let longer = n % members;
    (k * share + k.min(longer), even_share(k, share, longer))
}

fn even_share(k: u64, share: u64, longer: u64) -> u64
    requires { share < 2 ^ 64 - 1 }
    ensures { result ≡ (if nat_lt k longer then share + 1 else share) }
{
    if k < longer { share + 1 } else { share }
}

/// The member that has a chunk where they go round.
pub fn member_of(k: u64, members: u32) -> u32
    requires { 1 ≤ members }
    ensures { result ≡ k % members }
{
    (k % members as u64) as u32
}

/// The size of the chunks of a dynamic schedule, and the least size under a guided one: 1 where the loop asks for none.
pub fn least_size(size: Option<u64>) -> u64
    requires { ForSome size (λ s. 1 ≤ s) }
    ensures value { result ≡ unwrap_or size 1 }
    ensures some { 1 ≤ result }
{
    size.unwrap_or(1)
}

/// The number of chunks of a size.
pub fn block_count(n: u64, size: u64) -> u64
    requires { 1 ≤ size }
    ensures { result ≡ length (blocks_of size n) }
{
    n.div_ceil(size)
}

/// A chunk of a size, the last of which may be shorter.
pub fn block_chunk(n: u64, size: u64, k: u64) -> (u64, u64)
    requires size { 1 ≤ size }
    requires within { k < length (blocks_of size n) }
    ensures { result ≡ chunk_at (blocks_of size n) k }
{
    let first = k * size;
    (first, size.min(n - first))
}

/// The first places of the chunks of a guided schedule.
pub fn guided_starts(
    alloc: Global,
    n: u64,
    members: u64,
    least: u64,
) -> Result<Vec<u64>, AllocError>
    requires members { 1 ≤ members }
    requires least { 1 ≤ least }
    ensures { IfOk result (λ starts. starts.items ≡ starts_from 0 (guided_blocks members least n n)) }
{
    let mut starts = Vec::new(alloc);
    let mut at = 0;
    while at < n {
        starts.push(at)?;
        at += guided_count(n - at, members, least);
    }
    Ok(starts)
}

fn guided_count(rest: u64, members: u64, least: u64) -> u64
    requires { 1 ≤ members }
    ensures { result ≡ guided_block members least rest }
{
    rest.min(least.max(rest.div_ceil(members)))
}

/// The chunk that begins at one of these places and ends where the next one begins, or at the end.
pub fn started_chunk(starts: &[u64], n: u64, k: usize) -> (u64, u64)
    requires within { k < length starts.now }
    requires ordered { slice_index starts.now k ≤ (if nat_lt (k + 1) (length starts.now) then slice_index starts.now (k + 1) else n) }
    ensures first { result.0 ≡ slice_index starts.now k }
    ensures past { result.0 + result.1 ≡ (if nat_lt (k + 1) (length starts.now) then slice_index starts.now (k + 1) else n) }
{
    let first = starts[k];
    let past = if k + 1 < starts.len() {
        starts[k + 1]
    } else {
        n
    };
    (first, past - first)
}

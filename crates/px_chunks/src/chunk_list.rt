ghost use Rattle.std.specs.Prelude.{◌≡◌, ◌≢◌, ◌<◌, ◌≤◌, length, IfOk, IsOk, IsNone, ◌↔◌, ◌⊎◌};
ghost use Rattle.std.specs.Option.{ForSome};
ghost use Rattle.px_base.specs.declared.c_types.Schedule.TheVariants.{Dynamic, Guided};
ghost use Rattle.px_model.specs.Chunks.{chunk_at, chunk_owner, chunk_table};
ghost use Rattle.px_model.specs.Partition.{partition};
ghost use Rattle.px_chunks.specs.Starts.{starts_from};

use crate::cuts::{
    block_chunk, block_count, even_chunk, even_count, guided_starts, least_size, member_of,
    started_chunk,
};
use px_base::{NoMemory, Schedule};
use std::alloc::{AllocError, Global};
use std::marker::Model;

/// The chunks of a parallel loop. Contracts see it as the loop's numbers of iterations and members, its schedule and its
/// size of chunks (`Partition`), which determine the table of its chunks.
#[derive(Drop)]
pub struct ChunkList {
    count: u64,
    members: u32,
    schedule: Schedule,
    size: Option<u64>,
    /// The first place of each chunk of a guided schedule; empty under the others.
    starts: Vec<u64>,
}

impl Model for ChunkList {
    ghost use Rattle.px_model.specs.Partition.{Partition, partition};
    ghost use Rattle.px_chunks.specs.Stored.{IsStored};

    ghost Value = { Partition };

    ghost view = { λ c. partition c.count c.members c.schedule c.size };

    ghost invariant = { λ c. IsStored (partition c.count c.members c.schedule c.size) c.starts.items };
}

impl ChunkList {
    /// The chunks of a loop of `n` iterations for a team of so many members. Only those of a guided schedule take memory.
    ///
    /// # Errors
    /// `NoMemory` where there is no memory.
    pub fn new(
        alloc: Global,
        n: u64,
        members: u32,
        schedule: Schedule,
        size: Option<u64>,
    ) -> Result<ChunkList, NoMemory>
        requires few_iterations { n ≤ 16777216 }
        requires some_members { 1 ≤ members }
        requires few_members { members ≤ 64 }
        requires some_size { ForSome size (λ s. 1 ≤ s) }
        ensures made { IfOk result (λ made. made ≡ partition n members schedule size) }
        ensures without_memory { schedule ≢ Guided → IsOk result }
    {
        let starts = starts_of(alloc, n, members, schedule, size)?;
        Ok(ChunkList {
            count: n,
            members,
            schedule,
            size,
            starts,
        })
    }

    /// The number of chunks.
    pub fn len(&self) -> u64
        ensures { result ≡ length (chunk_table self.now) }
    {
        match self.schedule {
            Schedule::Static => match self.size {
                None => even_count(self.count, self.members as u64),
                Some(size) => block_count(self.count, size),
            },
            Schedule::Dynamic => block_count(self.count, least_size(self.size)),
            Schedule::Guided => self.starts.len() as u64,
        }
    }

    /// The place of the first iteration of a chunk, and how many iterations it has.
    pub fn chunk(&self, k: u64) -> (u64, u64)
        requires { k < length (chunk_table self.now) }
        ensures { result ≡ chunk_at (chunk_table self.now) k }
    {
        match self.schedule {
            Schedule::Static => match self.size {
                None => even_chunk(self.count, self.members as u64, k),
                Some(size) => block_chunk(self.count, size, k),
            },
            Schedule::Dynamic => block_chunk(self.count, least_size(self.size), k),
            Schedule::Guided => started_chunk(&self.starts, self.count, k as usize),
        }
    }

    /// The member that owns a chunk, and `None` where chunks are taken on request.
    pub fn owner(&self, k: u64) -> Option<u32>
        ensures owner { k < length (chunk_table self.now) → result ≡ chunk_owner self.now k }
        ensures on_request { IsNone result ↔ ((self.now.schedule ≡ Dynamic) ⊎ (self.now.schedule ≡ Guided)) }
    {
        match self.schedule {
            Schedule::Static => Some(member_of(k, self.members)),
            Schedule::Dynamic | Schedule::Guided => None,
        }
    }

    /// The number of iterations of the loop.
    pub fn count(&self) -> u64
        ensures value { result ≡ self.now.count }
        ensures limit { result ≤ 16777216 }
    {
        self.count
    }

    /// The number of members of the team.
    pub fn members(&self) -> u32
        ensures value { result ≡ self.now.members }
        ensures some { 1 ≤ result }
        ensures few { result ≤ 64 }
    {
        self.members
    }

    pub fn schedule(&self) -> Schedule
        ensures { result ≡ self.now.schedule }
    {
        self.schedule
    }

    /// The size of chunks that the loop asked for.
    pub fn size(&self) -> Option<u64>
        ensures value { result ≡ self.now.size }
        ensures some { ForSome result (λ size. 1 ≤ size) }
    {
        self.size
    }
}

/// The first places of the chunks of a guided schedule.
fn starts_of(
    alloc: Global,
    n: u64,
    members: u32,
    schedule: Schedule,
    size: Option<u64>,
) -> Result<Vec<u64>, AllocError>
    requires some_members { 1 ≤ members }
    requires some_size { ForSome size (λ s. 1 ≤ s) }
    ensures guided { IfOk result (λ starts. schedule ≡ Guided → starts.items ≡ starts_from 0 (chunk_table (partition n members schedule size))) }
    ensures others { schedule ≢ Guided → IsOk result }
{
    match schedule {
        Schedule::Guided => guided_starts(alloc, n, members as u64, least_size(size)),
        Schedule::Static | Schedule::Dynamic => Ok(Vec::new(alloc)),
    }
}

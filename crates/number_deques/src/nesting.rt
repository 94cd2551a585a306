ghost use Rattle.std.specs.Prelude.{◌≡◌, ◌+◌, ◌*◌, ◌/◌, ◌<◌, ◌≤◌, ℕ, All, IfOk, length, max, vec_len};

use crate::deque::Deque;
use crate::nest::Nest;
use crate::thief::Thief;
use no_memory::NoMemory;
use std::alloc::Global;

/// Into so many chunks the regions are cut for each member, as far as there are regions.
const CHUNKS: u32 = 4;

/// An empty nest for each of so many members, which hand the numbers of so many regions to each other.
pub fn nests(alloc: Global, members: u32, regions: u32) -> Result<Vec<Nest>, NoMemory>
    requires members { (1 ≤ members) × (members ≤ 16) }
    requires regions { 1 ≤ regions }
    ensures one_each { IfOk result (λ nests. vec_len nests ≡ members) }
    ensures made { IfOk result (λ nests. All (λ nest. nest ≡ record { members = members; regions = regions }) nests.items) }
{
    let mut owns = deques(alloc, members, regions)?;
    let mut others = Vec::with_capacity(alloc, members as usize)?;
    for number in 0..owns.len() {
        others.push(thieves(alloc, &mut owns, number)?)?;
    }
    joined(alloc, owns, others, regions)
}

// Each deque with the thieves of its member, from the last one on: nests differ in nothing but whom they steal from first.
// Each has room for the numbers of so many regions that its deque has no memory for.
fn joined(
    alloc: Global,
    mut owns: Vec<Deque>,
    mut others: Vec<Vec<Thief>>,
    regions: u32,
) -> Result<Vec<Nest>, NoMemory>
    requires one_each { vec_len others ≡ vec_len owns }
    requires knows { (regions : ℕ) × All (λ own. own ≡ regions) owns.items × All (λ thieves. All (λ thief. thief ≡ regions) thieves.items) others.items }
    requires many { All (λ thieves. vec_len thieves + 1 ≡ vec_len owns) others.items }
    requires members { (1 ≤ vec_len owns) × (vec_len owns ≤ 16) }
    ensures one_each { IfOk result (λ nests. vec_len nests ≡ vec_len owns) }
    ensures made { (regions : ℕ) → All (λ own. own ≡ regions) owns.items → IfOk result (λ nests. All (λ nest. nest ≡ record { members = vec_len owns; regions = regions }) nests.items) }
{
    let chunk_size = chunk_size_for(owns.len() as u32, regions);
    let mut nests = Vec::with_capacity(alloc, owns.len())?;
    while let (Some(own), Some(thieves)) = (owns.pop(), others.pop()) {
        let refused = Vec::with_capacity(alloc, regions as usize)?;
        nests.push(Nest::new(own, thieves, refused, chunk_size))?;
    }
    Ok(nests)
}

// How many regions a chunk has: the more, the less often a number is popped and pushed.
fn chunk_size_for(members: u32, regions: u32) -> u32
    requires { (1 ≤ members) × (members ≤ 16) }
    ensures { result ≡ max 1 (regions / (4 * members)) }
{
    (regions / (CHUNKS * members)).max(1)
}

// A deque for each member.
fn deques(alloc: Global, members: u32, regions: u32) -> Result<Vec<Deque>, NoMemory>
    requires { 1 ≤ regions }
    ensures one_each { IfOk result (λ deques. vec_len deques ≡ members) }
    ensures made { IfOk result (λ deques. All (λ deque. deque ≡ regions) deques.items) }
{
    let mut deques = Vec::with_capacity(alloc, members as usize)?;
    for _ in 0..members {
        deques.push(Deque::new(alloc, regions)?)?;
    }
    Ok(deques)
}

// A thief at each deque but one, from the next one on and round.
fn thieves(alloc: Global, deques: &mut [Deque], number: usize) -> Result<Vec<Thief>, NoMemory>
    requires one_of { number < length deques.old }
    requires few { length deques.old ≤ 16 }
    ensures same { deques.new ≡ deques.old }
    ensures others { IfOk result (λ thieves. vec_len thieves + 1 ≡ length deques.old) }
    ensures knows { IfOk result (λ thieves. (regions : ℕ) → All (λ deque. deque ≡ regions) deques.old → All (λ thief. thief ≡ regions) thieves.items) }
{
    let members = deques.len();
    let mut thieves = Vec::with_capacity(alloc, members)?;
    for k in 1..members {
        let other = (number + k) % members;
        thieves.push(deques[other].thief()?)?;
    }
    Ok(thieves)
}

//! Values that are put nearly in order of their bytes, eight bytes at a time, so that the sort
//! behind only goes over them. Sorting by numbers reads each text a few times, where sorting by
//! texts reads two for each comparison. Only time depends on it.
ghost use Rattle.std.specs.Prelude.{◌≡◌, Bool, IfOk, map};
ghost use Rattle.std.specs.List.{list_any};
ghost use Rattle.lf_index.specs.Near.{values_of};

use lf_base::Memory;
use std::alloc::Global;

// Fewer values are sorted by their texts alone.
const FEW: usize = 32;

// Behind so many chunks bytes are left to the sort behind.
const MOST_CHUNKS: usize = 32;

// How many bytes a chunk has.
const CHUNK: usize = 8;

/// What is put in order by bytes.
pub trait Chunked {
    /// Some of the bytes as a number, the first of them most. Zeros stand behind the last byte.
    fn chunk(&self, place: usize) -> u64;

    /// How many chunks there are.
    fn chunks(&self) -> usize;
}

/// A chunk of bytes.
pub fn chunk_of(bytes: &[u8], place: usize) -> u64 {
    let first = place.saturating_mul(CHUNK);
    let mut chunk = 0u64;
    for at in first..first.saturating_add(CHUNK) {
        let byte = bytes.get(at).copied().unwrap_or(0);
        chunk = (chunk << 8) | u64::from(byte);
    }
    chunk
}

/// How many chunks bytes have.
pub fn chunks_of(bytes: &[u8]) -> usize {
    bytes.len() / CHUNK + 1
}

/// The values, nearly in order: by their last chunks, then by those before, and at last by their
/// first.
pub fn nearly_sorted<T: Chunked + Drop>(alloc: Global, values: Vec<T>) -> Result<Vec<T>, Memory>
    ensures { IfOk result
        (λ made. (test : T → Bool) → list_any test made.items ≡ list_any test values.items) }
{
    if values.len() < FEW {
        return Ok(values);
    }
    let count = most_chunks(values.as_slice());
    let mut made = values;
    for before in 0..count {
        made = by_chunk(alloc, made, count - 1 - before)?;
    }
    Ok(made)
}

// How many chunks the longest of some values has, as far as they count.
fn most_chunks<T: Chunked>(values: &[T]) -> usize {
    let mut most = 0usize;
    for value in values {
        most = most.max(value.chunks());
    }
    most.min(MOST_CHUNKS)
}

// A value with one of its chunks.
#[derive(Drop)]
struct Marked<T> {
    chunk: u64,
    value: T,
}

// The values in order of one chunk. Those with the same one stay as they are.
fn by_chunk<T: Chunked + Drop>(
    alloc: Global,
    values: Vec<T>,
    place: usize,
) -> Result<Vec<T>, Memory>
    ensures { IfOk result
        (λ made. (test : T → Bool) → list_any test made.items ≡ list_any test values.items) }
{
    if are_alike(values.as_slice(), place) {
        return Ok(values);
    }
    let mut marked = with_chunks(alloc, values, place)?;
    marked.sort_by_key(|one| one.chunk)?;
    without_chunks(alloc, marked)
}

// Whether all values have the same chunk at a place.
fn are_alike<T: Chunked>(values: &[T], place: usize) -> bool {
    match values.first() {
        Some(first) => {
            let chunk = first.chunk(place);
            values.iter().all(|value| value.chunk(place) == chunk)
        }
        None => true,
    }
}

fn with_chunks<T: Chunked + Drop>(
    alloc: Global,
    values: Vec<T>,
    place: usize,
) -> Result<Vec<Marked<T>>, Memory>
    ensures { IfOk result (λ marked. values_of marked.items ≡ values.items) }
{
    let mut marked = Vec::with_capacity(alloc, values.len())?;
    for value in values {
        let chunk = value.chunk(place);
        marked.push(Marked { chunk, value })?;
    }
    Ok(marked)
}

fn without_chunks<T: Drop>(alloc: Global, marked: Vec<Marked<T>>) -> Result<Vec<T>, Memory>
    ensures { IfOk result (λ values. values.items ≡ values_of marked.items) }
{
    let mut values = Vec::with_capacity(alloc, marked.len())?;
    for one in marked {
        let Marked { chunk: _, value } = one;
        values.push(value)?;
    }
    Ok(values)
}

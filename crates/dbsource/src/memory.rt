// Where memory is asked for. `NoMemory` is made here alone, so nothing else can say that memory was refused.
ghost use Rattle.std.specs.Prelude.{[], ◌≡◌, ◌+◌, ◌<◌, ◌≤◌, ◌++◌, ◌∷◌, if◌then◌else◌, is_ok, length, replicate, IfOk, OnErr};
ghost use Rattle.std.specs.Prelude.{vec_capacity, vec_len};

use std::alloc::{AllocError, Allocator};
use thiserror::Error;

/// Memory was refused. The calls that make a Vec or let one grow ([`filled`], [`with_room`], [`push`] and [`extend`]) answer
/// one where the allocator refused a growth, and nothing else makes one. So whoever answers it asked for memory that it did
/// not get.
#[derive(Clone, Copy, Debug, Error, PartialEq, Eq)]
#[error("memory was refused")]
pub struct NoMemory {
    // Private, so that no other module makes one.
    _refused: (),
}

// What the allocator's refusal is called from here on.
fn refused(_error: AllocError) -> NoMemory {
    NoMemory { _refused: () }
}

/// `count` copies of `value`, in one growth.
///
/// # Errors
///
/// [`NoMemory`] where it was refused. That none is asked for is not refused.
pub fn filled<T: Copy, A: Allocator>(
    alloc: A,
    value: T,
    count: usize,
) -> Result<Vec<T, A>, NoMemory>
    ensures items { IfOk result (λ v. v.items ≡ replicate count value) }
    ensures len { IfOk result (λ v. vec_len v ≡ count) }
    ensures needed { OnErr result (0 < count) }
{
    let mut made = with_room(alloc, count)?;
    // There is room, so this is not refused.
    let _ = made.resize(count, value);
    Ok(made)
}

/// An empty Vec with room for `capacity` values, in one growth.
///
/// # Errors
///
/// [`NoMemory`] where it was refused. Room for none is not refused.
pub fn with_room<T, A: Allocator>(alloc: A, capacity: usize) -> Result<Vec<T, A>, NoMemory>
    ensures items { IfOk result (λ v. v.items ≡ []) }
    ensures len { IfOk result (λ v. vec_len v ≡ 0) }
    ensures room { IfOk result (λ v. vec_capacity v ≡ capacity) }
    ensures needed { OnErr result (0 < capacity) }
{
    Vec::with_capacity(alloc, capacity).map_err(refused)
}

/// Appends `value`.
///
/// # Errors
///
/// [`NoMemory`] where a growth was refused, which is needed only where there is no room. The Vec is then as it was.
pub fn push<T: Drop, A: Allocator>(items: &mut Vec<T, A>, value: T) -> Result<(), NoMemory>
    ensures items { items.new.items ≡ (if is_ok result then items.old.items ++ value ∷ [] else items.old.items) }
    ensures len { vec_len items.new ≡ (if is_ok result then vec_len items.old + 1 else vec_len items.old) }
    ensures needed { OnErr result (vec_capacity items.old ≤ vec_len items.old) }
{
    match items.push(value) {
        Ok(()) => Ok(()),
        Err(_) => Err(refused(AllocError)),
    }
}

/// Appends the values of `more`.
///
/// # Errors
///
/// [`NoMemory`] where a growth was refused, which is needed only where there is too little room. The Vec is then as it was.
pub fn extend<T: Copy, A: Allocator>(items: &mut Vec<T, A>, more: &[T]) -> Result<(), NoMemory>
    ensures items { items.new.items ≡ (if is_ok result then items.old.items ++ more.now else items.old.items) }
    ensures len { vec_len items.new ≡ (if is_ok result then vec_len items.old + length more.now else vec_len items.old) }
    ensures needed { OnErr result (vec_capacity items.old < vec_len items.old + length more.now) }
{
    items.extend_from_slice(more).map_err(refused)
}

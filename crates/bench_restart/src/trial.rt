//! What is timed, so that each is refused where it cannot be.
ghost use Rattle.std.specs.Prelude.{IfOk};
ghost use Rattle.restart_file.specs.Joined.{KeepsForest};

use anyhow::{Result, anyhow};
use mesh_names::name::ElemName;
use restart_file::laws::kept_over_part;
use restart_file::{Restart, overlay, put_restart, read_restart};
use std::alloc::Global;

/// What a file keeps.
pub fn read(alloc: Global, bytes: &[u8]) -> Result<Restart>
    ensures { IfOk result (λ r. KeepsForest r.macro_bytes.items r.mesh r.members.items) }
{
    if bytes.len() > 33_554_432 {
        return Err(anyhow!("longer than 33554432 bytes"));
    }
    match read_restart(alloc, bytes) {
        Ok(kept) => Ok(kept),
        Err(refusal) => Err(anyhow!("{refusal:?}")),
    }
}

/// The file of what is kept.
pub fn written(alloc: Global, kept: &Restart) -> Result<Vec<u8>>
    requires { KeepsForest kept.now.macro_bytes.items kept.now.mesh kept.now.members.items }
{
    match put_restart(alloc, &kept.macro_bytes, &kept.mesh, &kept.members) {
        Ok(bytes) => Ok(bytes),
        Err(_) => Err(anyhow!("out of memory")),
    }
}

/// The members of the overlay of two forests over one macro file.
pub fn laid_over(alloc: Global, first: &Restart, second: &Restart) -> Result<Vec<ElemName>>
    requires first { KeepsForest first.now.macro_bytes.items first.now.mesh first.now.members.items }
    requires second { KeepsForest second.now.macro_bytes.items second.now.mesh second.now.members.items }
{
    kept_over_part();
    if first.macro_bytes.as_slice() != second.macro_bytes.as_slice() {
        return Err(anyhow!("the macro files differ"));
    }
    match overlay(alloc, &first.mesh, &first.members, &second.members) {
        Ok(members) => Ok(members),
        Err(_) => Err(anyhow!("out of memory")),
    }
}

/// A sum over the bytes by which two files are told apart.
pub fn checksum(bytes: &[u8]) -> u32 {
    let mut sum = 0_u32;
    for byte in bytes {
        sum = sum.wrapping_mul(31).wrapping_add(u32::from(*byte));
    }
    sum
}

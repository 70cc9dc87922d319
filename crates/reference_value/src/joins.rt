//! Masks that are joined to the values of a reference.

ghost use Rattle.std.specs.Prelude.{◌≡◌, ◌*◌, ◌<◌, ◌^◌, length, IsTrue, IsOk, IfOk, OnOk};
ghost use Rattle.disk_trait.specs.Faults.{HasCause};
ghost use Rattle.lms_bytes.specs.Bytes.{xor};
ghost use Rattle.reference_value.specs.Joins.{joined_chains};
ghost use Rattle.reference_value.specs.Places.{randomizer_in};
ghost use Rattle.reference_value.specs.Stay.{CellsStay};
ghost use Rattle.mask_prf.specs.Lengths.{leaves_length};

use crate::cells::{Cells, RefFault};
use lms_bytes::bytes::{part, put};
use lms_bytes::{Params, Val, digit};

/// The masked randomizer of leaf `q` XOR the sum of the members' masks, `n` bytes.
pub fn join_randomizer<R: Cells>(cells: &mut R, q: u32, sum: &Val) -> Result<Val, RefFault>
    requires leaf { q < 2 ^ (R.set cells.old).h }
    requires sum { length sum.now ≡ (R.set cells.old).n }
    ensures value { IsTrue (R.told cells.old)
        → IfOk result (λ c. c
        ≡ xor (randomizer_in (R.set cells.old) (R.plan cells.old) (R.leaves cells.old) q) sum.now) }
    ensures length { IfOk result (λ c. length c ≡ (R.set cells.old).n) }
    ensures succeeds { IsTrue (R.steady cells.old) → IsTrue (R.told cells.old)
        → length (R.leaves cells.old) ≡ leaves_length (R.set cells.old) (R.plan cells.old) → IsOk result }
    ensures cause { HasCause (R.count cells.old) (R.count cells.new) result }
    ensures stays { CellsStay R.Cells.own R.Faults cells.old cells.new }
{
    Ok(cells.randomizer(q)?.xor(sum))
}

/// Writes for each chain `i` of leaf `q` the cell at the digest's digit XOR the `i`-th of the sums of the members'
/// masks, `p` values of `n` bytes. After a refusal `out` holds any bytes.
pub fn join_chains<R: Cells>(
    params: &Params,
    cells: &mut R,
    q: u32,
    digest: &Val,
    sums: &[u8],
    out: &mut [u8],
) -> Result<(), RefFault>
    requires set { R.set cells.old ≡ params.now }
    requires leaf { q < 2 ^ params.now.h }
    requires digest { length digest.now ≡ params.now.n }
    requires sums { length sums.now ≡ params.now.n * params.now.p }
    requires room { length out.old ≡ params.now.n * params.now.p }
    ensures values { IsTrue (R.told cells.old)
        → OnOk result (out.new
        ≡ joined_chains params.now (R.plan cells.old) (R.leaves cells.old) q digest.now sums.now) }
    ensures succeeds { IsTrue (R.steady cells.old) → IsTrue (R.told cells.old)
        → length (R.leaves cells.old) ≡ leaves_length params.now (R.plan cells.old) → IsOk result }
    ensures cause { HasCause (R.count cells.old) (R.count cells.new) result }
    ensures stays { CellsStay R.Cells.own R.Faults cells.old cells.new }
{
    let n = params.n as usize;
    'chains: for i in 0..params.p {
        let place = n * i as usize;
        let cell = cells.cell(q, i, digit(params, digest, i))?;
        let value = cell.xor(&Val::of(part(sums, place, n)));
        put(out, place, value.bytes());
    }
    Ok(())
}

//! The ends of the rounds.

ghost use Rattle.std.specs.Prelude.{◌≡◌, ◌≢◌, ◌⊎◌, ℕ, List, [], ◌+◌, ◌*◌, ◌<◌, None, Some};
ghost use Rattle.std.specs.Prelude.{Err, IfErr, IfOk, IsOk, IsSome, IsTrue, OnErr, OnOk, length};
ghost use Rattle.disk_trait.specs.Faults.{Rose};
ghost use Rattle.lms_bytes.specs.MessageId.{message_id};
ghost use Rattle.lms_bytes.specs.Signature.{signature_bytes};
ghost use Rattle.lms_verify.specs.Accepts.{AcceptsAt};
ghost use Rattle.merkle_path.specs.Tree.{path_at};
ghost use Rattle.reference_value.specs.Stay.{CellsOnward};
ghost use Rattle.session_core.specs.Judging.{round_fault};
ghost use Rattle.session_core.specs.Rounds.{Finishes, GiveAll, Joins, TurnsTo};
ghost use Rattle.session_core.specs.State.{IsSession, asked_c};
ghost use Rattle.session_core.specs.Verdicts.{AreMasks, IsDigest, JoinFails, LaysOut, LeadsAstray};
ghost use Rattle.session_core.specs.Verdicts.{Unread, digest_of, joined_c, joined_values};
ghost use Rattle.session_core.specs.declared.faults.SessionFault.{SessionFault};

use crate::faults::SessionFault;
use crate::joining::{add_bodies, sum_of_values};
use crate::session::Session;
use lms_bytes::{Val, write_layout};
use lms_verify::{Verdict, verify_digest};
use merkle_path::Tree;
use ots_chain::MessageHash;
use reference_value::{Cells, join_chains, join_randomizer};
use std::alloc::Global;

impl Session {
    /// Goes from round one to round two, if every member's masks are kept. The randomizer is the reference's, XOR the
    /// masks. After a refusal the session is as before.
    pub fn turn<R: Cells>(&mut self, cells: &mut R) -> Result<(), SessionFault>
        requires round { self.old.c ≡ None }
        requires set { R.set cells.old ≡ self.old.key.params }
        requires plan { R.plan cells.old ≡ self.old.plan }
        ensures fault { (fault : SessionFault) → round_fault self.old [] ≡ Some fault → result ≡ Err fault }
        ensures cause { IfErr result (λ fault. (round_fault self.old [] ≡ Some fault)
            ⊎ Unread self.old [] (R.count cells.old) (R.count cells.new) fault) }
        ensures turns { OnOk result (TurnsTo R.Cells.own cells.old self.old self.new) }
        ensures same { OnErr result (self.new ≡ self.old) }
        ensures succeeds { GiveAll R.Cells.own R.Faults cells.old self.old → round_fault self.old [] ≡ None
            → IsOk result }
        ensures onward { CellsOnward R.Cells.own R.Faults cells.old cells.new }
    {
        let zeros = self.asked_c();
        if let Some(fault) = self.round_fault(&zeros) {
            return Err(fault);
        }
        let c = self.join_c(cells)?;
        self.c = Some(c);
        Ok(())
    }

    /// The randomizer that the masks of round one reveal.
    fn join_c<R: Cells>(&self, cells: &mut R) -> Result<Val, SessionFault>
        requires masks { AreMasks self.now.first }
        requires set { R.set cells.old ≡ self.now.key.params }
        requires plan { R.plan cells.old ≡ self.now.plan }
        ensures c { IsTrue (R.told cells.old) → IfOk result (λ c. c ≡ joined_c self.now (R.leaves cells.old)) }
        ensures length { IfOk result (λ c. length c ≡ self.now.key.params.n) }
        ensures cause { IfErr result (λ fault. (fault ≡ SessionFault.Reference)
            × Rose (R.count cells.old) (R.count cells.new)) }
        ensures succeeds { GiveAll R.Cells.own R.Faults cells.old self.now → IsOk result }
        ensures onward { CellsOnward R.Cells.own R.Faults cells.old cells.new }
    {
        let sum = sum_of_values(&self.first, self.key.params.n);
        Ok(join_randomizer(cells, self.leaf, &sum)?)
    }

    /// Joins round two into a signature (RFC 8554 section 5.4.1), and gives it only if it is accepted under the key.
    /// Over the dealer's reference and tree, and with the members' own masks, it is the undivided key's.
    pub fn finish<R: Cells>(
        &self,
        alloc: Global,
        cells: &mut R,
        tree: &Tree,
        message: &[u8],
    ) -> Result<Vec<u8>, SessionFault>
        requires round { IsSome self.now.c }
        requires message { message_id message.now ≡ self.now.message }
        requires cells { (R.set cells.old ≡ self.now.key.params) × (R.plan cells.old ≡ self.now.plan) }
        requires tree { (tree.now.n ≡ self.now.key.params.n) × (tree.now.h ≡ self.now.key.params.h) }
        ensures finishes { Finishes R.Cells.own R.Faults cells.old cells.new self.now tree.now message.now result }
        ensures onward { CellsOnward R.Cells.own R.Faults cells.old cells.new }
    {
        let digest = self.digest(message);
        self.finish_with(alloc, cells, tree, &digest)
    }

    /// The digest Q of a message under the session's randomizer (RFC 8554 section 4.5), of `n` bytes. In round one
    /// there is no randomizer, and zeros take its place.
    pub fn digest(&self, message: &[u8]) -> Val
        ensures digest { result ≡ digest_of self.now message.now }
        ensures length { length result ≡ self.now.key.params.n }
    {
        let c = self.asked_c();
        MessageHash::of(&self.key.params, &self.key.id, self.leaf, &c, message)
    }

    /// Joins round two into a signature by the digest of its message, which is not hashed again: what `finish` does for
    /// each message that has this digest under the session's randomizer.
    pub fn finish_with<R: Cells>(
        &self,
        alloc: Global,
        cells: &mut R,
        tree: &Tree,
        digest: &Val,
    ) -> Result<Vec<u8>, SessionFault>
        requires round { IsSome self.now.c }
        requires digest { IsDigest self.now digest.now }
        requires cells { (R.set cells.old ≡ self.now.key.params) × (R.plan cells.old ≡ self.now.plan) }
        requires tree { (tree.now.n ≡ self.now.key.params.n) × (tree.now.h ≡ self.now.key.params.h) }
        ensures finishes { (message : List ℕ) → digest.now ≡ digest_of self.now message
            → Finishes R.Cells.own R.Faults cells.old cells.new self.now tree.now message result }
        ensures onward { CellsOnward R.Cells.own R.Faults cells.old cells.new }
    {
        self.join_signature(alloc, cells, tree, digest)
    }

    /// Joins round two, as `finish_with` does.
    fn join_signature<R: Cells>(
        &self,
        alloc: Global,
        cells: &mut R,
        tree: &Tree,
        digest: &Val,
    ) -> Result<Vec<u8>, SessionFault>
        requires round { IsSome self.now.c }
        requires digest { IsDigest self.now digest.now }
        requires cells { (R.set cells.old ≡ self.now.key.params) × (R.plan cells.old ≡ self.now.plan) }
        requires tree { (tree.now.n ≡ self.now.key.params.n) × (tree.now.h ≡ self.now.key.params.h) }
        ensures session { IsSession self.now }
        ensures joins { (message : List ℕ) → digest.now ≡ digest_of self.now message
            → Joins R.Cells.own R.Faults cells.old cells.new self.now tree.now message result }
        ensures onward { CellsOnward R.Cells.own R.Faults cells.old cells.new }
    {
        let c = self.asked_c();
        if let Some(fault) = self.round_fault(digest) {
            return Err(fault);
        }
        let values = self.join_values(alloc, cells, digest)?;
        let bytes = self.lay_out(alloc, tree, &c, &values)?;
        self.if_accepted(digest, bytes)
    }

    /// The values of the chains that the masks of round two reveal, `p` values of `n` bytes.
    fn join_values<R: Cells>(
        &self,
        alloc: Global,
        cells: &mut R,
        digest: &Val,
    ) -> Result<Vec<u8>, SessionFault>
        requires digest { length digest.now ≡ self.now.key.params.n }
        requires masks { AreMasks self.now.second }
        requires cells { (R.set cells.old ≡ self.now.key.params) × (R.plan cells.old ≡ self.now.plan) }
        ensures values { IsTrue (R.told cells.old) → IfOk result (λ values. values.items
            ≡ joined_values self.now (R.leaves cells.old) digest.now) }
        ensures length { IfOk result (λ values. length values.items ≡ self.now.key.params.n * self.now.key.params.p) }
        ensures cause { IfErr result (JoinFails (R.count cells.old) (R.count cells.new)) }
        ensures read { GiveAll R.Cells.own R.Faults cells.old self.now
            → IfErr result (λ fault. fault ≢ SessionFault.Reference) }
        ensures onward { CellsOnward R.Cells.own R.Faults cells.old cells.new }
    {
        let params = &self.key.params;
        let length = params.n as usize * params.p as usize;
        let mut sums = vec![in alloc; 0; length]?;
        add_bodies(&self.second, &mut sums);
        let mut values = vec![in alloc; 0; length]?;
        join_chains(params, cells, self.leaf, digest, &sums, &mut values)?;
        Ok(values)
    }

    /// The signature with this randomizer, these values of the chains and the path of the tree.
    fn lay_out(
        &self,
        alloc: Global,
        tree: &Tree,
        c: &Val,
        values: &[u8],
    ) -> Result<Vec<u8>, SessionFault>
        requires tree { (tree.now.n ≡ self.now.key.params.n) × (tree.now.h ≡ self.now.key.params.h) }
        requires c { length c.now ≡ self.now.key.params.n }
        requires values { length values.now ≡ self.now.key.params.n * self.now.key.params.p }
        ensures bytes { IfOk result (λ bytes. bytes.items
            ≡ signature_bytes self.now.key.params self.now.leaf c.now values.now (path_at tree.now self.now.leaf)) }
        ensures layout { IfOk result (λ bytes. LaysOut self.now.key.params bytes.items self.now.leaf c.now) }
        ensures cause { IfErr result (λ fault. fault ≡ SessionFault.NoMemory) }
    {
        let params = &self.key.params;
        let mut path = vec![in alloc; 0; params.n as usize * params.h as usize]?;
        tree.write_path(self.leaf, &mut path);
        let mut bytes = vec![in alloc; 0; 12 + c.bytes().len() + values.len() + path.len()]?;
        write_layout(params, self.leaf, c, values, &path, &mut bytes);
        Ok(bytes)
    }

    /// The bytes of a signature if it is accepted under the key, for each message with this digest.
    fn if_accepted(&self, digest: &Val, bytes: Vec<u8>) -> Result<Vec<u8>, SessionFault>
        requires digest { IsDigest self.now digest.now }
        requires laid { LaysOut self.now.key.params bytes.items self.now.leaf (asked_c self.now) }
        ensures same { IfOk result (λ same. same.items ≡ bytes.items) }
        ensures accepted { (message : List ℕ) → digest.now ≡ digest_of self.now message
            → IfOk result (λ same. AcceptsAt self.now.key message same.items self.now.leaf) }
        ensures refused { (message : List ℕ) → digest.now ≡ digest_of self.now message
            → IfErr result (LeadsAstray self.now message bytes.items) }
    {
        match verify_digest(&self.key, digest, &bytes) {
            Verdict::Accepted { .. } => Ok(bytes),
            Verdict::OtherRoot { got, want } => Err(SessionFault::WrongRoot {
                leaf: self.leaf,
                got,
                want,
            }),
            Verdict::Malformed(_) => unreachable!(),
        }
    }
}

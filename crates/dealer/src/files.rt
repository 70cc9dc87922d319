//! The files of a dealing.

ghost use Rattle.std.specs.Prelude.{◌≡◌, ◌++◌, ◌<◌, IfOk, length, map};
ghost use Rattle.lms_bytes.specs.PublicKey.{public_bytes};
ghost use Rattle.reference_value.specs.Dealing.{Dealing};
ghost use Rattle.share_files.specs.Reference.{reference_head};
ghost use Rattle.share_files.specs.Share.{share_bytes};
ghost use Rattle.share_files.specs.TreeFile.{tree_head};
ghost use Rattle.dealer.specs.Dealt.{IsDealt};
ghost use Rattle.dealer.specs.Files.{AreFiles, AreKeyFiles};
ghost use Rattle.dealer.specs.Onto.{IsKeyDealt};

use crate::dealing::Dealt;
use crate::onto::DealtKey;
use lms_bytes::{PublicKey, write_public};
use memory::NoMemory;
use merkle_path::Tree;
use share_files::{HEAD, RefHeader, Share, write_ref_head, write_share, write_tree_head};
use std::alloc::Global;

/// The files of a dealing, each whole.
#[derive(Drop)]
pub struct DealingFiles {
    /// The public key, `24 + n` bytes.
    pub public: Vec<u8>,
    /// The tree: a head of 32 bytes, and all nodes.
    pub tree: Vec<u8>,
    /// The masked reference value: a head of 32 bytes, and the leaves.
    pub reference: Vec<u8>,
    /// The shares, 64 bytes each, that of trustee 1 first.
    pub shares: Vec<Vec<u8>>,
}

/// The files of a dealing besides the reference, each whole.
#[derive(Drop)]
pub struct KeyFiles {
    /// The public key, `24 + n` bytes.
    pub public: Vec<u8>,
    /// The tree: a head of 32 bytes, and all nodes.
    pub tree: Vec<u8>,
    /// The shares, 64 bytes each, that of trustee 1 first.
    pub shares: Vec<Vec<u8>>,
}

impl DealtKey {
    /// The files besides the reference.
    pub fn into_files(self, alloc: Global) -> Result<KeyFiles, NoMemory>
        ensures { (d : Dealing) → IsKeyDealt d self → IfOk result (AreKeyFiles d) }
    {
        let DealtKey {
            public,
            tree,
            shares,
        } = self;
        key_files(alloc, &public, &tree, &shares)
    }
}

/// The files of a public key, of its tree and of the shares.
fn key_files(
    alloc: Global,
    key: &PublicKey,
    tree: &Tree,
    shares: &[Share],
) -> Result<KeyFiles, NoMemory>
    ensures public { IfOk result (λ files. files.public.items ≡ public_bytes key.now) }
    ensures tree { IfOk result (λ files. files.tree.items ≡ tree_head key.now.params key.now.id ++ tree.now.nodes) }
    ensures shares { IfOk result (λ files.
        map (λ file. file.items) files.shares.items ≡ map share_bytes shares.now) }
{
    Ok(KeyFiles {
        public: public_file(alloc, key)?,
        tree: tree_file(alloc, key, tree)?,
        shares: files_of_shares(alloc, shares)?,
    })
}

impl Dealt {
    /// The files. The head of the reference is that of the shares. The leaves are not copied, and take no memory if
    /// they have room for the 32 bytes of this head.
    pub fn into_files(self, alloc: Global) -> Result<DealingFiles, NoMemory>
        requires { 0 < length self.shares.items }
        ensures files { (d : Dealing) → IsDealt d self → IfOk result (AreFiles d) }
    {
        let share = self.shares[0];
        let header = RefHeader {
            params: share.params,
            plan: share.plan,
            id: share.id,
        };
        let KeyFiles {
            public,
            tree,
            shares,
        } = key_files(alloc, &self.public, &self.tree, &self.shares)?;
        Ok(DealingFiles {
            public,
            tree,
            reference: reference_file(&header, self.reference)?,
            shares,
        })
    }
}

/// The file of a public key, `24 + n` bytes.
pub fn public_file(alloc: Global, key: &PublicKey) -> Result<Vec<u8>, NoMemory>
    ensures { IfOk result (λ file. file.items ≡ public_bytes key.now) }
{
    let mut file = vec![in alloc; 0; 24 + key.params.n as usize]?;
    write_public(key, &mut file);
    Ok(file)
}

/// The file of the tree of a public key.
fn tree_file(alloc: Global, key: &PublicKey, tree: &Tree) -> Result<Vec<u8>, NoMemory>
    ensures { IfOk result (λ file. file.items ≡ tree_head key.now.params key.now.id ++ tree.now.nodes) }
{
    let mut head = [0; HEAD];
    write_tree_head(&key.params, &key.id, &mut head);
    let nodes = tree.nodes();
    let mut file = Vec::with_capacity(alloc, head.len() + nodes.len())?;
    file.extend_from_slice(&head)?;
    file.extend_from_slice(nodes)?;
    Ok(file)
}

/// The reference file of these leaves.
fn reference_file(header: &RefHeader, leaves: Vec<u8>) -> Result<Vec<u8>, NoMemory>
    ensures { IfOk result (λ file. file.items ≡ reference_head header.now ++ leaves.items) }
{
    let mut head = [0; HEAD];
    write_ref_head(header, &mut head);
    let mut file = leaves;
    file.extend_from_slice(&head)?;
    file.rotate_right(head.len());
    Ok(file)
}

/// The files of these shares.
fn files_of_shares(alloc: Global, shares: &[Share]) -> Result<Vec<Vec<u8>>, NoMemory>
    ensures { IfOk result (λ files. map (λ file. file.items) files.items ≡ map share_bytes shares.now) }
{
    let mut files = Vec::with_capacity(alloc, shares.len())?;
    'shares: for share in shares {
        files.push(share_file(alloc, share)?)?;
    }
    Ok(files)
}

/// The file of a share.
fn share_file(alloc: Global, share: &Share) -> Result<Vec<u8>, NoMemory>
    ensures { IfOk result (λ file. file.items ≡ share_bytes share.now) }
{
    let mut file = [0; 64];
    write_share(share, &mut file);
    Ok(Vec::from_slice(alloc, &file)?)
}

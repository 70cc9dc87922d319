//! A session of leaf 0 with what it is joined from.

ghost use Rattle.std.specs.Prelude.{◌≡◌, Contains, IfSome, None, length};
ghost use Rattle.coalition_map.specs.Coalitions.{leaf_members};
ghost use Rattle.lms_bytes.specs.MessageId.{message_id};
ghost use Rattle.mask_prf.specs.Lengths.{leaves_length};

use crate::dealings::{dealt, key_of};
use crate::values::{ID, set_of};
use coalition_map::Plan;
use dealer::Dealt;
use lms_bytes::bytes::put;
use lms_bytes::{Ask, MessageId, Params, PublicKey, ReplyHead, Val, digit};
use mask_prf::{chain_mask, random_mask};
use merkle_path::Tree;
use ots_chain::MessageHash;
use reference_value::{RefFault, Whole, leaf_bytes};
use session_core::{Session, SessionFault, Step};
use std::alloc::Global;
use std::process::Abort;

/// The message that is signed.
pub const MESSAGE: &[u8; 333] =
    b"\xcf\xcd\x68\xac\xc5\xd7\x73\xfc\x74\x34\xa5\xe5\x6c\x9e\xf1\xa7\xbc\x6f\xf9\x64\xa2\x36\xc0\xda\x1c\x33\
    \xb0\x16\xe7\x54\xf6\x63\x7b\x05\xe9\xba\x44\xd0\x22\x53\xb0\x79\x8e\xcd\x2e\x98\x94\x79\xde\xfb\xc7\xd6\
    \xf7\x0a\x8c\xd6\x9c\x25\xd9\xa9\x00\xd3\x01\x54\x04\x45\xab\x63\xe8\xa7\xd6\xde\xfb\xc4\xd7\x1b\xb9\x27\
    \xf1\xfe\x49\xfe\x60\xd6\x76\x5b\x7d\x41\x6e\x97\x72\xb7\x0a\x03\x42\xa6\x7f\xd7\x85\x39\x53\x0c\x9b\x91\
    \xbf\xfa\x0f\xf9\x69\x14\xfd\xb5\x33\x3c\x46\x24\xb2\x38\x46\x59\xe4\x16\x7b\xf9\xfa\xa2\xbd\x82\x46\x12\
    \x1f\xd0\x66\xa6\x46\x54\xce\x19\x5b\xff\x9e\x14\xd0\x37\xa8\x8b\x31\x23\x24\x9a\x61\x72\x45\x22\xa4\xe6\
    \x1c\x82\xb8\xe1\x0d\xe5\x76\xcf\xed\x3e\x58\x20\xd8\x6e\x9c\xa0\x6b\x94\xe6\x23\x69\x98\x6b\xa0\x07\xbe\
    \x0b\xe8\x33\x2a\xbc\x5a\x04\x76\x99\xbc\x2e\xc9\x83\x19\xc2\x09\x94\x53\x99\x0f\x14\x9a\x8a\x70\x73\x3e\
    \xeb\x67\x80\x1c\x0f\xb2\xd5\x68\x16\x58\x4d\x04\x47\x9e\x25\xc7\x7e\x4f\x99\x7f\xcf\x6e\x88\x52\xee\x7a\
    \x00\xd7\x28\xa1\x10\xc3\x97\xaf\x66\xdc\x92\x7e\xf5\x98\x7d\x56\xbe\xc0\x3a\xa0\x72\x73\xd0\xbc\x54\x87\
    \x1d\xde\xd2\x23\x21\xd3\x77\x9b\xbd\x6e\x5d\x24\xb6\xe7\x0b\x30\xaa\xce\x5d\x74\x30\x6a\xf0\x4d\xe4\x1a\
    \xbf\x94\x0e\x44\xd6\x3f\xab\xfd\x47\xfa\x16\x83\x9c\x93\xfe\xd8\x36\x90\x64\x59\x7b\x63\x2b\xf8\x68\xb1\
    \x45\xc1\xd8\xd6\xcd\x4c\xee\xb8\x8b\x32\x08\x38\xdb\xd6\x58\xda\xe5\x7c\xcc\xcd\xa9";

/// The bytes of all leaves of a reference of the typecodes 10 and 7.
pub const LEAVES: usize = 32 * 19_704;

/// The masks of a trustee with this key for the chains of leaf 0 under a randomizer, one after the other.
pub fn masks_of(params: &Params, key: &[u8; 32], c: &Val) -> Option<[u8; 8480]> {
    let n = params.n as usize;
    if c.bytes().len() != n {
        return None;
    }
    let digest = MessageHash::of(params, &ID, 0, c, MESSAGE);
    let mut masks = [0; 8480];
    for i in 0..params.p {
        let mask = chain_mask(key, params, &ID, 0, i, digit(params, &digest, i));
        put(&mut masks, n * i as usize, mask.bytes());
    }
    Some(masks)
}

/// A session of leaf 0 for coalitions of 3 of 5 trustees, and what it is joined from.
#[derive(Drop)]
pub struct Meeting {
    pub params: Params,
    pub plan: Plan,
    leaves: Vec<u8>,
    tree: Tree,
    message: Vec<u8>,
    pub session: Session,
    pub ghost height: { plan.h ≡ params.h },
    pub ghost size: { length leaves.items ≡ leaves_length params plan },
    pub ghost nodes: { (tree.n ≡ params.n) × (tree.h ≡ params.h) },
    pub ghost set: { session.key.params ≡ params },
    pub ghost coalitions: { session.plan ≡ plan },
    pub ghost text: { session.message ≡ message_id message.items },
}

impl Meeting {
    /// A session that is joined from these leaves, under the key whose tree has these nodes.
    fn new(
        rt: &impl Abort,
        alloc: Global,
        codes: (u32, u32),
        leaves: Vec<u8>,
        nodes: &[u8],
    ) -> Meeting {
        let params = set_of(rt, codes.0, codes.1);
        assert!(rt; params.h == 5);
        let plan = Plan::new(5, 3, 5).expect(rt, "a plan");
        assert!(rt; leaves.len() == leaf_bytes(&params, plan.k()) * 32);
        assert!(rt; nodes.len() == params.n as usize * 63);
        let tree = Tree::of_nodes(alloc, &params, nodes).expect(rt, "memory");
        let key = PublicKey {
            params,
            id: ID,
            root: tree.root(),
        };
        let message = Vec::from_slice(alloc, MESSAGE).expect(rt, "memory");
        let id = MessageId::of(MESSAGE);
        let session = Session::start(alloc, &key, &plan, 0, &id).expect(rt, "memory");
        Meeting {
            params,
            plan,
            leaves,
            tree,
            message,
            session,
        }
    }

    /// A session over the reference and the tree of a dealing.
    pub fn dealt(rt: &impl Abort, alloc: Global, lms: u32, ots: u32) -> Meeting {
        let Dealt {
            tree,
            reference,
            ..
        } = dealt(rt, alloc, (lms, ots), (5, 3));
        Meeting::new(rt, alloc, (lms, ots), reference, tree.nodes())
    }

    /// A session of the typecodes 10 and 7 over a reference and a tree of zeros.
    pub fn blank(rt: &impl Abort, alloc: Global) -> Meeting {
        let leaves = vec![in alloc; 0; LEAVES].expect(rt, "memory");
        Meeting::new(rt, alloc, (10, 7), leaves, &[0; 24 * 63])
    }

    /// Changes the byte of the reference at this place after its header.
    pub fn spoil(&mut self, place: usize) {
        if place < self.leaves.len() {
            self.leaves[place] ^= 1;
        }
    }

    /// Trustee `member` answers the ask of the present round.
    pub fn take(&mut self, member: u8, code: u8, body: &[u8]) -> Step {
        let c = match self.session.randomizer() {
            Some(c) => c,
            None => Val::cut(&[0; 32], self.params.n),
        };
        let head = ReplyHead {
            key: ID,
            leaf: 0,
            member,
            message: MessageId::of(MESSAGE),
            round: self.session.round(),
            c,
            code,
        };
        self.session.take(&head, body)
    }

    /// Trustee `member` gives its mask of round one.
    pub fn give_mask(&mut self, member: u8) -> Step {
        let mask = random_mask(&key_of(member), &self.params, &ID, 0);
        self.take(member, 0, mask.bytes())
    }

    /// Trustee `member` gives its masks of round two, if there is one.
    pub fn give_masks(&mut self, member: u8) -> Option<Step> {
        let c = self.session.randomizer()?;
        let masks = masks_of(&self.params, &key_of(member), &c)?;
        let length = self.params.n as usize * self.params.p as usize;
        Some(self.take(member, 0, &masks[..length]))
    }

    /// Whether trustee 2 is a member.
    fn has_second(&self) -> Option<()>
        ensures { IfSome result (λ _. Contains (leaf_members self.now.session.plan self.now.session.leaf) 2) }
    {
        if self.session.members().has(2) {
            Some(())
        } else {
            None
        }
    }

    /// Whether the session is in round one.
    pub fn in_first(&self) -> Option<()>
        ensures { IfSome result (λ _. self.now.session.c ≡ None) }
    {
        match self.session.randomizer() {
            Some(_) => None,
            None => Some(()),
        }
    }

    /// The ask of the present round to trustee 2.
    pub fn ask(&self, digest: &Val) -> Option<Result<Ask, RefFault>> {
        self.has_second()?;
        let mut cells = Whole::new(&self.params, &self.plan, &self.leaves);
        Some(self.session.ask(&mut cells, 2, digest))
    }

    /// Ends round one, if the session is in it.
    pub fn turn(&mut self) -> Option<Result<(), SessionFault>> {
        self.in_first()?;
        let mut cells = Whole::new(&self.params, &self.plan, &self.leaves);
        Some(self.session.turn(&mut cells))
    }

    /// Ends round two, if there is one.
    pub fn finish(&self, alloc: Global) -> Option<Result<Vec<u8>, SessionFault>> {
        self.session.randomizer()?;
        let mut cells = Whole::new(&self.params, &self.plan, &self.leaves);
        Some(
            self.session
                .finish(alloc, &mut cells, &self.tree, &self.message),
        )
    }
}

//! Why nothing is signed.

ghost use Rattle.std.specs.Prelude.{◌≡◌, IfOk, string_bytes};
ghost use Rattle.tool_base.specs.Ending.{spaced, unsigned_line, unsigned_status};
ghost use Rattle.tool_base.specs.declared.unsigned.Unsigned.TheVariants as unsigned;

use crate::lines::{number_line, numbers_line, roots_line};
use coalition_map::Members;
use lms_bytes::Val;
use std::alloc::{AllocError, Global};

/// Why nothing is signed. A member is a trustee of the leaf's coalition, by its number.
#[derive(Clone, Copy, Debug, PartialEq, Eq)]
pub enum Unsigned {
    /// This member gave no reply in this round.
    Missing { member: u8, round: u8 },
    /// This member has answered for another message, or under another randomizer, with the leaf.
    SpentLeaf { leaf: u32, member: u8 },
    /// This member found that the joined randomizer is not the dealer's.
    WrongCheck { leaf: u32, member: u8 },
    /// The joined signature leads to the root `got`, and the key has `want`.
    WrongRoot { leaf: u32, got: Val, want: Val },
    /// The signature is not accepted, or a member found the joined randomizer wrong, and these members have given other
    /// masks than those that the dealer committed to.
    Blamed { members: Members },
    /// The coalition of this number has no leaf left.
    NoLeaf { coalition: u32 },
    /// This member refused, with the refusal of this code.
    Refused { member: u8, code: u8 },
    /// This member sent frame after frame that is not a reply to the ask.
    Stray { member: u8, round: u8 },
    /// The members are not a coalition.
    NotACoalition,
}

impl Unsigned {
    /// The status that the tool answers.
    pub fn status(&self) -> u8
        ensures { result ≡ unsigned_status self.now }
    {
        match self {
            Unsigned::Missing { .. } => 6,
            Unsigned::SpentLeaf { .. } => 7,
            Unsigned::WrongCheck { .. } | Unsigned::WrongRoot { .. } => 8,
            Unsigned::Blamed { .. } => 8,
            Unsigned::NoLeaf { .. } => 9,
            Unsigned::Refused { .. } | Unsigned::Stray { .. } => 11,
            Unsigned::NotACoalition => 18,
        }
    }

    /// The line that the tool prints.
    pub fn line(&self, alloc: Global) -> Result<String, AllocError>
        ensures { IfOk result (λ line. string_bytes line ≡ unsigned_line self.now) }
    {
        match self {
            Unsigned::Missing { member, round } => {
                numbers_line(alloc, "error 6 missing ", *member, " round ", *round)
            }
            Unsigned::SpentLeaf { leaf, member } => {
                format!(in alloc; "error 7 spent leaf {leaf} member {member}\n")
            }
            Unsigned::WrongCheck { leaf, member } => {
                format!(in alloc; "error 8 check leaf {leaf} member {member}\n")
            }
            Unsigned::WrongRoot { leaf, got, want } => {
                roots_line(alloc, "error 8 root leaf ", *leaf, got, want)
            }
            Unsigned::Blamed { members } => blamed_line(alloc, *members),
            Unsigned::NoLeaf { coalition } => {
                number_line(alloc, "error 9 no leaf coalition ", *coalition)
            }
            Unsigned::Refused { member, code } => {
                numbers_line(alloc, "error 11 member ", *member, " code ", *code)
            }
            Unsigned::Stray { member, round } => {
                numbers_line(alloc, "error 11 stray ", *member, " round ", *round)
            }
            Unsigned::NotACoalition => String::from_str(alloc, "error 18 not a coalition\n"),
        }
    }
}

/// The line of members that are blamed.
fn blamed_line(alloc: Global, members: Members) -> Result<String, AllocError>
    ensures { IfOk result (λ line. string_bytes line ≡ unsigned_line (unsigned.Blamed members)) }
{
    if members.size() == 0 {
        return format!(in alloc; "error 8 blamed none\n");
    }
    let numbers = numbers_of(alloc, members)?;
    format!(in alloc; "error 8 blamed{numbers}\n")
}

/// The numbers of members in ascending order, each after a space.
fn numbers_of(alloc: Global, members: Members) -> Result<String, AllocError>
    ensures { IfOk result (λ numbers. string_bytes numbers ≡ spaced members) }
{
    let _bits = members.bits();
    let mut numbers = String::new(alloc);
    'members: for member in 1..17 {
        if members.has(member) {
            let number = format!(in alloc; " {member}")?;
            numbers.push_str(number.as_str())?;
        }
    }
    Ok(numbers)
}

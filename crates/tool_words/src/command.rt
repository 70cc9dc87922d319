//! A command with its words.

use crate::aggregate_words::AggregateWords;
use crate::deal_words::DealWords;
use crate::drill_words::DrillWords;
use crate::hss_sign_words::HssSignWords;
use crate::sign_words::SignWords;
use crate::trustee_words::TrusteeWords;

/// A command with its words.
#[derive(Clone, Copy)]
pub enum Command<'a> {
    /// Verifies a signature of a message under a key.
    Verify {
        /// The name of the key's file.
        key: &'a str,
        /// The name of the message's file.
        message: &'a str,
        /// The name of the signature's file.
        signature: &'a str,
    },
    /// Deals a key to two trustees and signs with its first leaf, in memory.
    Rehearse {
        /// The name of the entropy's file.
        entropy: &'a str,
        /// The name of the message's file.
        message: &'a str,
        /// The name that the public key is written under.
        key_out: &'a str,
        /// The name that the signature is written under, a different one.
        signature_out: &'a str,
    },
    /// Deals a key.
    Deal(DealWords<'a>),
    /// Makes the journal of a trustee, or the leaf table of an aggregator.
    Enrol {
        /// The name of the trustee's share, or of the reference file.
        file: &'a str,
        /// The name that the journal or the table is made under.
        journal: &'a str,
    },
    /// Copies a journal of version 1 into one of version 2.
    Migrate {
        /// The name of the share's file.
        share: &'a str,
        /// The name of the journal.
        journal: &'a str,
        /// The name that the copy is made under.
        new: &'a str,
    },
    /// Lists a message in a book of approved messages.
    Approve {
        /// The name of the share's file.
        share: &'a str,
        /// The name of the book.
        book: &'a str,
        /// The name of the message's file.
        message: &'a str,
    },
    /// Serves a trustee.
    Trustee(TrusteeWords<'a>),
    /// Signs a message.
    Sign(SignWords<'a>),
    /// Signs a message, and if the signature is not accepted, names the members whose replies are not the dealer's.
    Blame(SignWords<'a>),
    /// Verifies a signature of a message under a key of one to eight levels.
    HssCheck {
        /// The name of the key's file.
        key: &'a str,
        /// The name of the message's file.
        message: &'a str,
        /// The name of the signature's file.
        signature: &'a str,
    },
    /// Signs a lower key, and makes a key and a signature of two levels.
    HssSign(HssSignWords<'a>),
    /// Serves an aggregator.
    Aggregate(AggregateWords<'a>),
    /// Runs sessions in memory under a schedule of events.
    Drill(DrillWords),
    /// Says what a file holds.
    Show {
        /// The name of the file.
        file: &'a str,
        /// Whether each slot that is not free has a line.
        leaves: bool,
    },
}

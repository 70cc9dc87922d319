//! Readings as the table writes them.

use coalition_map::Members;
use lms_bytes::{Ask, Params, ReplyHead, Second};
use round_frames::{Failure, FrameFault, Outcome, next_ask, next_reply, next_request, next_result};
use std::alloc::Global;
use std::fmt::Write;
use stream_io::Source;

/// The text of a reading that is written: the outcome, a number and a text of values, with a tab between each two. If
/// memory runs out, it is cut.
#[derive(Drop)]
pub(crate) struct Reading {
    alloc: Global,
    length: usize,
    text: String,
    cut: bool,
}

impl Reading {
    /// An empty reading of a source that has `length` bytes.
    pub(crate) fn new(alloc: Global, length: usize) -> Reading {
        Reading {
            alloc,
            length,
            text: String::new(alloc),
            cut: false,
        }
    }

    /// The text, or an empty one if memory ran out.
    pub(crate) fn text(&self) -> &str {
        if self.cut { "" } else { &self.text }
    }

    /// Adds a text.
    fn add(&mut self, text: &str) {
        self.cut |= self.text.push_str(text).is_err();
    }

    /// Adds a number.
    fn add_number(&mut self, number: usize) {
        self.cut |= write!(self.text, "{number}").is_err();
    }

    /// Adds a blank if a value of this frame comes before.
    fn add_blank(&mut self) {
        if !self.text.ends_with('\t') {
            self.add(" ");
        }
    }

    /// Adds a word.
    fn add_word(&mut self, word: &str) {
        self.add_blank();
        self.add(word);
    }

    /// Adds a value that is a number.
    fn add_value(&mut self, number: u32) {
        self.add_blank();
        self.add_number(number as usize);
    }

    /// Adds a value that is bytes, in hexadecimal digits, or `-` if there are none.
    fn add_bytes(&mut self, bytes: &[u8]) {
        match hex::encode(self.alloc, bytes) {
            Ok(digits) if digits.is_empty() => self.add_word("-"),
            Ok(digits) => self.add_word(&digits),
            Err(_) => self.cut = true,
        }
    }

    /// Adds the number of a member, after a comma if one comes before it.
    fn add_member(&mut self, member: u8) {
        if !self.text.ends_with('\t') {
            self.add(",");
        }
        self.add_number(usize::from(member));
    }

    /// Adds the numbers of members, with commas between them, or `-` if there are none.
    fn add_members(&mut self, members: Members) {
        for t in 1..=16 {
            if members.has(t) {
                self.add_member(t);
            }
        }
        if members.bits() == 0 {
            self.add("-");
        }
    }

    /// Adds the outcome, and how many bytes were taken from the source.
    fn begin<S: Source>(&mut self, outcome: &str, source: &mut S) {
        let taken = self.length.saturating_sub(left(source));
        self.add(outcome);
        self.add_number(taken);
        self.add("\t");
    }

    /// Adds a fault: its number, its name, and the number that was read if it has one.
    fn add_fault(&mut self, fault: FrameFault) {
        self.add(fault_name(fault));
        if let Some(got) = fault_number(fault) {
            self.add_number(got as usize);
        }
    }

    /// Adds what was read of round two.
    fn add_second(&mut self, second: &Second) {
        self.add_bytes(second.c.bytes());
        self.add_bytes(&second.tag);
        self.add_bytes(second.digest.bytes());
    }

    /// Adds the values of an ask.
    fn add_ask(&mut self, ask: &Ask) {
        self.add_bytes(&ask.key);
        self.add_value(ask.leaf);
        self.add_bytes(&ask.message.to_bytes());
        match &ask.second {
            Some(second) => self.add_second(second),
            None => self.add_word("-"),
        }
    }

    /// Adds the values of a reply's head.
    fn add_head(&mut self, head: &ReplyHead) {
        self.add_bytes(&head.key);
        self.add_value(head.leaf);
        self.add_value(u32::from(head.member));
        self.add_bytes(&head.message.to_bytes());
        self.add_value(u32::from(head.round));
        self.add_bytes(head.c.bytes());
        self.add_value(u32::from(head.code));
    }

    /// Adds the values of a failure.
    fn add_failure(&mut self, failure: &Failure) {
        self.add_value(u32::from(failure.status));
        self.add_value(u32::from(failure.member));
        self.add_value(u32::from(failure.round));
        self.add_value(failure.leaf);
    }

    /// Reads an ask, and adds its values.
    fn read_ask<S: Source>(&mut self, params: &Params, source: &mut S) {
        match next_ask(params, source) {
            Ok(ask) => {
                self.begin("ask\t", source);
                self.add_ask(&ask);
            }
            Err(fault) => self.add_fault(fault),
        }
    }

    /// Reads a reply, and adds its values.
    fn read_reply<S: Source>(&mut self, params: &Params, source: &mut S) {
        let mut body = [0; 8480];
        match next_reply(params, source, &mut body) {
            Ok((head, length)) => {
                self.begin("reply\t", source);
                self.add_head(&head);
                self.add_bytes(&body[..length]);
            }
            Err(fault) => self.add_fault(fault),
        }
    }

    /// Reads a request, and adds its values: the members, and the message.
    fn read_request<S: Source>(&mut self, source: &mut S) {
        match next_request(self.alloc, source) {
            Ok((members, message)) => {
                self.begin("request\t", source);
                self.add_members(members);
                self.add_bytes(&message);
            }
            Err(fault) => self.add_fault(fault),
        }
    }

    /// Reads a result, and adds its values.
    fn read_result<S: Source>(&mut self, params: &Params, source: &mut S) {
        match next_result(self.alloc, params, source) {
            Ok(Outcome::Signature(bytes)) => {
                self.begin("signature\t", source);
                self.add_bytes(&bytes);
            }
            Ok(Outcome::Failure(failure)) => {
                self.begin("failure\t", source);
                self.add_failure(&failure);
            }
            Err(fault) => self.add_fault(fault),
        }
    }

    /// Makes a reader read, and adds what came of it.
    pub(crate) fn read<S: Source>(&mut self, params: &Params, reader: &str, source: &mut S) {
        match reader {
            "ask" => self.read_ask(params, source),
            "reply" => self.read_reply(params, source),
            "request" => self.read_request(source),
            _ => self.read_result(params, source),
        }
    }
}

/// How many bytes a source has left, up to many.
fn left<S: Source>(source: &mut S) -> usize {
    let mut room = [0; 64];
    let mut count: usize = 0;
    for _ in 0..1_000_000 {
        match source.read(&mut room) {
            Ok(0) | Err(_) => return count,
            Ok(some) => count = count.saturating_add(some),
        }
    }
    count
}

/// The number that was read and refused.
fn fault_number(fault: FrameFault) -> Option<u32> {
    match fault {
        FrameFault::Kind { got } => Some(u32::from(got)),
        FrameFault::TooLong { got } => Some(got),
        _ => None,
    }
}

/// The number and the name of a fault, with which a reading begins.
fn fault_name(fault: FrameFault) -> &'static str {
    match fault {
        FrameFault::End => "fault\t1\tEnd ",
        FrameFault::Cut => "fault\t2\tCut ",
        FrameFault::Magic => "fault\t3\tMagic ",
        FrameFault::Kind { .. } => "fault\t4\tKind ",
        FrameFault::TooLong { .. } => "fault\t5\tTooLong ",
        FrameFault::Shape => "fault\t6\tShape ",
        FrameFault::ReadFault => "fault\t7\tReadFault ",
        FrameFault::NoMemory => "fault\t8\tNoMemory ",
    }
}

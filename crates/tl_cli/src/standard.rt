//! The descriptors of standard input, output and error.

use std::fs::{File, OpenOptions};
use std::os::fd::AsRawFd;

/// Opens `/dev/null` in place of each of the descriptors 0 to 2 that is closed, and keeps it open as long as the result
/// lives. A program may be started with any of them closed; the system would then give its number to the next file that
/// is opened, and what is printed would be written into that file.
pub(crate) fn hold_standard(rt: &HostRuntime) -> [Option<File>; 3] {
    let mut held = [None, None, None];
    let mut how = OpenOptions::new();
    how.read(true).write(true);
    'descriptors: for place in &mut held {
        match how.open(rt, "/dev/null") {
            Ok(file) if file.as_raw_fd() <= 2 => *place = Some(file),
            _ => break,
        }
    }
    held
}

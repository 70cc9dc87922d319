//! A bell that one link rings and others wait for.

use std::sync::atomic::{AtomicU64, Ordering};

/// A bell that links in several threads share, with a count of its rings.
#[derive(Drop)]
pub struct Bell {
    rings: AtomicU64,
    looks: u64,
}

impl Bell {
    /// A bell that nobody has rung. A waiter looks at it `looks` times, and then gives up: no wait is endless.
    pub fn new(looks: u64) -> Bell {
        Bell {
            rings: AtomicU64::new(0),
            looks,
        }
    }

    /// Rings once.
    pub fn ring(&self) {
        self.rings.fetch_add(1, Ordering::SeqCst);
    }

    /// Waits until it has been rung `rings` times, and returns whether it was.
    pub fn hears(&self, rings: u64) -> bool {
        for _ in 0..self.looks {
            if self.rings.load(Ordering::SeqCst) >= rings {
                return true;
            }
        }
        false
    }
}

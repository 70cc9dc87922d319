//! Whole sessions.

mod meeting;
mod session_core_tests;

//! What is read and written: bytes of the standard, frames, files of a dealing, and the words of a command.

mod lms_bytes_tests;
mod round_frames_tests;
mod share_files_tests;
mod tool_words_tests;

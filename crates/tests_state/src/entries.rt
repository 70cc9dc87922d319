//! What is entered and found again: books, journals, tables, and sorted lists.

mod books;
mod journals;
mod sorted;
mod tables;
mod tall;

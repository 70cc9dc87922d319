//! Chains, trees and signatures of the standard.

mod hss_levels_tests;
mod lms_verify_tests;
mod merkle_path_tests;
mod ots_chain_tests;

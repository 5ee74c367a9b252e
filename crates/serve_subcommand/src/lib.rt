//! `serve`: a host drives an image by frames, over the files that the command line names and standard input and output.
#![tactic(auto)]

mod over_files;
mod serve_command;

pub use over_files::serve_image;
pub use serve_command::do_serve;

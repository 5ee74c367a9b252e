//! Screens compiled to an image: by the rules of a source (`build`), or by the running image itself (`load_by_machine`);
//! and that both write the same, as laws.
#![tactic(auto)]

mod checking;
pub mod laws;
mod load;
mod rounds;
mod rows;

pub use checking::is_resident;
pub use image_builder::{BuildFault, Cause, build};
pub use load::{LoadFault, load_by_machine, load_on};
pub use rounds::Stop;

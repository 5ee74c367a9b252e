//! The builder: an image is made of the source in screens (`build`), or the first fault of the source is found.
#![tactic(auto)]

mod body;
mod building;
mod cause;
mod entry;
mod header;
mod image;
mod items;
pub mod laws;
mod make;
mod name;
mod reading;
mod source;
mod spelled;
mod spot;
mod state;

pub use building::build;
pub use cause::{BuildFault, Cause};
pub use spelled::keyword;

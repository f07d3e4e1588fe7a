//! Layers of bytes below one interface: what a layer has to say of itself so that messages go over it, the layer that the VM speaks, a second one for
//! tests, the translation of one layer's frames into another's, for a stream that comes in pieces, and the transcoder between a VM and its peer.
//! A runtime whose peer speaks other bytes writes a `Layer` for them; the VM, and all that is proved of it, stays as it is.
#![tactic(auto)]

mod feeding;
pub mod laws;
pub mod layer;
pub mod own;
mod rest;
pub mod short;
mod transcoder;
pub mod translation;
mod translator;

pub use layer::{Layer, LayerFault};
pub use own::Own;
pub use short::Short;
pub use transcoder::Transcoder;
pub use translation::translate;
pub use translator::Translator;

//! Laws of the definitions. Each is a function that does nothing, and its contract is the law.

pub mod batches;
pub mod frames;
pub mod generator;
pub mod groups;
pub mod histories;
pub mod lives;
pub mod places;
pub mod placing;
pub mod recordings;
pub mod script_outputs;
pub mod scripts;
pub mod settings;
pub mod stage;
pub mod timelines;
pub mod trails;

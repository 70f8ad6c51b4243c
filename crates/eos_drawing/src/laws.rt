//! What is proved of drawings.

pub use eos_picture::laws::texts_stay_texts;

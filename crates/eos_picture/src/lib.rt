//! The picture of what a fault is about, as a value: the transactions around it, each as a column, the partitions that they
//! wrote to and read from, each as a row, and in each cell what the transaction did there.
//!
//! The picture over what is wanted of an evidence's logs is one of the logs: so who draws it may forget their bytes.
//!
//! It is drawn as SVG (W3C, "Scalable Vector Graphics 1.1"): a few shapes, and texts that stay texts whatever bytes they have.
#![tactic(auto)]

mod acts;
mod canvas;
mod cells;
mod chosen;
mod drawing;
mod drawn_rows;
mod ends;
mod escaping;
mod growing;
mod headings;
mod labels;
pub mod laws;
mod layout;
mod legend;
mod look;
mod mark;
mod marks;
mod named;
mod order;
mod outputs;
mod passes;
mod past;
mod picture;
mod plan;
mod rows;
mod shape;
mod spots;
mod times;
mod told;
mod transactions;
mod window;

pub use cells::offset_of;
pub use drawing::{Drawing, svg_text};
pub use layout::drawing_of;
pub use look::Look;
pub use mark::{Column, Decided, Mark, Picture, Row, Sign};
pub use picture::picture_of;
pub use shape::{Line, Point, Shape, Size};
pub use times::Times;
pub use transactions::columns_of;

//! What Kafka's record formats are made of: variable-length numbers, CRC-32C, fields read one after the other, and the fields
//! of Kafka's messages, which are lengths and counts, texts, and sections of tagged fields, in the plain and in the flexible
//! form. The codecs of record batches and of the internal logs stand on these.
#![tactic(auto)]

mod crc;
mod cursor;
mod field_writing;
mod fields;
mod form;
mod later_tables;
mod numbers;
mod reading;
mod tables;
mod varint;
mod writing;

pub use crc::crc32c;
pub use cursor::Cursor;
pub use eos_base::RecordFault;
pub use field_writing::{fits_count, fits_length, write_count, write_section, write_text};
pub use fields::Fields;
pub use form::Form;
pub use numbers::{are_bytes, write_i8, write_i16, write_i32, write_i64, write_u32};
pub use reading::{read_count, read_text, skip_section};
pub use varint::{read_uvarint, read_varint, read_varlong};
pub use writing::{write_uvarint, write_varint, write_varlong};

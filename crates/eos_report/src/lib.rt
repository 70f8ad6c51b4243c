//! The verdict, its faults and its notes for those who read them: as a line of text, as a line of JSON, as a report, which is
//! one JSON object whose schema stands in `docs/report.schema.json`, and as a page of HTML.
#![tactic(auto)]

mod about;
mod dates;
mod fault;
mod html;
mod json_fault;
mod json_faults;
mod json_report;
mod line;
mod listing;
mod note;
mod page;
mod page_tables;
mod place;
mod report;
mod tally;
mod tellings;

pub use about::{About, Times};
pub use dates::{Dates, Timestamps};
pub use eos_verdict::{text_of_fault, verdict_line};
pub use fault::ReportFault;
pub use json_report::{Findings, report_text};
pub use line::{fault_list_json, json_line};
pub use listing::fault_list;
pub use page::page_text;
pub use report::{no_json, verdict_json, write_verdict};
pub use tellings::{Telling, Told, end_page};

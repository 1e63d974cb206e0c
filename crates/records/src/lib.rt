// The record layer: a file as records behind each other, judged one by one.
#![tactic(auto)]

mod format;
mod kinds;
mod laws;
mod payloads;
mod sequence;
mod walking;

pub use format::{HEADER_LENGTH, Header, check_of, read_header};
pub use kinds::{Kind, UnknownKind};
pub use laws::{sifted_files_are_kept_records, skipped_records_change_nothing};
pub use payloads::{Place, Places};
pub use sequence::{Order, OrderFault};
pub use walking::{LARGEST_FILE, walk};

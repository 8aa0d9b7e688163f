//! A file of which a crash may lose what was not synced, and files that are read and never written.
#![tactic(auto)]

mod edge;
mod file;
mod file_pages;
mod mem_pages;
mod memory;
mod pages;
mod record;

pub use edge::{Did, Disk, Size};
pub use file::FileDisk;
pub use file_pages::FilePages;
pub use mem_pages::MemPages;
pub use memory::{DiskCalls, MemDisk};
pub use pages::{DiskPages, Pages};

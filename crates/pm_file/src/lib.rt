//! A real file as a disk: the edge that is trusted.
#![tactic(auto)]

mod file_disk;
mod folder;
mod one_file;
mod opening;
mod store_file;
mod store_files;
mod syncing;

pub use file_disk::FileDisk;
pub use one_file::OneFile;
pub use store_file::StoreFile;
pub use store_files::StoreFiles;

ghost use Rattle.pm_file.specs.Standing.{IsFolder};

use std::path::Path;

/// The folder in which the process runs.
const HERE: &str = ".";

/// The folder in which the file of this path has its name.
pub(crate) fn folder_of(path: &str) -> &str
    ensures { IsFolder path.now result.now }
{
    match Path::new(path).parent() {
        Some(folder) if folder.to_string_lossy().is_empty() => HERE,
        Some(folder) => folder.to_string_lossy(),
        None => path,
    }
}

//! The writer of copies.

ghost use Rattle.std.specs.Prelude.{◌≡◌};
ghost use Rattle.pm_save.specs.Progress.Kept.{AreKept, open_count};
ghost use Rattle.pm_save.specs.Writer.KeptOnce.{AreKept-prop};

use crate::progress::{InProgress, PlacedCar, is_open};
use pm_graphs::settled::{PackedPage, PackedPages};

/// Writes copies page by page, whatever their cars come from: it knows the cars of the settled copy, each as its page
/// spells it, and how far the copy in progress was written, if there is one.
#[derive(Drop)]
pub struct Writer {
    /// The cars of the settled copy.
    pub settled: Vec<PackedPage>,
    /// The copy in progress.
    pub progress: Option<InProgress>,
    ghost kept: { AreKept settled.items progress } by { AreKept-prop settled.items progress },
}

/// How many of these cars stand on no page.
fn count_open(cars: &[PlacedCar]) -> usize
    ensures { result ≡ open_count cars.now }
{
    let mut count = 0;
    for one in cars {
        if is_open(&one.place) {
            count += 1;
        }
    }
    count
}

impl Writer {
    ghost use Rattle.std.specs.Prelude.{◌≡◌, Some, None, option_map};
    ghost use Rattle.pm_saving.specs.Progress.{Progress};
    ghost use Rattle.pm_saving.specs.Paging.{left_of};
    ghost use Rattle.pm_save.specs.Writer.Shown.{writing};

    /// A writer whose settled copy has these cars. No copy is in progress. It takes no memory.
    pub fn new(settled: PackedPages) -> Writer
        ensures { writing result ≡ record { settled = settled; progress = None } }
    {
        Writer {
            settled: settled.into_vec(),
            progress: None,
        }
    }

    /// The number of the copy in progress, if there is one.
    pub fn number(&self) -> Option<u32>
        ensures { result ≡ option_map (λ (progress : Progress). progress.number) (writing self.now).progress }
    {
        match &self.progress {
            Some(progress) => Some(progress.number),
            None => None,
        }
    }

    /// How many pages of the copy in progress were not written: its cars that are not clean, and those of its catalog;
    /// 0 where none is in progress. It looks at each car once.
    pub fn left(&self) -> u64
        ensures { result ≡ left_of (writing self.now).progress }
    {
        match &self.progress {
            Some(it) => (count_open(&it.cars) + it.counts.len()) as u64,
            None => 0,
        }
    }
}

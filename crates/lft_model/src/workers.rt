//! How many workers there may be.

ghost use Rattle.std.specs.Prelude.{◌↔◌, IsTrue};
ghost use Rattle.lft_model.specs.Workers.{IsWorkers};

/// Whether so many workers may judge or record: 1 to 64.
pub fn is_workers(workers: u32) -> bool
    ensures { IsTrue result ↔ IsWorkers workers }
{
    1 <= workers && workers <= 64
}

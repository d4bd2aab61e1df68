//! Limits of a run.

ghost use Rattle.std.specs.Prelude.{◌≡◌, ◌≤◌, ◌↔◌, IsSome, IfSome};
ghost use Rattle.model.specs.BuiltInNumbers.{most_threads};
ghost use Rattle.model.specs.LimitRanges.{AreLimits};

/// What a run may use: the objects that it makes, their cells (instance fields but for hidden ones, array elements and
/// units of Strings), the monitors that have waiters or many entries, the threads that are started, the main thread
/// included, and the method frames of one thread.
#[derive(Clone, Copy)]
pub struct Limits {
    pub objects: u32,
    pub cells: u32,
    pub monitors: u32,
    pub threads: u32,
    pub frames: u32,
    pub ghost objects_fit: { objects ≤ 4000000000 },
    pub ghost monitors_fit: { monitors ≤ 8388608 },
    pub ghost threads_fit: { (1 ≤ threads) × (threads ≤ most_threads) },
    pub ghost frames_fit: { (1 ≤ frames) × (frames ≤ 65535) },
}

impl Limits {
    /// The limits, where each is in its range: at most 4,000,000,000 objects, 4,294,967,295 cells and
    /// 8,388,608 monitors, 1 to 32,767 threads and 1 to 65,535 frames.
    pub fn new(objects: u32, cells: u32, monitors: u32, threads: u32, frames: u32) -> Option<Limits>
        ensures in_range { IsSome result ↔ AreLimits objects monitors threads frames }
        ensures kept { IfSome result (λ l. (l.objects ≡ objects) × (l.cells ≡ cells) × (l.monitors ≡ monitors)
            × (l.threads ≡ threads)
            × (l.frames ≡ frames)) }
    {
        if objects <= 4_000_000_000
            && monitors <= 8_388_608
            && 1 <= threads
            && threads <= 32_767
            && 1 <= frames
            && frames <= 65_535
        {
            Some(Limits {
                objects,
                cells,
                monitors,
                threads,
                frames,
            })
        } else {
            None
        }
    }
}

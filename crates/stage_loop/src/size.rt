//! How many blocks a stage has, and how many trips they have.

ghost use Rattle.std.specs.Prelude.{◌≡◌, ◌-◌, ◌*◌, ◌<◌, min};
ghost use Rattle.stage_loop.specs.Crews.{paid_by};

/// How many blocks a stage has: the window, or all that are left.
pub(crate) fn blocks_of(left: u64, block: u64, window: u32) -> u32
    requires left { 0 < left }
    requires block { 0 < block }
    requires window { 0 < window }
    ensures some { 0 < result }
    ensures last { (result - 1) * block < left }
{
    let whole = (left - 1) / block;
    if whole < u64::from(window) {
        return whole as u32 + 1;
    }
    window
}

/// How many workers a stage has: no more than blocks, and where it is known what the blocks of a
/// stage before used, as many as these turns pay for, since to start a thread costs what some 2,000
/// turns do. The calling thread is one of them.
pub(crate) fn workers_of(most: u32, blocks: u32, last: Option<u64>) -> u32
    requires most { 0 < most }
    requires blocks { 0 < blocks }
    ensures { result ≡ paid_by last (min most blocks) }
{
    let all = most.min(blocks);
    match last {
        Some(turns) => {
            let paid = turns / 2048 + 1;
            if paid < u64::from(all) {
                paid as u32
            } else {
                all
            }
        }
        None => all,
    }
}

/// How many trips some first blocks have.
pub(crate) fn trips_in(cut: u64, block: u64, left: u64) -> u64
    ensures { result ≡ min (cut * block) left }
{
    match cut.checked_mul(block) {
        Some(trips) => trips.min(left),
        None => left,
    }
}

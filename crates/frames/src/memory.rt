// Frame memory over entries that the caller holds.
ghost use Rattle.std.specs.Prelude.{◌≡◌, true};
ghost use Rattle.region.specs.Grounds.{KeepsMeaning};
ghost use Rattle.frames.specs.Frames.{frames, well_shaped};

use address::address::GuestAddress;

/// Entry n covers 4,096 bytes from `base` + 4,096 n: 0 is absent, and v stands for the host place
/// 4,096 (v - 1).
#[derive(Clone, Copy)]
pub struct FrameMemory<'a> {
    pub(crate) base: GuestAddress,
    pub(crate) entries: &'a [u32],
    pub(crate) host_len: u64,
    // what was asked when it was made
    pub ghost shape: { well_shaped base.0 entries.now ≡ true },
    pub ghost lawful: { KeepsMeaning (record { host = host_len; regions = frames base.0 entries.now }) },
}
